ghost use Rattle.std.specs.Prelude.{◌≡◌, ◌+◌, ◌*◌};
ghost use Rattle.statistics.specs.Wide.{wide, up_to_wide};

/// A sum of numbers of 128 bits and of their products, exact up to 2^256 - 1, where it stays.
#[derive(Clone, Copy)]
pub struct Wide {
    /// Its lower 128 bits.
    pub low: u128,
    /// Its upper 128 bits.
    pub high: u128,
}

impl Wide {
    /// The sum 0.
    pub fn new() -> Wide
        ensures { wide result ≡ 0 }
    {
        Wide { low: 0, high: 0 }
    }

    /// Adds a product, as far as 2^256 - 1.
    pub fn add_product(&mut self, one: u128, other: u128)
        ensures { wide self.new ≡ up_to_wide (wide self.old + one * other) }
    {
        let (low, up) = one.carrying_mul_add(other, self.low, 0);
        *self = match self.high.checked_add(up) {
            Some(high) => Wide { low, high },
            None => Wide {
                low: u128::MAX,
                high: u128::MAX,
            },
        };
    }
}

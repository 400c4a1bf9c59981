ghost use Rattle.std.specs.Prelude.{◌≡◌};

/// A sequenceId: the low 16 bits of a count that has no end (IEEE 1588-2019, 7.3.7).
#[derive(Clone, Copy, Debug, Default, PartialEq, Eq, Hash)]
pub struct Seq(pub u16);

impl Seq {
    ghost use Rattle.ptp_units.specs.Sequence.{next, of_count, is_newer};

    /// The number after this one; 0 comes after 65,535.
    pub fn next(self) -> Seq
        ensures { result.0 ≡ next self.0 }
    {
        Seq(self.0.wrapping_add(1))
    }

    /// The number of a count: the count modulo 65,536.
    pub fn of_count(count: u64) -> Seq
        ensures { result.0 ≡ of_count count }
    {
        Seq((count % 65_536) as u16)
    }

    /// Whether this number is 1 to 32,767 ahead of the other, modulo 65,536.
    pub fn newer_than(self, other: Seq) -> bool
        ensures { result ≡ is_newer self.0 other.0 }
    {
        let ahead = self.0.wrapping_sub(other.0);
        1 <= ahead && ahead <= 32_767
    }
}

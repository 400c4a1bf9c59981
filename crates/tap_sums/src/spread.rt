use tap_crossing::Kind;

/// What a crossing has.
#[derive(Clone, Copy)]
pub enum Quantity {
    /// What it took from tap to tap.
    Taken,
    /// By how much it was corrected.
    Corrected,
    /// What rests.
    Rest,
}

/// The least, the greatest and the mean of values, in units of 2^-16 ns.
#[derive(Clone, Copy)]
pub struct Spread {
    /// The least.
    pub least: i128,
    /// The greatest.
    pub greatest: i128,
    /// The mean, rounded to a whole unit, half to even.
    pub mean: i128,
}

/// What the crossings of a kind come to, where there are any.
#[derive(Clone, Copy)]
pub struct Statistics {
    /// The kind.
    pub kind: Kind,
    /// How many there are.
    pub count: u64,
    /// What they took.
    pub taken: Option<Spread>,
    /// By how much they were corrected.
    pub corrected: Option<Spread>,
    /// What rests.
    pub rest: Option<Spread>,
    /// The greatest change of the rest, without its sign, from one to the next, in units of 2^-16 ns.
    pub step: Option<u128>,
}

/// What the mean rests of both kinds come to, in units of 2^-16 ns, each rounded to a whole unit, half to even; where there are
/// crossings of both.
#[derive(Clone, Copy)]
pub struct BothWays {
    /// That of Syncs less that of Delay_Reqs.
    pub asymmetry: Option<i128>,
    /// Half of their sum.
    pub mean_rest: Option<i128>,
}

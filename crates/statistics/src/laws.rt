//! What follows from the definitions alone.
ghost use Rattle.statistics.specs.Flow.{EachNumberIsCountedOnce};

/// Of messages of one life in order, so many came and so many are missing as there are numbers from the first to the last: each gap is
/// counted once, also where numbers begin again at 0.
pub fn each_number_is_counted_once()
    ensures { EachNumberIsCountedOnce }
{}

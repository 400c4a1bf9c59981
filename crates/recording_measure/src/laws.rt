//! What follows from the definitions alone.
ghost use Rattle.recording_measure.specs.Exchange.{EachOffsetIsOfItsTimes};

/// In each line the doubled offset is `(t2 - t1 - sync_correction) - (t4 - delay_correction - t3)`, exactly, and the doubled path delay
/// the sum of the two, where its report is that of its exchange.
pub fn each_offset_is_of_its_times()
    ensures { EachOffsetIsOfItsTimes }
{}

//! What follows from the definitions alone, for any octets.
ghost use Rattle.tap_follow.specs.OneAnswer.{LinesHaveOneAnswer};

/// Lines have one answer: two answers over the same octets, of which neither is a fault of a device or of memory, are the same answer,
/// leave the same octets unread and have written the same. A fault is the same fault at the same line then.
pub fn lines_have_one_answer()
    ensures { LinesHaveOneAnswer }
{}

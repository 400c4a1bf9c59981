//! What follows from the definitions alone, for any number and any text.
ghost use Rattle.std.specs.Prelude.{◌≡◌, ℕ, List, Some, true};
ghost use Rattle.std.specs.List.{list_all};
ghost use Rattle.recording_lines.specs.Timed.{time_in, is_time_octet, TellsExactly};

/// A text is read as a time exactly where its digits make that time: whole seconds below 2^48 without zeros in
/// front, and nothing, or a point and at most nine decimals.
pub fn times_are_exact()
    ensures told { (text : List ℕ) (time : ℕ) → time_in text ≡ Some time → TellsExactly text time }
    ensures read { (text : List ℕ) (time : ℕ) → TellsExactly text time → time_in text ≡ Some time }
{}

/// A time's text is digits and points, which need no escapes in JSON and none in a table.
pub fn times_need_no_escapes()
    ensures { (text : List ℕ) (time : ℕ) → time_in text ≡ Some time → list_all is_time_octet text ≡ true }
{}

//! Laws that follow from the definitions, each the contract of a function that does nothing: a caller
//! that needs one in its proof calls it.
ghost use Rattle.line_writing.specs.Spelled.{LinesSpellThemselves, TranscriptLinesSpellThemselves};

/// The compact text of a line, without its LF, is UTF-8 and the JSON of the line's value, and that
/// value is the line again: for all values that are within their ranges and tags of 64 bits. So
/// whoever finds a line's octets to be the text of such a line knows what reading them answers.
pub fn texts_are_read()
    ensures schedule { LinesSpellThemselves }
    ensures transcript { TranscriptLinesSpellThemselves }
{}

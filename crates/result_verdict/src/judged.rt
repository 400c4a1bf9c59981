use crate::difference::Difference;
use crate::path_is::PathIs;
use crate::verdict::Verdict;

/// What is told of a result.
#[derive(Clone, Copy, Debug)]
pub struct Judged {
    /// By how much the path delay lies below the least or above the greatest of the known delays; 0 within.
    pub beyond: Difference,
    /// The offset, less that by the latest delay.
    pub offset_error: Difference,
    /// The path delay, less the latest.
    pub path_error: Difference,
    /// Which delay the path delay is.
    pub path_is: PathIs,
    /// Both numbers together, less the bracket: 0 where the offset is by the path delay.
    pub sum_error: Difference,
    /// What the result is.
    pub verdict: Verdict,
}

//! The mean and the standard deviation of a series.
ghost use Rattle.recording_words.specs.Figures.{AreFigures};

use statistics::{Series, Signed, deviation, mean};

/// The mean and the standard deviation of a series, in thousandths of a nanosecond, rounded.
#[derive(Clone, Copy)]
pub struct Figures {
    /// The mean, where there is one.
    pub mean: Option<Signed>,
    /// The standard deviation, where there is one.
    pub deviation: Option<u128>,
}

impl Figures {
    /// Of this series.
    pub fn of(series: &Series) -> Figures
        ensures { AreFigures series.now result }
    {
        Figures {
            mean: mean(series),
            deviation: deviation(series),
        }
    }
}

ghost use Rattle.std.specs.Prelude.{◌≡◌, ◌≢◌, ◌≤◌, ◌<◌, ◌++◌, All, List, ℕ, length, Ok, Err, MatchResult, ⊤};
ghost use Rattle.std.specs.Option.{ForSome};
ghost use Rattle.std.specs.Io.KnownBytes.{Appends};
ghost use Rattle.text_lines.specs.Counted.{device_of, greatest_count, HasNotFailed, HasFailedIf};
ghost use Rattle.text_lines.specs.Lines.{line_limit, input_limit, GivesWithin};
ghost use Rattle.text_lines.specs.Task.{Rules, WentOut, Answers, FailedAt, LeavesTask};

use crate::counted::Counted;
use crate::fault::{Cause, Stopped};
use crate::lines::Lines;
use std::io::{Read, Write};

/// What is done with the lines of an input, one after the other, and after the last.
pub trait LineTask {
    /// What the end answers.
    type Answer;
    /// Why a line isn't taken, or the end has no answer.
    type Fault;

    /// What a task is seen as.
    ghost State: { Type 0 };

    ghost rules: { Rules State Self.Answer Self.Fault };

    /// The states that a task may be seen in.
    ghost is_at: { Self → State → Type 0 };

    /// What a task is after this fault of a line, or of the end, by what it was before.
    ghost is_left: { Self → Self → Self.Fault → Type 0 } = { λ _ _ _. ⊤ };

    /// What a task is once the end answered, by what it was before.
    ghost is_ended: { Self → Self → Type 0 } = { λ _ _. ⊤ };

    /// The most lines of an input, fewer than 2^64 - 1: a fault after the last of them has a number, too.
    fn lines_limit() -> u64
        ensures limit { result ≡ rules.lines_limit }
        ensures counted { result < greatest_count };

    /// Takes one more line.
    fn take<W: Write>(&mut self, line: &[u8], output: &mut Counted<W>) -> Result<(), Self::Fault>
        requires stands { (state : State) × is_at self.old state }
        requires within { length line.now ≤ line_limit }
        ensures taken { (state : State) → is_at self.old state →
            let before = W.contents (device_of output.old) in
            let after = W.contents (device_of output.new) in
            MatchResult result
            (λ _. (later : State) × (written : List ℕ) × is_at self.new later
            × rules.Takes line.now state later written × Appends before after written)
            (λ what. (written : List ℕ) × rules.Stops line.now state what written
            × WentOut (rules.is_of_writer what) (Appends before after written)) }
        ensures left { (what : Self.Fault) → result ≡ Err what → is_left self.old self.new what }
        ensures failures { MatchResult result
            (λ _. HasNotFailed output.old output.new)
            (λ what. HasFailedIf (rules.is_of_writer what) output.old output.new) };

    /// Leaves the input where reading failed. `_start` is what was read of the line that isn't taken.
    fn leave(&mut self, _start: &[u8])
        ensures { (state : State) → is_at self.old state → is_at self.new state }
    {}

    /// Ends after the last of so many lines.
    fn finish<W: Write>(
        &mut self,
        lines: u64,
        output: &mut Counted<W>,
    ) -> Result<Self::Answer, Self::Fault>
        requires { (state : State) × is_at self.old state }
        ensures ended { (state : State) → is_at self.old state →
            let before = W.contents (device_of output.old) in
            let after = W.contents (device_of output.new) in
            MatchResult result
            (λ answer. (written : List ℕ) × rules.Ends lines state answer written × Appends before after written)
            (λ what. (written : List ℕ) × rules.StopsAtEnd state what written
            × WentOut (rules.is_of_writer what) (Appends before after written)) }
        ensures left { (what : Self.Fault) → result ≡ Err what → is_left self.old self.new what }
        ensures kept { (answer : Self.Answer) → result ≡ Ok answer → is_ended self.old self.new }
        ensures failures { MatchResult result
            (λ _. HasNotFailed output.old output.new)
            (λ what. HasFailedIf (rules.is_of_writer what) output.old output.new) };
}

/// Takes all lines of the input in turn, and ends after the last. A line is taken before the next
/// one is read. The task is left as its calls left it.
pub fn answer_lines<T: LineTask, R: Read, W: Write>(
    task: &mut T,
    input: &mut Counted<R>,
    output: &mut Counted<W>,
) -> Result<T::Answer, Stopped<Cause<T::Fault>>>
    requires { (start : T.State) × T.is_at task.old start }
    ensures answered { (start : T.State) → T.is_at task.old start → ForSome (R.remaining (device_of input.old)) (λ octets.
        Answers T.rules start octets (R.remaining (device_of input.new))
        (W.contents (device_of output.old)) (W.contents (device_of output.new)) result) }
    // Of any reader only so much is read, whatever the writer is.
    ensures bounded { GivesWithin R.remaining (input_limit T.rules.lines_limit) input.old input.new }
    ensures failures { MatchResult result
        (λ _. HasNotFailed input.old input.new × HasNotFailed output.old output.new)
        (λ stop. FailedAt T.rules stop.what input.old input.new output.old output.new) }
{
    answer_lines_behind(&[], task, input, output)
}

/// Takes all lines of octets that were read already, at most 4096 and none an LF, and of the input
/// behind them, in turn, and ends after the last. A line is taken before the next one is read. The
/// task is left as its calls left it.
pub fn answer_lines_behind<T: LineTask, R: Read, W: Write>(
    start: &[u8],
    task: &mut T,
    input: &mut Counted<R>,
    output: &mut Counted<W>,
) -> Result<T::Answer, Stopped<Cause<T::Fault>>>
    requires stands { (state : T.State) × T.is_at task.old state }
    requires unended { All (λ x. x ≢ 10) start.now }
    requires within { length start.now ≤ line_limit }
    requires allowed { 0 < length start.now → 0 < T.rules.lines_limit }
    ensures answered { (state : T.State) → T.is_at task.old state → ForSome (R.remaining (device_of input.old)) (λ octets.
        Answers T.rules state (start.now ++ octets) (R.remaining (device_of input.new))
        (W.contents (device_of output.old)) (W.contents (device_of output.new)) result) }
    ensures left { (state : T.State) → T.is_at task.old state → ForSome (R.remaining (device_of input.old)) (λ octets.
        LeavesTask T.rules T.is_at T.is_left T.is_ended state (start.now ++ octets) task.new result) }
    // Of any reader only so much is read, whatever the writer is.
    ensures bounded { GivesWithin R.remaining (input_limit T.rules.lines_limit) input.old input.new }
    ensures failures { MatchResult result
        (λ _. HasNotFailed input.old input.new × HasNotFailed output.old output.new)
        (λ stop. FailedAt T.rules stop.what input.old input.new output.old output.new) }
{
    let mut lines = Lines::new(start, T::lines_limit());
    loop {
        match lines.read_next(input) {
            Ok(true) => {
                if let Err(what) = task.take(lines.line(), output) {
                    return Err(Stopped {
                        line: lines.count(),
                        what: Cause::Task(what),
                    });
                }
            }
            Ok(false) => break,
            Err(stop) => {
                task.leave(lines.line());
                return Err(stop.into());
            }
        }
    }
    match task.finish(lines.count(), output) {
        Ok(answer) => Ok(answer),
        Err(what) => Err(Stopped {
            line: lines.count() + 1,
            what: Cause::Task(what),
        }),
    }
}

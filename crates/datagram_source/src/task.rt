//! What is done with the datagrams of an input.
ghost use Rattle.std.specs.Prelude.{◌≡◌, ◌≤◌, List, ℕ, Err, length, true, MatchResult};
ghost use Rattle.std.specs.Io.KnownBytes.{Appends};
ghost use Rattle.text_lines.specs.Counted.{device_of, HasNotFailed, HasFailedIf};
ghost use Rattle.text_lines.specs.Fault.{is_write};
ghost use Rattle.text_lines.specs.Task.{WentOut};
ghost use Rattle.event_codec.specs.Reading.{IsReading};
ghost use Rattle.datagram_source.specs.Said.{reading_of};
ghost use Rattle.datagram_source.specs.Datagram.{datagram_of, octets_limit};
ghost use Rattle.datagram_source.specs.Rules.{DatagramRules, is_field};

use crate::datagram::Datagram;
use crate::lines::LineForm;
use capture_file::InterfaceName;
use std::io::Write;
use text_lines::{Counted, LineFault};

/// What is done with the datagrams of an input, one after the other, and after the last. What is told on the way to a person goes to
/// `errors`: what can't be written there is lost.
pub trait DatagramTask {
    /// Why a datagram isn't taken, or the end has no answer.
    type Fault;

    /// What a task is seen as.
    ghost State: { Type 0 };

    ghost rules: { DatagramRules State Self.Fault };

    /// The states that a task may be seen in.
    ghost is_at: { Self → State → Type 0 };

    /// The name of the subcommand that does this, which is told where the input is compressed.
    fn subcommand() -> &'static str;

    /// Which of the two forms lines have.
    fn line_form() -> LineForm
        ensures { result ≡ rules.line_form };

    /// What a fault of a line is among those of the task. Of the three `Field` alone is one that leaves the task in its state.
    fn fault_of(fault: LineFault) -> Self::Fault
        ensures value { result ≡ rules.fault_of fault }
        ensures writer { rules.is_of_writer result ≡ is_write fault }
        ensures kept { rules.keeps result ≡ is_field fault };

    /// The interface of a capture of which packets are asked for, if one is; packets of others are counted and not looked at.
    fn asked(&self) -> Option<InterfaceName>
        ensures { (state : State) → is_at self.now state → result ≡ rules.asked state };

    /// Takes one more datagram, whose octets, 2,048 at the most, say what is said of them.
    fn take<W: Write, E: Write>(
        &mut self,
        datagram: &Datagram<'_>,
        output: &mut Counted<W>,
        errors: &mut E,
    ) -> Result<(), Self::Fault>
        requires stands { (state : State) × is_at self.old state }
        requires short { length datagram.now.octets.now ≤ octets_limit }
        requires read { IsReading datagram.now.octets.now (reading_of datagram.now.said) }
        ensures taken { (state : State) → is_at self.old state →
            let before = W.contents (device_of output.old) in
            let after = W.contents (device_of output.new) in
            MatchResult result
            (λ _. (later : State) × (written : List ℕ) × is_at self.new later
            × rules.Takes (datagram_of datagram.now) state later written × Appends before after written)
            (λ what. (written : List ℕ) × rules.Stops (datagram_of datagram.now) state what written
            × WentOut (rules.is_of_writer what) (Appends before after written)) }
        ensures kept { (what : Self.Fault) → result ≡ Err what → rules.keeps what ≡ true
            → (state : State) → is_at self.old state → is_at self.new state }
        ensures failures { MatchResult result
            (λ _. HasNotFailed output.old output.new)
            (λ what. HasFailedIf (rules.is_of_writer what) output.old output.new) };

    /// Ends after the last datagram.
    fn finish<W: Write, E: Write>(
        &mut self,
        output: &mut Counted<W>,
        errors: &mut E,
    ) -> Result<(), Self::Fault>
        requires { (state : State) × is_at self.old state }
        ensures ended { (state : State) → is_at self.old state →
            let before = W.contents (device_of output.old) in
            let after = W.contents (device_of output.new) in
            MatchResult result
            (λ _. (later : State) × (written : List ℕ) × is_at self.new later
            × rules.Ends state later written × Appends before after written)
            (λ what. (written : List ℕ) × rules.StopsAtEnd state what written
            × WentOut (rules.is_of_writer what) (Appends before after written)) }
        ensures kept { (what : Self.Fault) → result ≡ Err what → rules.keeps what ≡ true
            → (state : State) → is_at self.old state → is_at self.new state }
        ensures failures { MatchResult result
            (λ _. HasNotFailed output.old output.new)
            (λ what. HasFailedIf (rules.is_of_writer what) output.old output.new) };
}

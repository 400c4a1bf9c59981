//! The one loop over the packets of a capture.
ghost use Rattle.std.specs.Prelude.{◌≡◌, ◌≤◌, ◌+◌, List, ℕ, ◌++◌, length, Ok, Err, MatchResult, IfOk, ⊤};
ghost use Rattle.std.specs.Option.{ForSome};
ghost use Rattle.std.specs.Io.KnownBytes.{Appends};
ghost use Rattle.text_lines.specs.Counted.{device_of, HasNotFailed, HasFailedIf};
ghost use Rattle.text_lines.specs.Task.{WentOut};
ghost use Rattle.capture_file.specs.Task.{PacketRules, Answers, FailedAt, IsLeftAt, LeavesTask, is_of_writer};
ghost use Rattle.capture_file.specs.Inner.Reading.{packet_in};
ghost use Rattle.capture_file.specs.Packet.{packet_of};
ghost use Rattle.capture_file.specs.Inner.Taking.{IsBehind, TakesPart, StopsTaking};

use crate::fault::{CaptureCause, CaptureStop};
use crate::front::Front;
use crate::packet::Packet;
use crate::part::Part;
use crate::progress::Progress;
use crate::reader::{Form, read_part};
use std::alloc::Global;
use std::io::{Read, Write};
use text_lines::Counted;

/// What is done with the packets of a capture, one after the other, and after the last.
pub trait PacketTask {
    /// What the end answers.
    type Answer;
    /// Why a packet isn't taken, or the end has no answer.
    type Fault;

    /// What a task is seen as.
    ghost State: { Type 0 };

    ghost rules: { PacketRules State Self.Answer Self.Fault };

    /// The states that a task may be seen in.
    ghost is_at: { Self → State → Type 0 };

    /// What a task is after this fault of a packet, or of the end, by what it was before.
    ghost is_left: { Self → Self → Self.Fault → Type 0 } = { λ _ _ _. ⊤ };

    /// What a task is once the end answered, by what it was before.
    ghost is_ended: { Self → Self → Type 0 } = { λ _ _. ⊤ };

    /// Takes one more packet, of this number, counted from 1.
    fn take<W: Write>(
        &mut self,
        number: u64,
        packet: &Packet<'_>,
        output: &mut Counted<W>,
    ) -> Result<(), Self::Fault>
        requires stands { (state : State) × is_at self.old state }
        ensures taken { (state : State) → is_at self.old state →
            let before = W.contents (device_of output.old) in
            let after = W.contents (device_of output.new) in
            MatchResult result
            (λ _. (later : State) × (written : List ℕ) × is_at self.new later
            × rules.Takes number (packet_of packet.now) state later written × Appends before after written)
            (λ what. (written : List ℕ) × rules.Stops number (packet_of packet.now) state what written
            × WentOut (rules.is_of_writer what) (Appends before after written)) }
        ensures left { (what : Self.Fault) → result ≡ Err what → is_left self.old self.new what }
        ensures failures { MatchResult result
            (λ _. HasNotFailed output.old output.new)
            (λ what. HasFailedIf (rules.is_of_writer what) output.old output.new) };

    /// Ends after the last of so many packets.
    fn finish<W: Write>(
        &mut self,
        packets: u64,
        output: &mut Counted<W>,
    ) -> Result<Self::Answer, Self::Fault>
        requires { (state : State) × is_at self.old state }
        ensures ended { (state : State) → is_at self.old state →
            let before = W.contents (device_of output.old) in
            let after = W.contents (device_of output.new) in
            MatchResult result
            (λ answer. (written : List ℕ) × rules.Ends packets state answer written × Appends before after written)
            (λ what. (written : List ℕ) × rules.StopsAtEnd state what written
            × WentOut (rules.is_of_writer what) (Appends before after written)) }
        ensures left { (what : Self.Fault) → result ≡ Err what → is_left self.old self.new what }
        ensures kept { (answer : Self.Answer) → result ≡ Ok answer → is_ended self.old self.new }
        ensures failures { MatchResult result
            (λ _. HasNotFailed output.old output.new)
            (λ what. HasFailedIf (rules.is_of_writer what) output.old output.new) };
}

/// Takes the packet that a part is, if it is one. What can't be counted is refused as want of memory.
fn take_part<T: PacketTask, W: Write>(
    task: &mut T,
    part: &Part<'_>,
    progress: Progress,
    output: &mut Counted<W>,
) -> Result<Progress, CaptureStop<T::Fault>>
    requires stands { (state : T.State) × T.is_at task.old state }
    ensures behind { IfOk result (IsBehind progress part.now.size (packet_in part.now)) }
    ensures taken { (state : T.State) → T.is_at task.old state →
        let before = W.contents (device_of output.old) in
        let after = W.contents (device_of output.new) in
        MatchResult result
        (λ _. (later : T.State) × (written : List ℕ) × T.is_at task.new later
        × TakesPart T.rules (progress.packets + 1) (packet_in part.now) state later written × Appends before after written)
        (λ stop. StopsTaking T.rules progress (packet_in part.now) state before after stop) }
    ensures left { (state : T.State) → T.is_at task.old state → MatchResult result
        (λ _. ⊤)
        (λ stop. IsLeftAt T.is_at T.is_left state task.new stop.what) }
    ensures failures { MatchResult result
        (λ _. HasNotFailed output.old output.new)
        (λ stop. HasFailedIf (is_of_writer T.rules stop.what) output.old output.new) }
{
    let Some(behind) = progress.behind(part) else {
        return Err(progress.stop(CaptureCause::Memory));
    };
    if let Some(packet) = &part.packet {
        if let Err(fault) = task.take(behind.packets, packet, output) {
            return Err(progress.stop(CaptureCause::Task(fault)));
        }
    }
    Ok(behind)
}

/// Takes all packets of the capture that the input is, in turn, and ends after the last. A packet is taken before an octet behind it
/// is read. The task is left as its calls left it.
pub fn answer_packets<T: PacketTask, R: Read, W: Write>(
    alloc: Global,
    task: &mut T,
    input: &mut Counted<R>,
    output: &mut Counted<W>,
) -> Result<T::Answer, CaptureStop<T::Fault>>
    requires { (start : T.State) × T.is_at task.old start }
    ensures answered { (start : T.State) → T.is_at task.old start → ForSome (R.remaining (device_of input.old)) (λ octets.
        Answers T.rules start octets (R.remaining (device_of input.new))
        (W.contents (device_of output.old)) (W.contents (device_of output.new)) result) }
    ensures failures { MatchResult result
        (λ _. HasNotFailed input.old input.new × HasNotFailed output.old output.new)
        (λ stop. FailedAt T.rules stop.what input.old input.new output.old output.new) }
{
    answer_packets_behind(alloc, &[], task, input, output)
}

/// The same, where the first octets of the capture, at most four, were read before: by them one tells a capture from other input, as
/// `Beginning` does. Octets are counted from the first of these.
pub fn answer_packets_behind<T: PacketTask, R: Read, W: Write>(
    alloc: Global,
    start: &[u8],
    task: &mut T,
    input: &mut Counted<R>,
    output: &mut Counted<W>,
) -> Result<T::Answer, CaptureStop<T::Fault>>
    requires stands { (state : T.State) × T.is_at task.old state }
    requires most { length start.now ≤ 4 }
    ensures answered { (state : T.State) → T.is_at task.old state → ForSome (R.remaining (device_of input.old)) (λ octets.
        Answers T.rules state (start.now ++ octets) (R.remaining (device_of input.new))
        (W.contents (device_of output.old)) (W.contents (device_of output.new)) result) }
    ensures left { (state : T.State) → T.is_at task.old state → ForSome (R.remaining (device_of input.old)) (λ octets.
        LeavesTask T.rules T.is_at T.is_left T.is_ended state (start.now ++ octets) task.new result) }
    ensures failures { MatchResult result
        (λ _. HasNotFailed input.old input.new × HasNotFailed output.old output.new)
        (λ stop. FailedAt T.rules stop.what input.old input.new output.old output.new) }
{
    let mut progress = Progress::START;
    let Ok(mut front) = Front::behind(alloc, start) else {
        return Err(progress.stop(CaptureCause::Memory));
    };
    let mut form = Form::Start;
    loop {
        match read_part(alloc, &mut form, &mut front, input) {
            Ok(Some(part)) => progress = take_part(task, &part, progress, output)?,
            Ok(None) => break,
            Err(stop) => return Err(progress.stop_part(stop)),
        }
    }
    match task.finish(progress.packets, output) {
        Ok(answer) => Ok(answer),
        Err(fault) => Err(progress.stop(CaptureCause::Task(fault))),
    }
}

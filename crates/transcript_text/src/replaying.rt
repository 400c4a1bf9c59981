//! A schedule that is replayed line by line.
ghost use Rattle.std.specs.Prelude.{◌≡◌, ℕ, List, [], ◌∷◌, ◌++◌, MatchResult, Ok, None};
ghost use Rattle.std.specs.Io.KnownBytes.{Appends};
ghost use Rattle.network_model.specs.Clash.{first_clash};
ghost use Rattle.world_model.specs.State.{new_state, after, State};
ghost use Rattle.schedule_lines.specs.Written.{node_data, event_data, line_text};
ghost use Rattle.schedule_lines.specs.declared.reading.schedule.Line.TheVariants as entries;
ghost use Rattle.transcript_text.specs.Fault.{FailedWith};
ghost use Rattle.schedule_reading.specs.Fault.{is_write};
ghost use Rattle.schedule_reading.specs.Schedule.{FaultsAtEnd};
ghost use Rattle.transcript_text.specs.Replay.{nodes_text, IsEventLine, ReplaysAnswer, NodesGoOut};
ghost use Rattle.transcript_text.specs.Replay.{Follows, replay_rules};
ghost use Rattle.transcript_text.specs.Inner.Replaying.{LeavesUnwritten};
ghost use Rattle.transcript_text.specs.Inner.Replaying.{state_of, IsReplaying, WritesNone, StopsEvent, StopsAt};
ghost use Rattle.text_lines.specs.Counted.{device_of, HasNotFailed, HasFailedIf};
ghost use Rattle.text_lines.specs.Lines.{input_limit, lines_limit, GivesWithin};
ghost use Rattle.text_lines.specs.Task.{WentOut};

use crate::fault::Fault;
use line_writing::{push_event, push_node};
use network_model::{Event, NodeSpec, Nodes};
use schedule_lines::Line;
use schedule_reading::{LineReader, Stage, TaskFault};
use std::alloc::Global;
use std::io::{Read, Write};
use text_lines::{Counted, LINES_LIMIT, LineTask, answer_lines, write_octets};
use trace_model::TraceLine;
use world_model::World;

/// Replays each line of a schedule, in a world that begins with the first event.
#[derive(Drop)]
struct Replaying {
    alloc: Global,
    reader: LineReader,
    stage: Stage<World>,
    /// The line that is written, in a buffer that serves for each.
    text: Vec<u8>,
}

impl LineTask for Replaying {
    type Answer = u64;

    type Fault = TaskFault;

    ghost State = { State };

    ghost rules = { replay_rules };

    ghost is_at = { λ task state. (state_of task.stage ≡ state) × IsReplaying task.stage };

    fn lines_limit() -> u64 {
        LINES_LIMIT
    }

    fn take<W: Write>(&mut self, line: &[u8], output: &mut Counted<W>) -> Result<(), TaskFault> {
        match self.reader.read_entry(line)? {
            Line::Node(node) => self.stage.push(node),
            Line::Event(event) => self.happen(&event, output),
        }
    }

    /// How many events there were.
    fn finish<W: Write>(&mut self, _lines: u64, output: &mut Counted<W>) -> Result<u64, TaskFault> {
        match &self.stage {
            Stage::Nodes(nodes) => {
                let world = begin(self.alloc, nodes.as_slice(), &mut self.text, output)?;
                Ok(world.len())
            }
            Stage::Events(world) => Ok(world.len()),
        }
    }
}

impl Replaying {
    /// Lets an event happen, and writes its line.
    fn happen<W: Write>(&mut self, event: &Event, output: &mut Counted<W>) -> Result<(), TaskFault>
        requires { IsReplaying self.old.stage }
        ensures happens { let state = state_of self.old.stage in
            let before = W.contents (device_of output.old) in
            let after = W.contents (device_of output.new) in
            MatchResult result
            (λ _. (written : List ℕ) × IsReplaying self.new.stage
            × Follows (entries.Event event.now) state (state_of self.new.stage) written × Appends before after written)
            (λ fault. StopsAt fault state (entries.Event event.now) before after) }
        ensures failures { MatchResult result
            (λ _. HasNotFailed output.old output.new)
            (λ fault. HasFailedIf (is_write fault) output.old output.new) }
    {
        match &mut self.stage {
            Stage::Nodes(_) => self.happen_first(event, output),
            Stage::Events(world) => happen(world, event, &mut self.text, output),
        }
    }

    /// The same of the first event, before which the nodes' lines are written. It stands apart since room for a whole world would
    /// else be cleared for each line.
    #[inline(never)]
    fn happen_first<W: Write>(
        &mut self,
        event: &Event,
        output: &mut Counted<W>,
    ) -> Result<(), TaskFault>
        requires first { (state_of self.old.stage).run ≡ [] }
        requires replaying { IsReplaying self.old.stage }
        ensures happens { let state = state_of self.old.stage in
            let before = W.contents (device_of output.old) in
            let after = W.contents (device_of output.new) in
            MatchResult result
            (λ _. (written : List ℕ) × IsReplaying self.new.stage
            × Follows (entries.Event event.now) state (state_of self.new.stage) written × Appends before after written)
            (λ fault. StopsAt fault state (entries.Event event.now) before after) }
        ensures failures { MatchResult result
            (λ _. HasNotFailed output.old output.new)
            (λ fault. HasFailedIf (is_write fault) output.old output.new) }
    {
        let Stage::Nodes(nodes) = &self.stage else {
            unreachable!()
        };
        let mut world = begin(self.alloc, nodes.as_slice(), &mut self.text, output)?;
        happen(&mut world, event, &mut self.text, output)?;
        self.stage = Stage::Events(world);
        Ok(())
    }
}

/// Ends a line by LF, and writes it, in one write.
fn write_line<W: Write>(text: &mut Vec<u8>, output: &mut Counted<W>) -> Result<(), TaskFault>
    ensures written { let before = W.contents (device_of output.old) in
        let after = W.contents (device_of output.new) in
        MatchResult result
        (λ _. Appends before after (text.old.items ++ 10 ∷ []))
        (λ fault. LeavesUnwritten fault before after) }
    ensures failures { MatchResult result
        (λ _. HasNotFailed output.old output.new)
        (λ fault. HasFailedIf (is_write fault) output.old output.new) }
{
    text.push(b'\n')?;
    write_octets(text.as_slice(), output)
}

/// Writes the line of a node.
fn write_node<W: Write>(
    node: &NodeSpec,
    text: &mut Vec<u8>,
    output: &mut Counted<W>,
) -> Result<(), TaskFault>
    ensures written { let before = W.contents (device_of output.old) in
        let after = W.contents (device_of output.new) in
        MatchResult result
        (λ _. Appends before after (line_text (node_data node.now)))
        (λ fault. LeavesUnwritten fault before after) }
    ensures failures { MatchResult result
        (λ _. HasNotFailed output.old output.new)
        (λ fault. HasFailedIf (is_write fault) output.old output.new) }
{
    text.clear();
    push_node(text, node)?;
    write_line(text, output)
}

/// Writes the line of the event of this number.
fn write_event<W: Write>(
    number: u64,
    line: &TraceLine,
    text: &mut Vec<u8>,
    output: &mut Counted<W>,
) -> Result<(), TaskFault>
    ensures written { let before = W.contents (device_of output.old) in
        let after = W.contents (device_of output.new) in
        MatchResult result
        (λ _. Appends before after (line_text (event_data number line.now)))
        (λ fault. LeavesUnwritten fault before after) }
    ensures failures { MatchResult result
        (λ _. HasNotFailed output.old output.new)
        (λ fault. HasFailedIf (is_write fault) output.old output.new) }
{
    text.clear();
    push_event(text, number, line)?;
    write_line(text, output)
}

/// Begins a world of these nodes, and writes their lines.
fn begin<W: Write>(
    alloc: Global,
    nodes: &[NodeSpec],
    text: &mut Vec<u8>,
    output: &mut Counted<W>,
) -> Result<World, TaskFault>
    ensures begun { let before = W.contents (device_of output.old) in
        let after = W.contents (device_of output.new) in
        MatchResult result
        (λ world. (world ≡ new_state nodes.now) × (first_clash nodes.now ≡ None)
        × Appends before after (nodes_text nodes.now))
        (λ fault. FaultsAtEnd fault nodes.now
        × ((written : List ℕ) × NodesGoOut fault nodes.now written
        × WentOut (is_write fault) (Appends before after written))) }
    ensures failures { MatchResult result
        (λ _. HasNotFailed output.old output.new)
        (λ fault. HasFailedIf (is_write fault) output.old output.new) }
{
    let network = Nodes::new(alloc, nodes)?;
    let world = World::new(alloc, network)?;
    for node in nodes {
        write_node(node, text, output)?;
    }
    Ok(world)
}

/// Lets an event happen in a world, and writes its line.
fn happen<W: Write>(
    world: &mut World,
    event: &Event,
    text: &mut Vec<u8>,
    output: &mut Counted<W>,
) -> Result<(), TaskFault>
    ensures happens { let before = W.contents (device_of output.old) in
        let after_it = W.contents (device_of output.new) in
        MatchResult result
        (λ _. (world.new ≡ after event.now world.old)
        × ((line : List ℕ) × IsEventLine world.old.network world.old.run event.now line × Appends before after_it line))
        (λ fault. StopsEvent fault world.old event.now × WritesNone fault before after_it) }
    ensures failures { MatchResult result
        (λ _. HasNotFailed output.old output.new)
        (λ fault. HasFailedIf (is_write fault) output.old output.new) }
{
    let stepped = world.step(event)?;
    let line = TraceLine::of(event, &stepped, world);
    write_event(stepped.tag, &line, text, output)
}

/// Replays a schedule: lines of nodes and then of events, each a JSON object. The nodes' lines are
/// written before the first event happens, or at the end of the input where there is none; then,
/// before the next line is read, one line for each event, with what came of it. Answers how many
/// events there were.
///
/// The faults are 801 to 804; 805 for a line that is no JSON; 806 for a line that is neither a node
/// nor an event, or a node after an event; 807 where the nodes are no network, or an event can't
/// happen in it; and 808. What the nodes are refused for stands at the line of the first event, or
/// after the last line where there is none. The lines before a fault were answered then.
pub fn replay<R: Read, W: Write>(
    alloc: Global,
    input: &mut Counted<R>,
    output: &mut Counted<W>,
) -> Result<u64, Fault>
    ensures replayed { ReplaysAnswer R.remaining W.contents result input.old input.new output.old output.new }
    // Of any reader only so much is read, whatever the writer is.
    ensures bounded { GivesWithin R.remaining (input_limit lines_limit) input.old input.new }
    ensures failures { FailedWith result input.old input.new output.old output.new }
{
    let mut task = Replaying {
        alloc,
        reader: LineReader::new(alloc),
        stage: Stage::new(alloc),
        text: Vec::new(alloc),
    };
    Ok(answer_lines(&mut task, input, output)?)
}

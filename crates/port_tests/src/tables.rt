ghost use Rattle.std.specs.Prelude.{◌≤◌};

use crate::values::{MASTER, MASTER_PORT, SLAVE_PORT};
use master_port::MasterPort;
use pairing::{ListTable, PairTable, RingTable};
use ptp_units::{ScaledTime, Seq};
use slave_port::{Heard, HeldFollow, HeldRequest, HeldSync, SlavePort};
use std::process::Abort;
use std::test::Fail;

/// Runs the calls over a type of table, with 1, 2, 16 and 256 places.
macro_rules! calls_of {
    ($table:ident, $rt:expr) => {
        calls::<$table<u32, 1>>($rt);
        calls::<$table<u32, 2>>($rt);
        calls::<$table<u32, 16>>($rt);
        calls::<$table<u32, 256>>($rt);
    };
}

#[test]
fn calls_act_on_the_list(rt: HostRuntime) {
    calls_of!(ListTable, &rt);
    calls_of!(RingTable, &rt);
}

/// A number, and how many times the capacity is added to it.
type Number = (u16, u16);

/// What happens to a table.
#[derive(Clone, Copy)]
enum Step {
    Push(Number, u32),
    Set(Number, u32),
    Find(Number),
    Tick,
    Clear,
    /// Each number below the capacity is pushed, with ten times itself as its value.
    Fill,
}

/// What it answers.
#[derive(Clone, Copy, Debug, PartialEq, Eq)]
enum Answer {
    Done,
    Found(u32),
    /// Where two values fit.
    FoundOfTwo(u32),
    Absent,
}

/// A title, and what a table answers to each step.
type Row = (&'static str, &'static [(Step, Answer)]);

const ROWS: [Row; 4] = [
    (
        "finds the newest",
        &[
            (Step::Find((9, 0)), Answer::Absent),
            (Step::Push((9, 0), 1), Answer::Done),
            (Step::Push((9, 0), 2), Answer::Done),
            (Step::Find((9, 0)), Answer::Found(2)),
            (Step::Push((5, 0), 3), Answer::Done),
            (Step::Find((9, 0)), Answer::FoundOfTwo(2)),
            (Step::Set((5, 0), 4), Answer::Done),
            (Step::Find((5, 0)), Answer::Found(4)),
            (Step::Find((9, 0)), Answer::FoundOfTwo(2)),
            (Step::Set((6, 0), 5), Answer::Absent),
            (Step::Find((6, 0)), Answer::Absent),
            (Step::Find((5, 0)), Answer::Found(4)),
        ],
    ),
    (
        "tells numbers apart that differ by a multiple of the capacity",
        &[
            (Step::Push((1, 0), 1), Answer::Done),
            (Step::Push((1, 1), 2), Answer::Done),
            (Step::Push((1, 0), 3), Answer::Done),
            (Step::Find((1, 0)), Answer::Found(3)),
            (Step::Find((1, 1)), Answer::FoundOfTwo(2)),
            (Step::Find((1, 2)), Answer::Absent),
            (Step::Tick, Answer::Done),
            (Step::Push((1, 2), 4), Answer::Done),
            (Step::Tick, Answer::Done),
            (Step::Find((1, 0)), Answer::Absent),
            (Step::Find((1, 1)), Answer::Absent),
            (Step::Find((1, 2)), Answer::Found(4)),
        ],
    ),
    (
        "drops the marked",
        &[
            (Step::Push((1, 0), 1), Answer::Done),
            (Step::Tick, Answer::Done),
            (Step::Find((1, 0)), Answer::Found(1)),
            (Step::Push((2, 0), 2), Answer::Done),
            (Step::Tick, Answer::Done),
            (Step::Find((1, 0)), Answer::Absent),
            (Step::Find((2, 0)), Answer::Found(2)),
            (Step::Tick, Answer::Done),
            (Step::Find((2, 0)), Answer::Absent),
        ],
    ),
    (
        "clears",
        &[
            (Step::Fill, Answer::Done),
            (Step::Tick, Answer::Done),
            (Step::Clear, Answer::Done),
            (Step::Find((0, 0)), Answer::Absent),
            (Step::Push((3, 0), 3), Answer::Done),
            (Step::Tick, Answer::Done),
            (Step::Find((3, 0)), Answer::Found(3)),
        ],
    ),
];

/// In a table of two, numbers 1, 3 and 5 fall into one bucket.
const ONE_BUCKET: Row = (
    "a dropped value leaves its bucket",
    &[
        (Step::Push((1, 0), 10), Answer::Done),
        (Step::Push((3, 0), 20), Answer::Done),
        (Step::Push((1, 0), 30), Answer::Done),
        (Step::Find((1, 0)), Answer::Found(30)),
        (Step::Find((3, 0)), Answer::Found(20)),
        (Step::Find((5, 0)), Answer::Absent),
        (Step::Tick, Answer::Done),
        (Step::Push((5, 0), 40), Answer::Done),
        (Step::Tick, Answer::Done),
        (Step::Find((1, 0)), Answer::Absent),
        (Step::Find((3, 0)), Answer::Absent),
        (Step::Find((5, 0)), Answer::Found(40)),
    ],
);

#[test]
fn a_dropped_value_leaves_its_bucket(rt: HostRuntime) {
    assert_answers::<ListTable<u32, 2>>(&rt, ONE_BUCKET);
    assert_answers::<RingTable<u32, 2>>(&rt, ONE_BUCKET);
}

fn number_of<T: PairTable<u32>>((number, times): Number) -> Seq {
    let capacity = u16::try_from(T::CAPACITY).unwrap_or(u16::MAX);
    Seq(number.wrapping_add(times.wrapping_mul(capacity)))
}

/// Pushes each number below the capacity, with ten times itself as its value.
fn fill<T: PairTable<u32>>(table: &mut T) {
    for number in 0..u16::try_from(T::CAPACITY).unwrap_or(u16::MAX) {
        table.push(Seq(number), u32::from(number).wrapping_mul(10));
    }
}

fn answer_to<T: PairTable<u32>>(table: &mut T, step: Step) -> Answer {
    match step {
        Step::Push(number, value) => table.push(number_of::<T>(number), value),
        Step::Set(number, value) => {
            if !table.set(number_of::<T>(number), value) {
                return Answer::Absent;
            }
        }
        Step::Find(number) => {
            return match table.find(number_of::<T>(number)) {
                Some(value) => Answer::Found(*value),
                None => Answer::Absent,
            };
        }
        Step::Tick => table.tick(),
        Step::Clear => table.clear(),
        Step::Fill => fill(table),
    }
    Answer::Done
}

/// The answer of a table of one, or of a larger one.
fn expected_of(answer: Answer, capacity: usize) -> Answer {
    match answer {
        Answer::FoundOfTwo(_) if capacity == 1 => Answer::Absent,
        Answer::FoundOfTwo(value) => Answer::Found(value),
        other => other,
    }
}

/// A table answers each step of the row as it says.
fn assert_answers<T: PairTable<u32> + Drop>(rt: &impl Abort, row: Row)
    requires some_fit { 1 ≤ T.CAPACITY }
    requires few_fit { T.CAPACITY ≤ 256 }
{
    let (title, steps) = row;
    let mut table = T::empty();
    for (step, answer) in steps {
        let expected = expected_of(*answer, T::CAPACITY);
        assert_eq!(rt; answer_to(&mut table, *step), expected, "{title}");
    }
}

/// A slave with as many places as there can be.
type LargeSlave = SlavePort<
    RingTable<HeldSync, 256>,
    RingTable<HeldFollow, 256>,
    RingTable<HeldRequest, 256>,
>;

/// The slave hears the master's next Sync; the Follow_Up that belongs to it.
fn heard_sync(
    rt: &impl Abort,
    master: &mut MasterPort,
    slave: &mut LargeSlave,
) -> Result<[u8; 44], Fail> {
    let (sync, number) = master.next_sync();
    assert_eq!(rt; slave.sync(&sync, ScaledTime::default(), 0), Heard::Held);
    Ok(master.sync_left(number, ScaledTime::default())?)
}

/// Of 257 Syncs the first is held no longer, and the second still is.
#[test]
fn a_slave_holds_the_latest_256(rt: HostRuntime) -> Result<(), Fail> {
    let mut master = MasterPort::new(MASTER_PORT, Seq(0));
    let mut slave = LargeSlave::new(SLAVE_PORT, Seq(0));
    slave.set_master(MASTER);
    let first = heard_sync(&rt, &mut master, &mut slave)?;
    let second = heard_sync(&rt, &mut master, &mut slave)?;
    for _ in 0..255 {
        heard_sync(&rt, &mut master, &mut slave)?;
    }
    assert_eq!(rt; slave.general(&first, 0), Heard::Held);
    assert_eq!(rt; slave.general(&second, 0), Heard::Completed);
    Ok(())
}

fn calls<T: PairTable<u32> + Drop>(rt: &impl Abort)
    requires some_fit { 1 ≤ T.CAPACITY }
    requires few_fit { T.CAPACITY ≤ 256 }
{
    for row in &ROWS {
        assert_answers::<T>(rt, *row);
    }
    drops_the_oldest::<T>(rt);
}

/// All are marked when one more pushes the oldest out, so that the next tick leaves just that one.
fn drops_the_oldest<T: PairTable<u32> + Drop>(rt: &impl Abort)
    requires some_fit { 1 ≤ T.CAPACITY }
    requires few_fit { T.CAPACITY ≤ 256 }
{
    let capacity = T::CAPACITY as u16;
    let mut table = T::empty();
    fill(&mut table);
    table.tick();
    for number in 0..capacity {
        let value = table.find(Seq(number)).copied();
        assert_eq!(rt; value, Some(10 * u32::from(number)));
    }
    table.push(Seq(capacity), 7);
    assert_eq!(rt; table.find(Seq(0)).copied(), None);
    for number in 1..capacity {
        let value = table.find(Seq(number)).copied();
        assert_eq!(rt; value, Some(10 * u32::from(number)));
    }
    table.tick();
    for number in 0..capacity {
        assert_eq!(rt; table.find(Seq(number)).copied(), None);
    }
    assert_eq!(rt; table.find(Seq(capacity)).copied(), Some(7));
}

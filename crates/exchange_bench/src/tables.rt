ghost use Rattle.std.specs.Prelude.{◌≤◌};

use pairing::{ListTable, PairTable, RingTable};
use ptp_units::Seq;
use slave_port::HeldSync;

/// Of numbers drawn one after the other, how many were found once they were in the table that the
/// argument names, and not before. None where it names none.
pub fn found_in(table: &str, rounds: u64) -> Option<u64> {
    match table {
        "list16" => Some(found::<ListTable<HeldSync, 16>>(rounds)),
        "ring16" => Some(found::<RingTable<HeldSync, 16>>(rounds)),
        "list256" => Some(found::<ListTable<HeldSync, 256>>(rounds)),
        "ring256" => Some(found::<RingTable<HeldSync, 256>>(rounds)),
        _ => None,
    }
}

/// The table is full from its capacity on. As in a port, a number is sought before it is there, put
/// in, and sought again.
fn found<T: PairTable<HeldSync> + Drop>(rounds: u64) -> u64
    requires some_fit { 1 ≤ T.CAPACITY }
    requires few_fit { T.CAPACITY ≤ 256 }
{
    let mut table = T::empty();
    let mut count: u64 = 0;
    for round in 0..rounds {
        let number = Seq::of_count(round);
        let before = table.find(number).is_some();
        table.push(number, HeldSync::default());
        if !before && table.find(number).is_some() {
            count = count.saturating_add(1);
        }
    }
    count
}

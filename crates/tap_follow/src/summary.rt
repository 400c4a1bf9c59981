//! What is told of an input beside its crossings.
ghost use Rattle.std.specs.Prelude.{◌≡◌, IfSome, OnOk, MatchResult};
ghost use Rattle.text_lines.specs.Counted.{device_of, HasNotFailed, HasFailedIf};
ghost use Rattle.tap_sums.specs.Figures.{AreFigures};
ghost use Rattle.tap_sums.specs.Untold.{AreUntold};
ghost use Rattle.tap_sums.specs.Held.{AreSums};
ghost use Rattle.tap_choice.specs.Sides.{lacks_tap};
ghost use Rattle.tap_follow.specs.Course.{Course};
ghost use Rattle.tap_follow.specs.SoFar.{followed_so_far, crossings_so_far, open_so_far, outcomes_so_far};
ghost use Rattle.tap_follow.specs.Ending.{open_in, alone_in, unanswered_in, lost_in, IsMedianOf, IsKindEnding, IsEnding};
ghost use Rattle.tap_follow.specs.Told.{IsSummaryOf, TellsEnd, kept_in, unit_told};
ghost use Rattle.tap_follow.specs.Fault.{is_write};
ghost use Rattle.tap_follow.specs.Summed.{WritesSums};

use crate::ending::{Ending, InputUnit, KindEnding};
use crate::fault::FollowFault;
use crate::followed::Followed;
use crate::follower::Follower;
use crate::lost::Lost;
use crate::task::Taking;
use crate::told::Told;
use crate::whom::TapsLine;
use datagram_source::PacketCounts;
use statistics::Middle;
use std::alloc::Global;
use std::io;
use std::io::Write;
use tap_choice::Sides;
use tap_crossing::{Filled, Kind};
use tap_sums::{Figures, Quantity, Sums, Untold, Ways, push_sums};
use text_lines::{Counted, write_text};

/// What is told of an input beside its crossings.
#[derive(Drop)]
pub struct Summary {
    follower: Follower,
    told: Told,
    unit: InputUnit,
    /// Of a capture.
    packets: Option<PacketCounts>,
}

impl Summary {
    /// What is left of what followed and was told, and of a capture how many packets there were.
    pub(crate) fn new(taking: Taking, unit: InputUnit, packets: Option<PacketCounts>) -> Summary
        ensures follower { kept_in result ≡ taking.follower }
        ensures unit { unit_told result ≡ unit }
    {
        Summary {
            follower: taking.follower,
            told: taking.told,
            unit,
            packets,
        }
    }

    /// The names of the two taps, as far as they are known.
    pub fn taps(&self) -> Sides
        ensures { (c : Course) → IsSummaryOf c self.now → result ≡ c.sides }
    {
        self.follower.sides()
    }

    /// Whether a tap that is asked for wasn't met.
    pub fn lacks_tap(&self) -> bool
        ensures { (c : Course) → IsSummaryOf c self.now → result ≡ lacks_tap c.wanted c.sides }
    {
        self.follower.lacks_tap()
    }

    /// Tells, in lines, the taps that are asked for and weren't met, and those that were. What can't be written is lost.
    pub fn tell_lacking<E: Write>(&self, errors: &mut E) {
        let Sides {
            first,
            second,
            is_first_met,
            is_second_met,
        } = self.taps();
        for (tap, is_met, option) in [
            (first, is_first_met, "--from"),
            (second, is_second_met, "--to"),
        ] {
            match tap {
                Some(tap) if !is_met => self.told.tell_lacking(&tap, option, errors),
                _ => {}
            }
        }
    }

    /// Whose messages were followed, and between which taps, once that was known; the slave as far as it was known.
    pub fn followed(&self) -> Option<Followed>
        ensures { (c : Course) → IsSummaryOf c self.now → result ≡ followed_so_far c }
    {
        self.follower.followed()
    }

    /// How many records of a kind are open in which just these places are filled, modulo 2^64, where it was known which messages
    /// are followed: these lack a message.
    pub fn open_records(&self, kind: Kind, filled: Filled) -> Option<u64>
        ensures { (c : Course) → IsSummaryOf c self.now → result ≡ open_so_far kind filled c }
    {
        self.follower.open_records(kind, filled)
    }

    /// Of how many records of a kind nothing is told, and why.
    pub fn untold(&self, kind: Kind) -> Untold
        ensures { (c : Course) → IsSummaryOf c self.now → AreUntold (outcomes_so_far kind c) result }
    {
        self.follower.untold(kind)
    }

    /// The sums over the crossings.
    pub fn sums(&self) -> Sums
        ensures { (c : Course) → IsSummaryOf c self.now → AreSums (crossings_so_far c) result }
    {
        self.follower.sums()
    }

    /// Writes the sums over the crossings in one write, three lines.
    pub fn write_sums<W: Write>(
        &self,
        alloc: Global,
        output: &mut Counted<W>,
    ) -> Result<(), FollowFault>
        ensures written { (c : Course) → IsSummaryOf c self.now → WritesSums result c
            (W.contents (device_of output.old)) (W.contents (device_of output.new)) }
        ensures failures { MatchResult result
            (λ _. HasNotFailed output.old output.new)
            (λ fault. HasFailedIf (is_write fault) output.old output.new) }
    {
        let mut text = String::new(alloc);
        push_sums(&mut text, &self.sums())?;
        write_text(text.as_str(), output)
    }

    /// How many open records of a kind have these places filled and no other: the event message at its two taps, and the message that
    /// belongs to it at `from` and at `to`; 0 where nobody is followed.
    fn open(&self, kind: Kind, first: bool, second: bool, at_from: bool, at_to: bool) -> u64
        ensures { (c : Course) → IsSummaryOf c self.now → result ≡ open_in kind first second at_from at_to c }
    {
        let filled = Filled {
            first,
            second,
            at_from,
            at_to,
        };
        self.open_records(kind, filled).unwrap_or(0)
    }

    /// How many open records of a kind have the event message just at these taps, whatever else they have.
    fn alone(&self, kind: Kind, first: bool, second: bool) -> u64
        ensures { (c : Course) → IsSummaryOf c self.now → result ≡ alone_in kind first second c }
    {
        let none = self.open(kind, first, second, false, false);
        let at_to = self.open(kind, first, second, false, true);
        let at_from = self.open(kind, first, second, true, false);
        let both = self.open(kind, first, second, true, true);
        none.wrapping_add(at_to)
            .wrapping_add(at_from)
            .wrapping_add(both)
    }

    /// How many open records of a kind have the event message at both taps.
    fn unanswered(&self, kind: Kind) -> u64
        ensures { (c : Course) → IsSummaryOf c self.now → result ≡ unanswered_in kind c }
    {
        let none = self.open(kind, true, true, false, false);
        let at_to = self.open(kind, true, true, false, true);
        let at_from = self.open(kind, true, true, true, false);
        none.wrapping_add(at_to).wrapping_add(at_from)
    }

    /// How many messages of a kind were lost.
    fn lost(&self, kind: Kind) -> Lost
        ensures { (c : Course) → IsSummaryOf c self.now → result ≡ lost_in kind c }
    {
        Lost {
            at_first: self.alone(kind, true, false),
            at_second: self.alone(kind, false, true),
            unanswered: self.unanswered(kind),
        }
    }

    /// What is told of the messages of a kind, by the figures of the crossings.
    fn kind_ending(&self, kind: Kind, figures: &Figures) -> KindEnding
        ensures { (c : Course) → IsSummaryOf c self.now → AreFigures (crossings_so_far c) figures.now → IsKindEnding kind c result }
    {
        KindEnding {
            statistics: self.sums().statistics(kind),
            taken: median_of(figures, kind, Quantity::Taken),
            corrected: median_of(figures, kind, Quantity::Corrected),
            rest: median_of(figures, kind, Quantity::Rest),
            lost: self.lost(kind),
            untold: self.untold(kind),
        }
    }

    /// What is told at the end, where it is known whose messages are followed.
    pub fn ending(&self) -> Option<Ending>
        ensures ending { (c : Course) → IsSummaryOf c self.now → IsEnding c result }
        ensures unit { IfSome result (λ ending. ending.unit ≡ unit_told self.now) }
    {
        let followed = self.followed()?;
        let figures = self.follower.figures()?;
        let ways = Ways::new(&self.sums(), figures);
        Some(Ending {
            unit: self.unit,
            from: followed.from_name,
            to: followed.to_name,
            is_slave_known: followed.watched.slave.is_some(),
            syncs: self.kind_ending(Kind::Sync, figures),
            requests: self.kind_ending(Kind::DelayReq, figures),
            rate: ways.told_rate(),
            asymmetry: ways.told_asymmetry(),
            mean_rest: ways.told_mean_rest(),
            changed: figures.changed,
            bewares: ways.bewares(),
        })
    }

    /// Tells the summary, in lines, but for what was told before: of a capture its packets, and the end. What can't be written is lost.
    pub fn tell<E: Write>(&self, errors: &mut E) {
        if let Some(packets) = &self.packets {
            packets.tell_packets(errors);
        }
        let _ = self.tell_end(errors);
    }

    /// Tells the ending, in lines, behind what of whom is followed wasn't told before; or else what is known of the taps.
    pub fn tell_end<E: Write>(&self, errors: &mut E) -> io::Result<()>
        ensures { (c : Course) → IsSummaryOf c self.now → OnOk result
            (TellsEnd c self.now (E.contents errors.old) (E.contents errors.new)) }
    {
        match self.ending() {
            Some(ending) => {
                let whom = self.told.untold(&self.followed());
                write!(errors, "{whom}{ending}")
            }
            None => {
                let Sides { first, second, .. } = self.taps();
                write!(errors, "{}", TapsLine { first, second })
            }
        }
    }
}

/// The two values in the middle of what the last crossings of a kind have, where there are any, and memory to find them.
fn median_of(figures: &Figures, kind: Kind, quantity: Quantity) -> Option<Middle>
    ensures { (c : Course) → AreFigures (crossings_so_far c) figures.now → IsMedianOf quantity kind c result }
{
    match figures.median(kind, quantity) {
        Ok(median) => median,
        Err(_) => None,
    }
}

ghost use Rattle.std.specs.Prelude.{◌≡◌, ◌≤◌, ◌<◌, ◌∷◌, ◌++◌, [], length, option_map, vec_len, vec_capacity};
ghost use Rattle.std.specs.Prelude.{IsSome, IsTrue, ◌↔◌, IfSome, IfErr, OnOk, OnErr};
ghost use Rattle.network_model.specs.Kinds.{entered_copy};
ghost use Rattle.world_model.specs.Inner.Stands.{listed, octets_at, stay_in, stay_at, left_stay};
ghost use Rattle.world_model.specs.Inner.Acts.{copy_inside, entries_after};
ghost use Rattle.world_model.specs.Inner.Kept.{lists, slot_at, left_in, entries_of, IsStored, AllStored, Extends, HasPlace, HasRoom};

use crate::entry::{Left, Octets};
use network_model::{Event, Name, WorldRefusal};
use ptp_units::ScaledTime;
use std::alloc::Global;
use std::snapshot::Snapshot;

/// A message inside a clock.
#[derive(Clone, Copy)]
pub(crate) struct Stay {
    /// What the clock showed as it entered.
    pub(crate) entered: ScaledTime,
    /// The copy that entered, by its tag.
    pub(crate) copy: u64,
    pub(crate) clock: Name,
}

/// What events left, each kind in a list of its own.
#[derive(Drop)]
pub(crate) struct Stores {
    /// The octets of Syncs, Follow_Ups and Delay_Reqs.
    pub(crate) short: Vec<[u8; 44]>,
    /// The octets of Delay_Resps.
    pub(crate) long: Vec<[u8; 54]>,
    pub(crate) stays: Vec<Stay>,
}

/// Where the stores have what an event left.
#[derive(Clone, Copy)]
pub(crate) enum Slot {
    /// Octets, by their place among the short ones.
    Short(usize),
    /// Octets, by their place among the long ones.
    Long(usize),
    /// A stay that no event has left, by its place.
    Stay(usize),
    /// It left nothing, or what it left was taken out.
    Nothing,
}

/// An event that happened, of which clauses alone know, and where the stores have what it left.
#[derive(Drop)]
pub(crate) struct Kept {
    pub(crate) event: Snapshot<Event>,
    pub(crate) slot: Slot,
}

/// What a world keeps of the events that happened in it.
#[derive(Drop)]
pub(crate) struct Events {
    pub(crate) kept: Vec<Kept>,
    pub(crate) stores: Stores,
}

/// Takes the room for one more, where memory gives it.
fn reserve_one<T>(list: &mut Vec<T>)
    ensures items { list.new.items ≡ list.old.items }
    ensures room { vec_len list.old < vec_capacity list.old → vec_len list.new < vec_capacity list.new }
{
    // Whether it was given, `Events::room` says.
    let _ = list.reserve(1);
}

/// Whether there is room for one more.
fn has_room<T>(list: &Vec<T>) -> bool
    ensures { IsTrue result ↔ (vec_len list.now < vec_capacity list.now) }
{
    list.len() < list.capacity()
}

impl Stores {
    /// Keeps what an event leaves. There is room for it.
    fn put(&mut self, event: &Event, left: &Left) -> Slot
        requires room { HasPlace self.old }
        requires entered { IsSome (stay_in left.now) → IsSome (entered_copy event.now) }
        ensures left { left_in (lists self.new) result ≡ left.now }
        ensures stored { IsStored (lists self.new) event.now result }
        ensures others { Extends (lists self.old) (lists self.new) }
    {
        match left {
            Left::Copy(Octets::Short(octets)) => {
                let index = self.short.len();
                self.short.push_reserved(*octets);
                Slot::Short(index)
            }
            Left::Copy(Octets::Long(octets)) => {
                let index = self.long.len();
                self.long.push_reserved(*octets);
                Slot::Long(index)
            }
            Left::Stay(entered) => match event {
                Event::Enter { node, copy, .. } => {
                    let index = self.stays.len();
                    self.stays.push_reserved(Stay {
                        entered: *entered,
                        copy: *copy,
                        clock: *node,
                    });
                    Slot::Stay(index)
                }
                _ => unreachable!(),
            },
            Left::Nothing => Slot::Nothing,
        }
    }

    /// Takes the room for what one more event leaves, where memory gives it.
    fn reserve(&mut self)
        ensures lists { lists self.new ≡ lists self.old }
        ensures room { HasPlace self.old → HasPlace self.new }
    {
        reserve_one(&mut self.short);
        reserve_one(&mut self.long);
        reserve_one(&mut self.stays);
    }

    /// Whether there is room for what one more event leaves.
    fn has_place(&self) -> bool
        ensures { IsTrue result ↔ HasPlace self.now }
    {
        has_room(&self.short) && has_room(&self.long) && has_room(&self.stays)
    }
}

impl Events {
    /// No event happened.
    pub(crate) fn new(alloc: Global) -> Events
        ensures entries { entries_of result ≡ [] }
        ensures stored { AllStored (lists result.stores) result.kept.items }
    {
        Events {
            kept: Vec::new(alloc),
            stores: Stores {
                short: Vec::new(alloc),
                long: Vec::new(alloc),
                stays: Vec::new(alloc),
            },
        }
    }

    /// How many events happened, which is the tag of the next.
    pub(crate) fn len(&self) -> u64
        ensures { result ≡ length (entries_of self.now) }
    {
        self.kept.len() as u64
    }

    /// Where the stores have what the event of this tag left.
    fn slot(&self, tag: u64) -> Slot
        ensures { result ≡ slot_at self.now.kept.items tag }
    {
        match self.kept.get(tag as usize) {
            Some(kept) => kept.slot,
            None => Slot::Nothing,
        }
    }

    /// The octets of the copy of this tag.
    pub(crate) fn octets(&self, copy: u64) -> Option<&[u8]>
        ensures value { option_map (λ octets. octets.now) result ≡ octets_at (entries_of self.now) copy }
        ensures fits { IfSome result (λ octets. length octets.now ≤ 54) }
    {
        match self.slot(copy) {
            Slot::Short(index) => {
                let octets = self.stores.short.get(index)?;
                Some(octets)
            }
            Slot::Long(index) => {
                let octets = self.stores.long.get(index)?;
                Some(octets)
            }
            Slot::Stay(_) | Slot::Nothing => None,
        }
    }

    /// The same octets by themselves.
    pub(crate) fn copy(&self, copy: u64) -> Option<Octets>
        ensures { option_map listed result ≡ octets_at (entries_of self.now) copy }
    {
        match self.slot(copy) {
            Slot::Short(index) => {
                let octets = self.stores.short.get(index)?;
                Some(Octets::Short(*octets))
            }
            Slot::Long(index) => {
                let octets = self.stores.long.get(index)?;
                Some(Octets::Long(*octets))
            }
            Slot::Stay(_) | Slot::Nothing => None,
        }
    }

    /// The tag of the copy that entered this clock by the event of this tag, and is still inside.
    pub(crate) fn copy_inside(&self, clock: &Name, transit: u64) -> Option<u64>
        requires { AllStored (lists self.now.stores) self.now.kept.items }
        ensures { result ≡ copy_inside (entries_of self.now) clock.now transit }
    {
        let Slot::Stay(index) = self.slot(transit) else {
            return None;
        };
        let stay = self.stores.stays.get(index)?;
        if stay.clock.text() == clock.text() {
            Some(stay.copy)
        } else {
            None
        }
    }

    /// When a message that is inside a clock entered it, by that clock.
    pub(crate) fn entered(&self, transit: u64) -> Option<ScaledTime>
        ensures { result ≡ stay_at (entries_of self.now) transit }
    {
        match self.slot(transit) {
            Slot::Stay(index) => {
                let stay = self.stores.stays.get(index)?;
                Some(stay.entered)
            }
            Slot::Short(_) | Slot::Long(_) | Slot::Nothing => None,
        }
    }

    /// Takes a message out of a clock.
    fn take_out(&mut self, transit: u64) -> Option<ScaledTime>
        ensures value { result ≡ stay_at (entries_of self.old) transit }
        ensures stay { entries_of self.new ≡ left_stay transit (entries_of self.old) }
        ensures stored { AllStored (lists self.old.stores) self.old.kept.items
            → AllStored (lists self.new.stores) self.new.kept.items }
        ensures room { HasRoom self.old → HasRoom self.new }
    {
        match self.entered(transit) {
            Some(entered) => {
                self.kept[transit as usize].slot = Slot::Nothing;
                Some(entered)
            }
            None => None,
        }
    }

    /// Takes the room for one more event, where memory gives it.
    pub(crate) fn reserve(&mut self)
        ensures kept { self.new.kept.items ≡ self.old.kept.items }
        ensures lists { lists self.new.stores ≡ lists self.old.stores }
        ensures room { HasRoom self.old → HasRoom self.new }
    {
        reserve_one(&mut self.kept);
        self.stores.reserve();
    }

    /// Refused with 609 where there is no room for one more event.
    pub(crate) fn room(&self) -> Result<(), WorldRefusal>
        ensures room { OnOk result (HasRoom self.now) }
        ensures refused { IfErr result (λ why. why ≡ WorldRefusal.Memory) }
        ensures full { OnErr result (¬ (HasRoom self.now)) }
    {
        if has_room(&self.kept) && self.stores.has_place() {
            Ok(())
        } else {
            Err(WorldRefusal::Memory)
        }
    }

    /// Ends the stay that an event leaves.
    fn end_stay(&mut self, event: &Event)
        ensures entries { entries_of self.new ≡ entries_after event.now (entries_of self.old) }
        ensures stored { AllStored (lists self.old.stores) self.old.kept.items
            → AllStored (lists self.new.stores) self.new.kept.items }
        ensures room { HasRoom self.old → HasRoom self.new }
    {
        if let Event::Leave { transit, .. } = event {
            self.take_out(*transit);
        }
    }

    /// Puts an event after the others, with what it leaves, for which there is room.
    fn push(&mut self, event: &Event, left: &Left)
        requires room { HasRoom self.old }
        requires entered { IsSome (stay_in left.now) → IsSome (entered_copy event.now) }
        requires stored { AllStored (lists self.old.stores) self.old.kept.items }
        ensures entries { entries_of self.new
            ≡ entries_of self.old ++ record { event = event.now; left = left.now } ∷ [] }
        ensures stored { AllStored (lists self.new.stores) self.new.kept.items }
    {
        let slot = self.stores.put(event, left);
        self.kept.push_reserved(Kept {
            event: Snapshot::of(event),
            slot,
        });
    }

    /// Keeps an event that happened, with what it leaves, for which there is room. The stay that it
    /// leaves itself ends.
    pub(crate) fn keep(&mut self, event: &Event, left: &Left)
        requires room { HasRoom self.old }
        requires entered { IsSome (stay_in left.now) → IsSome (entered_copy event.now) }
        requires stored { AllStored (lists self.old.stores) self.old.kept.items }
        ensures entries { entries_of self.new
            ≡ entries_after event.now (entries_of self.old) ++ record { event = event.now; left = left.now } ∷ [] }
        ensures stored { AllStored (lists self.new.stores) self.new.kept.items }
    {
        self.end_stay(event);
        self.push(event, left);
    }
}

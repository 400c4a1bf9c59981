//! A line that is an object.
ghost use Rattle.std.specs.Prelude.{◌≡◌, OnSome, true};
ghost use Rattle.serde_json.specs.Data.{object, no_members};
ghost use Rattle.json.specs.Json.{Json};
ghost use Rattle.json.specs.Find.{BeginsWith};
ghost use Rattle.line_object.specs.Inner.Reads.{Reads};
ghost use Rattle.line_object.specs.Inner.Apart.{is_free, are_apart};

use crate::key::Key;
use crate::plain_value::PlainValue;
use crate::value::LineMembers;
use arrayvec::ArrayVec;
use json::Element;

/// A key and its value.
#[derive(Debug, Default, Drop)]
pub struct Member<'a> {
    key: Key,
    value: PlainValue<'a>,
}

/// A line that is an object of up to ten members, each with another key.
#[derive(Debug, Drop)]
pub struct LineObject<'a> {
    members: ArrayVec<Member<'a>, 10>,
    ghost apart: { are_apart members.items ≡ true },
}

/// Whether no member has this key.
fn is_free(members: &[Member<'_>], key: Key) -> bool
    ensures { result ≡ is_free key members.now }
{
    for member in members {
        if member.key.is(key) {
            return false;
        }
    }
    true
}

impl<'a> LineObject<'a> {
    ghost use Rattle.line_object.specs.Object.{object_data};

    /// An object without members.
    pub fn new() -> LineObject<'a>
        ensures { object_data result ≡ object no_members }
    {
        LineObject {
            members: ArrayVec::new(),
        }
    }

    /// Takes the members of the object that begins at an element, in place of those before; None where it is no object of
    /// up to ten such members.
    pub(crate) fn fill(&mut self, element: &Element<'_, 'a>) -> Option<()>
        ensures { (j : Json) → BeginsWith element.now j → OnSome result (Reads j (object_data self.new) 2) }
    {
        self.members.clear();
        let mut left = element.members()?;
        while let Some((text, value)) = left.next() {
            let key = Key::of(text)?;
            if self.members.is_full() || !is_free(self.members.as_slice(), key) {
                return None;
            }
            let value = PlainValue::read(&value)?;
            self.members.push(Member { key, value });
        }
        Some(())
    }
}

impl<'a> LineMembers for LineObject<'a> {
    ghost use Rattle.line_object.specs.Object.{object_data};

    type Value = PlainValue<'a>;

    ghost as_data = { object_data };

    fn get(&self, key: Key) -> Option<&PlainValue<'a>> {
        for member in self.members.as_slice() {
            if member.key.is(key) {
                return Some(&member.value);
            }
        }
        None
    }

    fn has_keys(&self, count: usize) -> bool {
        self.members.len() == count
    }
}

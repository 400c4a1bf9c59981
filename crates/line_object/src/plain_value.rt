//! The value of a key.
ghost use Rattle.std.specs.Prelude.{◌≡◌, ◌≤◌, IfSome, Some, option_map};
ghost use Rattle.json.specs.Json.{Json};
ghost use Rattle.json.specs.Json as spec;
ghost use Rattle.json.specs.Find.{BeginsWith, InItems};
ghost use Rattle.json.specs.Tree.{items_depth};
ghost use Rattle.serde_json.specs.Read.{number_of, of_items};
ghost use Rattle.line_object.specs.PlainValue.{plain_data, item_data, items_data};
ghost use Rattle.line_object.specs.Inner.Reads.{IsNumber, Reads};

use crate::number::{negative_in, whole_in};
use crate::plain_item::PlainItem;
use crate::value::LineValue;
use arrayvec::ArrayVec;
use json::{Element, Items};

/// What a key's value is: null, a text, a whole number of 64 bits, or an array of up to four items, each null or a
/// whole number from 0 to 2^64 - 2.
#[derive(Debug, Default, Drop)]
pub enum PlainValue<'a> {
    /// `null`.
    #[default]
    Null,
    /// A whole number from 0 to 2^64 - 1.
    Whole(u64),
    /// A whole number from -2^63 to -1.
    Negative(i64),
    /// A text, with its escapes read.
    Text(&'a str),
    /// The items of an array.
    Several(ArrayVec<PlainItem, 4>),
}

/// The item that begins at an element, where it is null or a whole number from 0 to 2^64 - 2.
fn read_item(element: &Element<'_, '_>) -> Option<PlainItem>
    ensures { (j : Json) → BeginsWith element.now j → IfSome result (λ n. Reads j (item_data n) 0) }
{
    match element.as_number() {
        Some(text) => Some(PlainItem::of(whole_in(text)?)?),
        None if element.is_null() => Some(PlainItem::null()),
        None => None,
    }
}

/// The items of an array, where they are up to four such.
fn read_items(items: Items<'_, '_>) -> Option<ArrayVec<PlainItem, 4>>
    ensures { (js : spec.Items) → InItems items.entry js
        → IfSome result (λ found. (of_items js ≡ Some (items_data found.items)) × (items_depth js ≤ 0)) }
{
    let mut items = items;
    let mut found = ArrayVec::new();
    while let Some(element) = items.next() {
        let item = read_item(&element)?;
        if found.is_full() {
            return None;
        }
        found.push(item);
    }
    Some(found)
}

/// The number that a token is, where it is whole.
fn number_in<'a>(text: &str) -> Option<PlainValue<'a>>
    ensures { IfSome result (λ f. IsNumber (number_of text.now) (plain_data f)) }
{
    match whole_in(text) {
        Some(number) => Some(PlainValue::Whole(number)),
        None => Some(PlainValue::Negative(negative_in(text)?)),
    }
}

impl<'a> PlainValue<'a> {
    /// The value that begins at an element, where it is one of these.
    pub(crate) fn read(element: &Element<'_, 'a>) -> Option<PlainValue<'a>>
        ensures { (j : Json) → BeginsWith element.now j → IfSome result (λ f. Reads j (plain_data f) 1) }
    {
        if let Some(text) = element.as_str() {
            return Some(PlainValue::Text(text));
        }
        if let Some(text) = element.as_number() {
            return number_in(text);
        }
        match element.items() {
            Some(items) => Some(PlainValue::Several(read_items(items)?)),
            None if element.is_null() => Some(PlainValue::Null),
            None => None,
        }
    }
}

impl PlainValue<'_> {
    ghost use Rattle.serde_json.specs.Find.{at};

    /// The item at an index.
    fn item(&self, index: usize) -> Option<Option<u64>>
        ensures { option_map item_data result ≡ at index (plain_data self.now) }
    {
        match self {
            PlainValue::Several(items) => Some(items.as_slice().get(index)?.number()),
            _ => None,
        }
    }
}

impl LineValue for PlainValue<'_> {
    ghost as_data = { plain_data };

    fn as_u64(&self) -> Option<u64> {
        match self {
            PlainValue::Whole(number) => Some(*number),
            _ => None,
        }
    }

    fn as_i64(&self) -> Option<i64> {
        match self {
            PlainValue::Whole(number) => i64::try_from(*number).ok(),
            PlainValue::Negative(number) => Some(*number),
            _ => None,
        }
    }

    fn as_str(&self) -> Option<&str> {
        match self {
            PlainValue::Text(text) => Some(text),
            _ => None,
        }
    }

    fn has_items(&self, count: usize) -> bool {
        match self {
            PlainValue::Several(items) => items.len() == count,
            _ => false,
        }
    }

    fn u64_at(&self, index: usize) -> Option<u64> {
        self.item(index)?
    }

    fn is_null_at(&self, index: usize) -> bool {
        matches!(self.item(index), Some(None))
    }
}

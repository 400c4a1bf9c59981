//! Lines of JSON whose keys are read in place, in any order and spelling: objects of up to ten keys of nodes and events,
//! each once. Of every other line `serde_json` reads the value.
#![tactic(auto)]

mod key;
mod number;
mod object;
mod plain_item;
mod plain_value;
mod text;
mod value;

pub use key::Key;
pub use object::LineObject;
pub use plain_item::PlainItem;
pub use plain_value::PlainValue;
pub use value::{LineMembers, LineValue};

//! The flaw by which a line that is JSON is refused.
ghost use Rattle.std.specs.Prelude.{◌≡◌, ◌≢◌, ◌++◌, ◌∷◌, [], All, IfSome, IsSome, ℕ, true, false, None, is_some, option_map};
ghost use Rattle.serde_json.specs.View.{view};
ghost use Rattle.serde_json.specs.Find.{as_object, as_str, get};
ghost use Rattle.schedule_lines.specs.Json.{field};
ghost use Rattle.schedule_lines.specs.Refusal.{IsRefused};
ghost use Rattle.schedule_lines.specs.Wanted.{HasWanted};
ghost use Rattle.schedule_lines.specs.declared.refusal.Refusal.TheVariants as refusals;
ghost use Rattle.explain_flaws.specs.declared.flaw.FileForm.TheVariants.{Schedule, Transcript};
ghost use Rattle.line_object.specs.declared.key.Key.TheVariants.{Ev, Number, Out};
ghost use Rattle.line_object.specs.Key.{key_text};
ghost use Rattle.schedule_lines.specs.Needed.{kind_in, needed_of_node, outcome_keys_in};
ghost use Rattle.explain_flaws.specs.Needed.{needed};
ghost use Rattle.explain_flaws.specs.Truth.{IsOther, IsSoOfValue};

use crate::flaw::{FileForm, Flaw};
use crate::pieces::{Members, item_text, plain_name, unquoted, value_text};
use line_object::Key;
use schedule_lines::{EventKind, Refusal, node_keys, outcome_keys};
use serde_json::Value;

/// A line, the value that it is, and the form that it isn't a line of.
#[derive(Clone, Copy)]
struct Search<'a, 'v> {
    line: &'a [u8],
    value: &'v Value,
    form: FileForm,
}

/// The keys that a line needs.
#[derive(Clone, Copy)]
struct Allowed {
    /// Those of all events, or of the kind of node.
    common: &'static [Key],
    /// Those of the kind of event.
    own: &'static [Key],
    /// That of the reading, and `out`.
    told: &'static [Key],
    /// Those of the outcome.
    outcome: &'static [Key],
    /// That of the event's number.
    number: &'static [Key],
}

impl Allowed {
    /// These alone.
    fn only(common: &'static [Key]) -> Allowed
        ensures { (result.common.now ≡ common.now) × (result.own.now ≡ []) × (result.told.now ≡ [])
            × (result.outcome.now ≡ []) × (result.number.now ≡ []) }
    {
        Allowed {
            common,
            own: &[],
            told: &[],
            outcome: &[],
            number: &[],
        }
    }

    /// Whether a key is one of these, without its quotes.
    fn has(self, name: &[u8]) -> bool
        ensures { result ≡ false → All (λ key. key_text key ≢ name.now)
            (self.common.now ++ (self.own.now ++ (self.told.now ++ (self.outcome.now ++ self.number.now)))) }
    {
        is_among(self.common, name)
            || is_among(self.own, name)
            || is_among(self.told, name)
            || is_among(self.outcome, name)
            || is_among(self.number, name)
    }
}

/// Whether one of the keys has this name.
fn is_among(keys: &[Key], name: &[u8]) -> bool
    ensures { result ≡ false → All (λ key. key_text key ≢ name.now) keys.now }
{
    for key in keys {
        if key.text().as_bytes() == name {
            return true;
        }
    }
    false
}

/// Whether one of the keys is near this name.
fn is_near_one(keys: &[Key], name: &[u8]) -> bool {
    for key in keys {
        if is_near(key.text().as_bytes(), name) {
            return true;
        }
    }
    false
}

/// The first key of a line that isn't allowed, but near one of these.
fn key_near<'a>(line: &'a [u8], keys: &[Key], allowed: Allowed) -> Option<&'a [u8]> {
    for member in Members::of(line) {
        let name = unquoted(member.key);
        if !allowed.has(name) && is_near_one(keys, name) {
            return Some(member.key);
        }
    }
    None
}

/// The flaw by which a value is refused.
pub(crate) fn flaw_of<'a>(
    form: FileForm,
    line: &'a [u8],
    value: &Value,
    refusal: Refusal,
) -> Flaw<'a>
    requires { IsRefused (view value.now) (needed form (view value.now)) refusal }
    ensures { (events : ℕ) → IsSoOfValue form events (view value.now) result }
{
    let search = Search { line, value, form };
    match refusal {
        Refusal::NoKind => search.no_kind(),
        _ if search.has_outcome() => Flaw::HasOutcome,
        _ if search.has_no_outcome() => Flaw::NoOutcome,
        Refusal::Missing { key } => Flaw::Missing {
            key,
            near: key_near(line, &[key], search.allowed()),
        },
        Refusal::Wrong { key } => Flaw::Wrong {
            key,
            found: search.found(key),
        },
        Refusal::WrongPart { key, part } => Flaw::WrongPart {
            key,
            part,
            found: item_text(search.found(key), part.place()),
        },
        Refusal::TooMuch => search.too_much(),
    }
}

impl<'a, 'v> Search<'a, 'v> {
    /// Whether a key is there.
    fn has(self, key: Key) -> bool
        ensures { result ≡ is_some (get (key_text key) (view self.entry.value.now)) }
    {
        self.value.get(key.text()).is_some()
    }

    /// The value of a key, as it stands.
    fn found(self, key: Key) -> &'a [u8] {
        value_text(self.line, key.text())
    }

    /// The text that a key's value is.
    fn text_at(self, key: Key) -> Option<&'v str>
        ensures { option_map (λ text. text.now) result ≡ field as_str (key_text key) (view self.entry.value.now) }
    {
        self.value.get(key.text())?.as_str()
    }

    /// The event that is named.
    fn kind(self) -> Option<EventKind>
        ensures { result ≡ kind_in (view self.entry.value.now) }
    {
        EventKind::named(self.text_at(Key::Ev)?)
    }

    /// Whether it is an event of a schedule that has what came of it.
    fn has_outcome(self) -> bool
        ensures { result ≡ true → (self.entry.form ≡ Schedule) × HasWanted (view self.entry.value.now) Ev
            × IsSome (get (key_text Number) (view self.entry.value.now)) × IsSome (get (key_text Out) (view self.entry.value.now)) }
    {
        self.form == FileForm::Schedule
            && self.kind().is_some()
            && self.has(Key::Number)
            && self.has(Key::Out)
    }

    /// Whether it is an event of a transcript that lacks what came of it.
    fn has_no_outcome(self) -> bool
        ensures { result ≡ true → (self.entry.form ≡ Transcript) × HasWanted (view self.entry.value.now) Ev
            × (get (key_text Number) (view self.entry.value.now) ≡ None) × (get (key_text Out) (view self.entry.value.now) ≡ None) }
    {
        self.form == FileForm::Transcript
            && self.kind().is_some()
            && !self.has(Key::Number)
            && !self.has(Key::Out)
    }

    /// That it is no object, or names neither an event nor a node.
    fn no_kind(self) -> Flaw<'a>
        requires { IsRefused (view self.value.now) (needed self.form (view self.value.now)) refusals.NoKind }
        ensures { (events : ℕ) → IsSoOfValue self.entry.form events (view self.entry.value.now) result }
    {
        if self.value.is_object() {
            Flaw::NoKind {
                near: key_near(self.line, &[Key::Ev, Key::Kind], Allowed::only(&[])),
            }
        } else {
            Flaw::NoObject {
                found: self.line.trim_ascii(),
            }
        }
    }

    /// The keys that the line needs.
    fn allowed(self) -> Allowed
        ensures { needed self.entry.form (view self.entry.value.now)
            ≡ result.common.now ++ (result.own.now ++ (result.told.now ++ (result.outcome.now ++ result.number.now))) }
    {
        if !self.has(Key::Ev) {
            return Allowed::only(self.node_keys());
        }
        let Some(kind) = self.kind() else {
            return Allowed::only(&[Key::Ev]);
        };
        let scheduled = Allowed {
            own: kind.own_keys(),
            ..Allowed::only(&[Key::Ev, Key::Node])
        };
        match self.form {
            FileForm::Schedule => scheduled,
            FileForm::Transcript => Allowed {
                told: kind.reading_and_out(),
                outcome: self.outcome_keys(),
                number: &[Key::Number],
                ..scheduled
            },
        }
    }

    /// The keys that a node needs.
    fn node_keys(self) -> &'static [Key]
        ensures { result.now ≡ needed_of_node (view self.entry.value.now) }
    {
        let keys = match self.text_at(Key::Kind) {
            Some(kind) => node_keys(kind),
            None => None,
        };
        keys.unwrap_or(&[Key::Kind])
    }

    /// The keys that tell what came of an event, beside `out`.
    fn outcome_keys(self) -> &'static [Key]
        ensures { result.now ≡ outcome_keys_in (view self.entry.value.now) }
    {
        let keys = match self.text_at(Key::Out) {
            Some(out) => outcome_keys(out),
            None => None,
        };
        keys.unwrap_or(&[])
    }

    /// Whether a key of the line, without escapes, is one of the value that the line doesn't need.
    fn is_other(self, key: &[u8]) -> bool
        ensures { result ≡ true → IsOther self.entry.form (view self.entry.value.now) key.now }
    {
        let Some(name) = plain_name(key) else {
            return false;
        };
        if self.allowed().has(name.as_bytes()) {
            return false;
        }
        self.value.get(name).is_some()
    }

    /// The first key of the line, without escapes, that it doesn't need.
    fn key_too_much(self) -> Option<&'a [u8]>
        ensures { IfSome result (λ key. IsOther self.entry.form (view self.entry.value.now) key.now) }
    {
        for member in Members::of(self.line) {
            if self.is_other(member.key) {
                return Some(member.key);
            }
        }
        None
    }

    /// That a key isn't needed: the first without escapes, where there is one.
    fn too_much(self) -> Flaw<'a>
        requires { IsRefused (view self.value.now) (needed self.form (view self.value.now)) refusals.TooMuch }
        ensures { (events : ℕ) → IsSoOfValue self.entry.form events (view self.entry.value.now) result }
    {
        let key: &'a [u8] = match self.key_too_much() {
            Some(key) => key,
            None => &[],
        };
        let kind = if self.has(Key::Ev) {
            Key::Ev
        } else {
            Key::Kind
        };
        let out = if is_of_outcome(unquoted(key)) && self.has(Key::Out) {
            Some(self.found(Key::Out))
        } else {
            None
        };
        Flaw::TooMuch {
            key,
            kind: self.found(kind),
            out,
        }
    }
}

/// Whether a key, without its quotes, tells an outcome, beside `out`.
fn is_of_outcome(name: &[u8]) -> bool {
    ["made", "report", "ignored"].iter().any(|out| outcome_keys(out).is_some_and(|keys| is_among(
        keys, name,
    )))
}

/// Whether a name differs in the case of letters alone, or by one octet that is another, missing or
/// too much, or by two that changed places.
fn is_near(wanted: &[u8], found: &[u8]) -> bool {
    match without_common(wanted, found) {
        ([], []) | ([_], []) | ([], [_]) => true,
        ([_], [_]) => wanted.len() > 2,
        ([a, b], [c, d]) => a.eq_ignore_ascii_case(d) && b.eq_ignore_ascii_case(c),
        _ => false,
    }
}

/// What is left of two names without the octets that both begin and end with, whatever their case.
fn without_common<'a, 'b>(one: &'a [u8], other: &'b [u8]) -> (&'a [u8], &'b [u8]) {
    let (one, other) = without_common_front(one, other);
    without_common_back(one, other)
}

/// What is left of two names without the octets that both begin with, whatever their case.
fn without_common_front<'a, 'b>(one: &'a [u8], other: &'b [u8]) -> (&'a [u8], &'b [u8]) {
    let mut left = (one, other);
    for _ in one {
        left = match left {
            ([a, one @ ..], [b, other @ ..]) if a.eq_ignore_ascii_case(b) => (one, other),
            _ => return left,
        };
    }
    left
}

/// What is left of two names without the octets that both end with, whatever their case.
fn without_common_back<'a, 'b>(one: &'a [u8], other: &'b [u8]) -> (&'a [u8], &'b [u8]) {
    let mut left = (one, other);
    for _ in one {
        left = match left {
            ([one @ .., a], [other @ .., b]) if a.eq_ignore_ascii_case(b) => (one, other),
            _ => return left,
        };
    }
    left
}

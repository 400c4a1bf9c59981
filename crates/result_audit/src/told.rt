//! A result as it is told: a line of JSON.

ghost use Rattle.std.specs.Prelude.{◌≡◌, codes, Some, MatchResult};
ghost use Rattle.json.specs.Json.{Json};
ghost use Rattle.json.specs.Find.{BeginsWith, get};
ghost use Rattle.result_audit.specs.Told.{exact_of, exact_at, of_sequence, IsOf, path_in, IsToldBy, IsTold, IsUntold};

use json::{Element, Error, Scratch, Tape};
use ptp_units::Seq;
use result_verdict::Exact;
use std::alloc::Global;
use text_lines::LineFault;

/// Of which Sync a result says that it is.
#[derive(Clone, Copy, Debug)]
pub enum Of {
    /// The newest one at this line or packet.
    Line(u64),
    /// That of this sequenceId, which is the newest one, or comes later.
    Sequence(Seq),
}

/// A result that a slave reported, in nanoseconds.
#[derive(Clone, Copy, Debug)]
pub struct Told {
    /// The line that tells it.
    pub line: u64,
    /// Of which Sync it is; of the newest one in front of it, where it doesn't say.
    pub of: Option<Of>,
    /// offsetFromMaster.
    pub offset: Exact,
    /// meanPathDelay, where it is judged.
    pub path: Option<Exact>,
}

/// The number that an element is, or a text of it.
fn exact_of(element: &Element<'_, '_>) -> Option<Exact>
    ensures { (j : Json) → BeginsWith element.now j → result ≡ exact_of j }
{
    match element.as_number() {
        Some(text) => Exact::from_text(text),
        None => Exact::from_text(element.as_str()?),
    }
}

/// The number of a member.
fn exact_at(root: &Element<'_, '_>, name: &str) -> Option<Exact>
    ensures { (j : Json) → BeginsWith root.now j → result ≡ exact_at name.now j }
{
    exact_of(&root.get(name)?)
}

/// The Sync of a sequenceId, which has 16 bits.
fn of_sequence(number: u64) -> Option<Option<Of>>
    ensures { result ≡ of_sequence number }
{
    if number < 65536 {
        Some(Some(Of::Sequence(Seq(number as u16))))
    } else {
        None
    }
}

/// Of which Sync an object says that it is, where it does.
fn of_at(root: &Element<'_, '_>) -> Option<Option<Of>>
    ensures { (j : Json) → BeginsWith root.now j → IsOf (get (codes "sequence") j) (get (codes "line") j) result }
{
    if let Some(sequence) = root.get("sequence") {
        return of_sequence(sequence.as_u64()?);
    }
    match root.get("line") {
        Some(named) => Some(Some(Of::Line(named.as_u64()?))),
        None => Some(None),
    }
}

/// The path delay of a result, where that is read.
fn path_in(root: &Element<'_, '_>, has_path: bool) -> Option<Option<Exact>>
    ensures { (j : Json) → BeginsWith root.now j → result ≡ path_in has_path j }
{
    if has_path {
        Some(Some(exact_at(root, "path")?))
    } else {
        Some(None)
    }
}

/// The result that an object is.
fn told_at(root: &Element<'_, '_>, line: u64, has_path: bool) -> Option<Told>
    ensures { (j : Json) → BeginsWith root.now j → IsToldBy has_path line j result }
{
    let of = of_at(root)?;
    let offset = exact_at(root, "offset")?;
    let path = path_in(root, has_path)?;
    Some(Told {
        line,
        of,
        offset,
        path,
    })
}

/// Reads the result that this line tells, with its path delay where this is asked for.
pub fn read_told(
    alloc: Global,
    scratch: &mut Scratch,
    text: &str,
    line: u64,
    has_path: bool,
) -> Result<Told, LineFault>
    ensures { MatchResult result
        (λ told. IsTold has_path line text.now (Some told))
        (λ fault. IsUntold fault has_path line text.now) }
{
    let tape = match Tape::parse_strict(text, scratch, Vec::new(alloc)) {
        Ok(tape) => tape,
        Err(Error::OutOfMemory) => return Err(LineFault::Memory),
        Err(_) => return Err(LineFault::Field),
    };
    match told_at(&tape.root(), line, has_path) {
        Some(told) => Ok(told),
        None => Err(LineFault::Field),
    }
}

//! Names and identities that meet in a table, under hashers that are known beforehand. `bench/names` shows that they cost
//! a network no more than others do, which no contract can say.

use event_codec::PortIdentity;
use std::alloc::{AllocError, Global};
use std::hash::{DefaultHasher, FoldHasher, Hash, Hasher};

/// How many are tried for each that is wanted. One in 2,048 meets.
const TRIES: u64 = 4_096;

/// Whether keys of this hash meet: where a table has room for 147,456 of them, they are sought from its first sixteenth on,
/// and each has to be compared with all others there, since they have one tag.
fn meets(hash: u64) -> bool {
    (hash ^ (hash >> 32)) & 0xfe00_3c00 == 0
}

/// What is sought in a table.
#[derive(Clone, Copy)]
enum Key {
    Name,
    Identity,
}

/// The sixteen hexadecimal digits of a number.
fn digits(number: u64) -> [u8; 16] {
    let mut digits = [0; 16];
    let mut rest = number;
    for digit in digits.iter_mut().rev() {
        *digit = b"0123456789abcdef"[(rest % 16) as usize];
        rest /= 16;
    }
    digits
}

/// So many names, or clockIdentities of ports, that meet under a hasher, one a line; fewer where the tries run out.
fn lines<H: Hasher + Copy + Drop>(
    alloc: Global,
    key: Key,
    begun: H,
    count: u64,
) -> Result<String, AllocError> {
    let mut text = String::new(alloc);
    let mut found: u64 = 0;
    for number in 0..count.saturating_mul(TRIES) {
        if found == count {
            break;
        }
        let mut hasher = begun;
        match key {
            Key::Name => {
                // As a text is hashed.
                hasher.write(&digits(number));
                hasher.write_u8(0xff);
            }
            Key::Identity => {
                let clock = number.to_be_bytes();
                PortIdentity { clock, port: 1 }.hash(&mut hasher);
            }
        }
        if meets(hasher.finish()) {
            write!(text, "{number:016x}\n")?;
            found = found.saturating_add(1);
        }
    }
    Ok(text)
}

/// SipHash that has taken a key of zeros.
fn guessed() -> DefaultHasher {
    let mut hasher = DefaultHasher::new();
    hasher.write(&[0; 32]);
    hasher
}

/// Names, or clockIdentities, that meet under the hasher with a fixed seed that the kit's maps use where none is named
/// (`fixed_names`, `fixed_identities`), under SipHash without a key (`unkeyed_..`), or under SipHash with a key that is guessed
/// (`guessed_..`). None of another word.
pub fn lines_of(alloc: Global, kind: &str, count: u64) -> Option<Result<String, AllocError>> {
    let (hasher, keys) = kind.split_once('_')?;
    let key = match keys {
        "names" => Key::Name,
        "identities" => Key::Identity,
        _ => return None,
    };
    match hasher {
        "fixed" => Some(lines(alloc, key, FoldHasher::default(), count)),
        "unkeyed" => Some(lines(alloc, key, DefaultHasher::new(), count)),
        "guessed" => Some(lines(alloc, key, guessed(), count)),
        _ => None,
    }
}

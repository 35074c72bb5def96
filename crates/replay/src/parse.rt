// Reads the fields of a call: numbers and byte strings.
ghost use Rattle.std.specs.Prelude.{◌≤◌, ◌<◌, IfOk, IfSome, vec_len};

use std::alloc::{AllocError, AllocFailed, Global};

// Why a line has no answer.
#[derive(Drop)]
pub(crate) enum Fault {
    Unreadable,
    TooLarge,
    OutOfMemory(AllocError),
}

impl From<AllocError> for Fault {
    fn from(e: AllocError) -> Fault {
        Fault::OutOfMemory(e)
    }
}

impl<T: Drop> From<AllocFailed<T>> for Fault {
    fn from(e: AllocFailed<T>) -> Fault {
        Fault::OutOfMemory(e.into())
    }
}

// The value of a hexadecimal digit in lower case. (`to_digit` of the library takes upper case too, and what the program takes may not
// change.)
fn digit(c: u8) -> Option<u8>
    ensures { IfSome result (λ d. d < 16) }
{
    match c {
        b'0'..=b'9' => Some(c - b'0'),
        b'a'..=b'f' => Some(c - b'a' + 10),
        _ => None,
    }
}

// The number that the digits spell. (`from_str_radix` of the library takes a plus in front and upper case too, and what the program
// takes may not change.)
fn value(digits: &[u8]) -> Option<usize> {
    if digits.is_empty() {
        return None;
    }
    digits.iter().try_fold(0usize, |sum, c| {
        sum.checked_mul(16)?.checked_add(usize::from(digit(*c)?))
    })
}

pub(crate) fn number(field: &[u8]) -> Result<usize, Fault> {
    value(field).ok_or(Fault::Unreadable)
}

// The byte that two digits spell.
fn byte(high: u8, low: u8) -> Option<u8> {
    Some(digit(high)? * 16 + digit(low)?)
}

// The digits of an item and how often they are to be repeated. A count of 0 would let digits go unread, and is none.
fn parts(item: &[u8]) -> Option<(&[u8], usize)> {
    let Some(star) = item.iter().position(|c| *c == b'*') else {
        return Some((item, 1));
    };
    let times = value(&item[star + 1..])?;
    if times == 0 {
        return None;
    }
    Some((&item[..star], times))
}

// The bytes of a field so far, MOST at most.
#[derive(Drop)]
struct Kept<const MOST: usize> {
    bytes: Vec<u8>,
    ghost within: { vec_len bytes ≤ MOST },
}

impl<const MOST: usize> Kept<MOST> {
    fn put(&mut self, b: u8) -> Result<(), Fault> {
        if self.bytes.len() == MOST {
            return Err(Fault::TooLarge);
        }
        Ok(self.bytes.push(b)?)
    }

    // Puts the bytes that the digits spell.
    fn spell(&mut self, digits: &[u8]) -> Result<(), Fault> {
        let (pairs, rest) = digits.as_chunks::<2>();
        for [high, low] in pairs {
            let b = byte(*high, *low).ok_or(Fault::Unreadable)?;
            self.put(b)?;
        }
        if pairs.is_empty() || !rest.is_empty() {
            return Err(Fault::Unreadable);
        }
        Ok(())
    }

    // Puts the bytes of one item. The limit ends it where the count is beyond all sense.
    fn item(&mut self, text: &[u8]) -> Result<(), Fault> {
        let (digits, times) = parts(text).ok_or(Fault::Unreadable)?;
        for _ in 0..times {
            self.spell(digits)?;
        }
        Ok(())
    }

    // Puts the bytes of all items of a byte string.
    fn items(&mut self, text: &[u8]) -> Result<(), Fault> {
        for item in text.split(|c| *c == b'+') {
            self.item(item)?;
        }
        Ok(())
    }
}

// The bytes of the byte string that a field is, so many at most.
pub(crate) fn bytes<const MOST: usize>(alloc: Global, field: &[u8]) -> Result<Vec<u8>, Fault>
    ensures { IfOk result (λ v. vec_len v ≤ MOST) }
{
    let mut kept = Kept::<MOST> {
        bytes: Vec::new(alloc),
    };
    if field != b"-".as_slice() {
        kept.items(field)?;
    }
    let Kept { bytes } = kept;
    Ok(bytes)
}

// Answers one line: reads a call's fields in their order, but T and N last, and makes the call.
ghost use Rattle.std.specs.Prelude.{◌≡◌, ◌≤◌, IfOk, false, vec_len};
ghost use Rattle.replay.specs.Rooms.{values, output, ids, rows, lengths};
ghost use Rattle.replay.specs.Touched.{TouchedIs};

use crate::parse::{Fault, bytes, number};
use crate::print::{Answer, UNTOUCHED};
use row_set::MAX_SECRET;
use std::alloc::Global;

// What is kept of each field: more than the entries take, so that their limits are met from either side.

// Of a secret, and of coefficients.
const VALUES: usize = MAX_SECRET + 104;

// Of an output, a head and a sheet's text: three of the longest rows, or the sheet of one.
const OUTPUT: usize = 3 * (MAX_SECRET + 4);

// Of identifiers.
const IDS: usize = 300;

// Of rows: two of the longest, or as many of the shortest as are ever taken.
const ROWS: usize = 2 * MAX_SECRET + 140000;

// Of lengths: three more than are ever taken.
const LENGTHS: usize = 4 * (65535 + 3);

// Memory to lend: so much of it as the field asks for.
fn lent(alloc: Global, field: &[u8]) -> Result<Vec<u8>, Fault>
    ensures room { IfOk result (λ v. vec_len v ≤ OUTPUT) }
    ensures untouched { IfOk result (λ v. TouchedIs v.items false) }
{
    let n = number(field)?;
    if n > OUTPUT {
        return Err(Fault::TooLarge);
    }
    Ok(vec![in alloc; UNTOUCHED; n]?)
}

fn split(
    alloc: Global,
    [threshold, limit, secret, ids, coefficients, room]: [&[u8]; 6],
) -> Result<Answer, Fault> {
    let secret = bytes::<VALUES>(alloc, secret)?;
    let ids = bytes::<IDS>(alloc, ids)?;
    let coefficients = bytes::<VALUES>(alloc, coefficients)?;
    let mut out = lent(alloc, room)?;
    let threshold = number(threshold)?;
    let limit = number(limit)?;
    let word = vsss::vsss_split_bytes(threshold, limit, &secret, &ids, &coefficients, &mut out);
    Ok(Answer {
        word,
        head: None,
        out,
    })
}

fn combine(alloc: Global, [rows, lengths, room]: [&[u8]; 3]) -> Result<Answer, Fault> {
    let rows = bytes::<ROWS>(alloc, rows)?;
    let lengths = bytes::<LENGTHS>(alloc, lengths)?;
    let mut out = lent(alloc, room)?;
    let word = vsss::vsss_combine_bytes(&rows, &lengths, &mut out);
    Ok(Answer {
        word,
        head: None,
        out,
    })
}

fn sheet(alloc: Global, [threshold, rows, lengths, room]: [&[u8]; 4]) -> Result<Answer, Fault> {
    let rows = bytes::<ROWS>(alloc, rows)?;
    let lengths = bytes::<LENGTHS>(alloc, lengths)?;
    let mut out = lent(alloc, room)?;
    let threshold = number(threshold)?;
    let word = vsss::vsss_write_sheet(threshold, &rows, &lengths, &mut out);
    Ok(Answer {
        word,
        head: None,
        out,
    })
}

fn read(alloc: Global, [text, head_room, room]: [&[u8]; 3]) -> Result<Answer, Fault> {
    let text = bytes::<OUTPUT>(alloc, text)?;
    let mut head = lent(alloc, head_room)?;
    let mut out = lent(alloc, room)?;
    let word = vsss::vsss_read_sheet(&text, &mut head, &mut out);
    Ok(Answer {
        word,
        head: Some(head),
        out,
    })
}

// Makes the call that a line is. The limits above are the numbers of `Rooms`.
pub(crate) fn answer(alloc: Global, line: &[u8]) -> Result<Answer, Fault>
    ensures kept { (VALUES ≡ values) × (OUTPUT ≡ output) × (IDS ≡ ids) × (ROWS ≡ rows) × (LENGTHS ≡ lengths) }
{
    // A word, as many fields as the longest call has, and one part more, to see that there are no more. No vector: a line that is no call,
    // of many spaces or of none, is then refused as fast as it is read.
    let mut parts = line.split(|c| *c == b' ');
    let call = [
        parts.next(),
        parts.next(),
        parts.next(),
        parts.next(),
        parts.next(),
        parts.next(),
        parts.next(),
        parts.next(),
    ];
    match call {
        [
            Some(b"split"),
            Some(t),
            Some(n),
            Some(secret),
            Some(ids),
            Some(coefficients),
            Some(room),
            None,
        ] => { split(alloc, [t, n, secret, ids, coefficients, room]) }
        [
            Some(b"combine"),
            Some(rows),
            Some(lengths),
            Some(room),
            None,
            ..
        ] => { combine(alloc, [rows, lengths, room]) }
        [
            Some(b"sheet"),
            Some(t),
            Some(rows),
            Some(lengths),
            Some(room),
            None,
            ..
        ] => { sheet(alloc, [t, rows, lengths, room]) }
        [
            Some(b"read"),
            Some(text),
            Some(head_room),
            Some(room),
            None,
            ..
        ] => { read(alloc, [text, head_room, room]) }
        _ => Err(Fault::Unreadable),
    }
}

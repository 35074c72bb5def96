// Runs the calls of the text on standard input and prints each answer, so that stored calls are held to stored output.
//
// Empty lines and lines that start with # are copied. Every other line is a call, its fields parted by single spaces:
//   split T N SECRET IDS COEFFICIENTS ROOM
//   combine ROWS LENGTHS ROOM
//   sheet T ROWS LENGTHS ROOM
//   read TEXT HEADROOM ROOM
// T, N, HEADROOM and ROOM are hexadecimal numbers below 2^64. The others are byte strings: - is empty, else items joined by +, each of
// two digits a byte, with * and a hexadecimal count from 1 behind them where they are to be repeated. Digits are in lower case.
// The output has ROOM bytes, the head of read HEADROOM, all ee at first. The answer is one of
//   done COUNT OUTPUT           or, for read, done COUNT HEAD OUTPUT
//   refused NUMBER FIRST SECOND with ` changed` behind it where output or head is no longer ee throughout
//   unreadable                  the line is no call
//   too large                   a field has more bytes than this program keeps for it
// OUTPUT and HEAD are the whole of it in digits, where it has at most 64 bytes, and `sum CHECKSUM` where it has more.
// Where more than one field is at fault the first from the left decides, but for T and N, which are read last. A text that is too long
// as a whole is not run: `input too large`.
#![tactic(auto)]

mod calls;
mod parse;
mod print;

use parse::Fault;
use std::io;

// A text may have this many bytes.
const MOST: usize = 1048576;

// Prints what a call comes to. Words that stand as they are go out by write_all: by print!, through a buffer, a short line takes a
// quarter more.
fn run<R: Print + AllocGlobal>(rt: &R, call: &[u8]) -> io::Result<()> {
    match calls::answer(rt.alloc(), call) {
        Ok(answer) => print!(rt; "{answer}"),
        Err(Fault::Unreadable) => rt.write_all(b"unreadable"),
        Err(Fault::TooLarge) => rt.write_all(b"too large"),
        Err(Fault::OutOfMemory(e)) => Err(e.into()),
    }
}

fn line<R: Print + AllocGlobal>(rt: &R, text: &[u8]) -> io::Result<()> {
    match text {
        [] | [b'#', ..] => rt.write_all(text)?,
        _ => run(rt, text)?,
    }
    rt.write_all(b"\n")
}

fn lines<R: Print + AllocGlobal>(rt: &R, text: &[u8]) -> io::Result<()> {
    for text in text.split_inclusive(|c| *c == b'\n') {
        line(rt, text.strip_suffix(b"\n").unwrap_or(text))?;
    }
    Ok(())
}

fn main(rt: HostRuntime) -> io::Result<()> {
    match standard_input::read_within(&rt, rt.alloc(), MOST)? {
        Some(text) => lines(&rt, &text),
        None => println!(&rt; "input too large"),
    }
}

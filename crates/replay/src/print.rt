// What is printed of a call.
ghost use Rattle.replay.specs.Touched.{TouchedIs};

use std::fmt;

// What lent memory holds before a call.
pub(crate) const UNTOUCHED: u8 = 0xee;

// Words from here on are refusals, the others counts.
const REFUSALS: u64 = 0x100_0000_0000;

// A checksum that places count in, so that two bytes changed about are seen.
// A loop and no `fold`: of a fold the check does not find that the sum fits its type at each call; an invariant says it in a line.
fn checksum(s: &[u8]) -> u64 {
    let mut sum: u64 = 0;
    for b in s {
        sum = (sum * 31 + u64::from(*b)) % 65521;
    }
    sum
}

fn is_touched(s: &[u8]) -> bool
    ensures { TouchedIs s.now result }
{
    s.iter().any(|b| *b != UNTOUCHED)
}

// Lent memory at exit, where it is short enough to read, else its checksum.
#[derive(Drop)]
struct Memory<'a>(&'a [u8]);

impl fmt::Display for Memory<'_> {
    fn fmt<W: fmt::Write>(&self, f: &mut fmt::Formatter<W>) -> fmt::Result {
        let s = self.0;
        if s.len() > 64 {
            let sum = checksum(s);
            return write!(f, "sum {sum}");
        }
        for b in s {
            write!(f, "{b:02x}")?;
        }
        Ok(())
    }
}

// The word that an entry gave back, and the memories that were lent, as it left them.
#[derive(Drop)]
pub(crate) struct Answer {
    pub(crate) word: u64,
    pub(crate) head: Option<Vec<u8>>,
    pub(crate) out: Vec<u8>,
}

impl Answer {
    fn is_changed(&self) -> bool {
        self.head.as_ref().is_some_and(|head| is_touched(head)) || is_touched(&self.out)
    }
}

impl fmt::Display for Answer {
    fn fmt<W: fmt::Write>(&self, f: &mut fmt::Formatter<W>) -> fmt::Result {
        let word = self.word;
        if word < REFUSALS {
            write!(f, "done {word} ")?;
            if let Some(head) = &self.head {
                let head = Memory(head);
                write!(f, "{head} ")?;
            }
            let out = Memory(&self.out);
            return write!(f, "{out}");
        }
        // Taken apart as the C interface lays it out: number, first place and second place from bits 40, 16 and 0 on.
        let number = word / REFUSALS;
        let first = word / 0x1_0000 % 0x100_0000;
        let second = word % 0x1_0000;
        write!(f, "refused {number} {first} {second}")?;
        if self.is_changed() {
            write!(f, " changed")?;
        }
        Ok(())
    }
}

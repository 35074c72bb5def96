// A sheet is read: its lines are judged, then the room, and only then is anything written.
ghost use Rattle.answer.specs.Answers.{answer_of};
ghost use Rattle.reading.specs.Answer.{ReadsSheet};

use crate::decode::{put_numbers, take_rows};
use crate::judge::judge_lines;
use crate::lines::read_head;
use answer::Reason;

// Threshold, row count and L, four bytes each.
const HEAD_BYTES: usize = 12;

// The rows of a sheet one after another, and the numbers of its first line.
pub fn read_sheet(text: &[u8], head: &mut [u8], out: &mut [u8]) -> Result<usize, Reason>
    ensures { ReadsSheet text.now head.old out.old (answer_of result) head.new out.new }
{
    let (numbers, lines) = read_head(text).ok_or(Reason::InvalidSheet(0))?;
    judge_lines(lines, &numbers).map_err(Reason::InvalidSheet)?;
    if head.len() < HEAD_BYTES {
        return Err(Reason::NoRoom);
    }
    let count = numbers.rows * (numbers.values + 1);
    if out.len() < count {
        return Err(Reason::NoRoom);
    }
    put_numbers(head, &numbers);
    take_rows(lines, &numbers, out);
    Ok(count)
}

// Rows are combined into the secret: once they are judged, the room for it, and then the values at 0.
ghost use Rattle.std.specs.Prelude.{◌-◌};
ghost use Rattle.answer.specs.Answers.{answer_of};
ghost use Rattle.rows.specs.Combining.{Ready};
ghost use Rattle.sharing.specs.Combine.{Combines, CombinesAccepted};
ghost use Rattle.sharing.specs.ByteLengths.{CombinesByByteLengths};

use answer::Reason;
use row_set::{judge_rows, readable_lengths};
use rows::{Length, Rows};

// Of accepted rows.
fn combine_accepted(rows: &Rows, out: &mut [u8]) -> Result<usize, Reason>
    requires { Ready rows.now.width rows.now.count rows.now.bytes.now }
    ensures { CombinesAccepted (rows.now.width - 1) rows.now.count rows.now.bytes.now out.old (answer_of result) out.new }
{
    let l = rows.width - 1;
    if out.len() < l {
        return Err(Reason::NoRoom);
    }
    rows.combine_rows(&mut out[..l]);
    Ok(l)
}

// The secret of rows that lie one after another and have these lengths.
pub fn combine_bytes<T: Length>(rows: &[u8], lengths: &[T], out: &mut [u8]) -> Result<usize, Reason>
    ensures { Combines rows.now (T.lengths lengths.now) out.old (answer_of result) out.new }
{
    let l = judge_rows(rows, lengths, 1)?;
    let accepted = Rows {
        bytes: rows,
        width: l + 1,
        count: lengths.len(),
    };
    combine_accepted(&accepted, out)
}

// The same for the host, from which the lengths come as bytes, four a row, least first. Its name and its promise stay.
pub fn combine_bytes_by_byte_lengths(
    rows: &[u8],
    lengths: &[u8],
    out: &mut [u8],
) -> Result<usize, Reason>
    ensures { CombinesByByteLengths rows.now lengths.now out.old (answer_of result) out.new }
{
    combine_bytes(rows, readable_lengths(lengths)?, out)
}

// A set of rows is written as a sheet: once the rows are judged, the threshold, the room, and then the text.
ghost use Rattle.std.specs.Prelude.{◌-◌, ◌≤◌};
ghost use Rattle.answer.specs.Answers.{answer_of};
ghost use Rattle.row_set.specs.Limits.{max_secret, max_rows};
ghost use Rattle.sheets.specs.Sheet.{WritesAccepted, WritesSheet};

use crate::head::Head;
use crate::length::sheet_length;
use crate::put::Page;
use answer::Reason;
use rows::Rows;

// Of accepted rows.
fn write_accepted(threshold: usize, rows: &Rows, out: &mut [u8]) -> Result<usize, Reason>
    requires { (rows.now.count ≤ max_rows) × (rows.now.width - 1 ≤ max_secret) }
    ensures { WritesAccepted threshold rows.now.count (rows.now.width - 1) rows.now.bytes.now out.old (answer_of result) out.new }
{
    if threshold < 2 {
        return Err(Reason::SharingMinThreshold);
    }
    if row_set::MAX_SHARES < threshold {
        return Err(Reason::InvalidSizeRequest);
    }
    let head = Head {
        threshold,
        rows: rows.count,
        values: rows.width - 1,
    };
    let n = sheet_length(&head, rows.bytes);
    if out.len() < n {
        return Err(Reason::NoRoom);
    }
    let mut page = Page::new(out);
    page.head(&head);
    page.rows(rows);
    Ok(n)
}

// The sheet of rows that lie one after another; their lengths come as bytes, four a row, least first.
pub fn write_sheet(
    threshold: usize,
    rows: &[u8],
    lengths: &[u8],
    out: &mut [u8],
) -> Result<usize, Reason>
    ensures { WritesSheet threshold rows.now lengths.now out.old (answer_of result) out.new }
{
    let l = row_set::judge_rows_by_byte_lengths(rows, lengths, 0)?;
    let accepted = Rows {
        bytes: rows,
        width: l + 1,
        count: lengths.len() / 4,
    };
    write_accepted(threshold, &accepted, out)
}

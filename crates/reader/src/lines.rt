// The lines of a sheet, at the front of a text.
ghost use Rattle.std.specs.Prelude.{◌≡◌, List, ◌∷◌, ℕ, ◌<◌, ◌≤◌, MatchOption};
ghost use Rattle.sheets.specs.Text.{line_feed};
ghost use Rattle.reading.specs.Unsheet.{not_at, unsheet};
ghost use Rattle.reader.specs.Taking.{FieldRead, NoField, HeadRead, StartRead, NoStart, RowRead, NoRow};

use crate::taking::{all_hex, read_number};
use sheets::Head;

// The number of a field, a tab and digits, where it is in range.
fn read_field(text: &[u8], least: usize, most: usize) -> Option<(usize, &[u8])>
    requires { most < 100000 }
    ensures { MatchOption result (NoField text.now least most) (λ r. FieldRead text.now least most r.0 r.1.now) }
{
    let (n, rest) = read_number(text.strip_prefix(&[sheets::TAB])?)?;
    if n < least || most < n {
        return None;
    }
    Some((n, rest))
}

// The text behind a line feed. This stands out of line, so that the compiler does not judge it together with a row's digits: whether these
// are hex is told by a jump of its own.
#[inline(never)]
fn end_line(text: &[u8]) -> Option<&[u8]>
    ensures { MatchOption result ((rest : List ℕ) → text.now ≡ line_feed ∷ rest → ⊥) (λ r. text.now ≡ line_feed ∷ r.now) }
{
    text.strip_prefix(&[sheets::LINE_FEED])
}

// The numbers of the text's first line, where it begins with a first line of a sheet.
pub fn read_head(text: &[u8]) -> Option<(Head, &[u8])>
    ensures { MatchOption result (unsheet text.now ≡ not_at 0) (λ r. HeadRead text.now r.0.threshold r.0.rows r.0.values r.1.now) }
{
    let text = text.strip_prefix(b"seal")?;
    let (threshold, text) = read_field(text, 2, row_set::MAX_SHARES)?;
    let (rows, text) = read_field(text, 1, row_set::MAX_SHARES)?;
    let (values, text) = read_field(text, 1, row_set::MAX_SECRET)?;
    let text = end_line(text)?;
    let head = Head {
        threshold,
        rows,
        values,
    };
    Some((head, text))
}

// The identifier of a row, where the text begins with a row's line up to its values.
fn read_start(text: &[u8]) -> Option<(usize, &[u8])>
    ensures { MatchOption result (NoStart text.now) (λ r. StartRead text.now r.0 r.1.now) }
{
    let text = text.strip_prefix(b"row")?;
    let (id, text) = read_field(text, 1, row_set::MAX_SHARES)?;
    let text = text.strip_prefix(&[sheets::TAB])?;
    Some((id, text))
}

// The identifier of a row with as many values as the first line says, where the text begins with its line.
pub fn read_row<'a>(text: &'a [u8], head: &Head) -> Option<(usize, &'a [u8])>
    ensures { MatchOption result (NoRow text.now head.now.values) (λ r. RowRead text.now head.now.values r.0 r.1.now) }
{
    let (id, text) = read_start(text)?;
    let (digits, text) = text.split_at_checked(head.values * 2)?;
    if !all_hex(digits) {
        return None;
    }
    let text = end_line(text)?;
    Some((id, text))
}

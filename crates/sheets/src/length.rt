// How long a sheet is, before it is written.
ghost use Rattle.std.specs.Prelude.{◌≡◌, ◌+◌, ◌*◌, ◌<◌, ◌≤◌, length, replicate};
ghost use Rattle.rows.specs.Storage.{cut};
ghost use Rattle.row_set.specs.Limits.{max_secret};
ghost use Rattle.sheets.specs.Text.{decimal};
ghost use Rattle.sheets.specs.Sheet.{head_line, sheet};

use crate::head::Head;

// The count of a number's digits. The numbers of a sheet have at most five.
pub fn decimal_length(n: usize) -> usize
    requires { n < 100000 }
    ensures { (result ≡ length (decimal n)) × (result ≤ 5) }
{
    match n {
        0..=9 => 1,
        10..=99 => 2,
        100..=999 => 3,
        1000..=9999 => 4,
        _ => 5,
    }
}

// Of the first line: its word, three tabs, a line feed, and three numbers.
pub fn head_length(head: &Head) -> usize
    ensures { (result ≡ length (head_line head.now.threshold head.now.rows head.now.values)) × (result ≤ 23) }
{
    decimal_length(head.threshold) + decimal_length(head.rows) + decimal_length(head.values) + 8
}

// Of a row's line with l values: the identifier's digits, two a value, and six more.
pub fn row_length(id: u8, l: usize) -> usize
    requires { l ≤ max_secret }
    ensures { (result ≡ length (decimal id) + 2 * l + 6) × (result ≤ 2 * max_secret + 11) }
{
    decimal_length(usize::from(id)) + 2 * l + 6
}

// Of a sheet with this first line and these rows.
// A sum by a loop: as a `fold` over the rows the check found neither that it fits nor what it is.
pub fn sheet_length(head: &Head, rows: &[u8]) -> usize
    requires { head.now.rows * (head.now.values + 1) ≤ length rows.now }
    ensures { result ≡ length (sheet head.now.threshold head.now.values (cut (replicate head.now.rows (head.now.values + 1)) rows.now)) }
{
    let w = head.values + 1;
    let mut n = head_length(head);
    for row in rows[..head.rows * w].chunks_exact(w) {
        n += row_length(row[0], head.values);
    }
    n
}

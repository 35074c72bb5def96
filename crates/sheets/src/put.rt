// A text is put into an output piece by piece, each behind the one before. A row's values are secret: their digits are made without a
// branch or an index.
ghost use Rattle.std.specs.Prelude.{◌≡◌, [], ◌∷◌, ◌*◌, ◌<◌, length, replicate};
ghost use Rattle.rows.specs.Storage.{cut};
ghost use Rattle.sheets.specs.Text.{tab, digit as digitOf, decimal, hex_digit, hex};
ghost use Rattle.sheets.specs.Sheet.{head_line, row_line, row_lines};
ghost use Rattle.sheets.specs.Writing.{HasRoom, Adds};

use crate::head::Head;
use rows::Rows;

pub const TAB: u8 = b'\t';

pub const LINE_FEED: u8 = b'\n';

// The digit of a number under 10.
fn digit(d: usize) -> u8
    requires { d < 10 }
    ensures { result ≡ digitOf d }
{
    b'0' + (d as u8)
}

// The lower-case digit of a number under 16: those from 10 on stand 39 further than the others.
fn hex_digit(d: u8) -> u8
    requires { d < 16 }
    ensures { result ≡ hex_digit d }
{
    b'0' + d + (d + 6) / 16 * 39
}

// Bytes in hex, two digits each.
// By index: of a slice that is lent in pairs, as by `as_chunks_mut`, std does not say what it ends as.
fn write_hex(out: &mut [u8], values: &[u8])
    requires { length out.old ≡ length values.now * 2 }
    ensures { out.new ≡ hex values.now }
{
    for (k, b) in values.iter().enumerate() {
        out[k * 2] = hex_digit(*b / 16);
        out[k * 2 + 1] = hex_digit(*b % 16);
    }
}

// An output that is written up to a place.
// A slice and a place in it: the C interface lends the output, and the library has no heap.
#[derive(Drop)]
pub struct Page<'a> {
    out: &'a mut [u8],
    end: usize,
}

impl<'a> Page<'a> {
    pub fn new(out: &'a mut [u8]) -> Page<'a>
        ensures same { result.out.ghost_name ≡ out.entry.ghost_name }
        ensures held { result.out.now ≡ out.old }
        ensures at_front { result.end ≡ 0 }
    {
        Page { out, end: 0 }
    }

    fn byte(&mut self, b: u8)
        requires { HasRoom (b ∷ []) self.old }
        ensures { Adds (b ∷ []) self.old self.new }
    {
        self.out[self.end] = b;
        self.end += 1;
    }

    fn word(&mut self, word: &[u8])
        requires { HasRoom word.now self.old }
        ensures { Adds word.now self.old self.new }
    {
        let next = self.end + word.len();
        self.out[self.end..next].copy_from_slice(word);
        self.end = next;
    }

    // A number: its tenth first, where that is not 0, then its last digit.
    fn decimal(&mut self, n: usize)
        requires { HasRoom (decimal n) self.old }
        ensures { Adds (decimal n) self.old self.new }
    {
        if n < 10 {
            return self.byte(digit(n));
        }
        self.decimal(n / 10);
        self.byte(digit(n % 10));
    }

    // A tab, and a number: a field of a line.
    fn number(&mut self, n: usize)
        requires { HasRoom (tab ∷ decimal n) self.old }
        ensures { Adds (tab ∷ decimal n) self.old self.new }
    {
        self.byte(TAB);
        self.decimal(n);
    }

    fn hex(&mut self, values: &[u8])
        requires { HasRoom (hex values.now) self.old }
        ensures { Adds (hex values.now) self.old self.new }
    {
        let next = self.end + values.len() * 2;
        write_hex(&mut self.out[self.end..next], values);
        self.end = next;
    }

    // A row's line.
    fn row(&mut self, row: &[u8])
        requires { (0 < length row.now) × HasRoom (row_line row.now) self.old }
        ensures { Adds (row_line row.now) self.old self.new }
    {
        self.word(b"row");
        // `as` and no `From`: with it the proof of the line did not close.
        self.number(row[0] as usize);
        self.byte(TAB);
        self.hex(&row[1..]);
        self.byte(LINE_FEED);
    }

    // The lines of rows.
    pub fn rows(&mut self, rows: &Rows)
        requires { HasRoom (row_lines (cut (replicate rows.now.count rows.now.width) rows.now.bytes.now)) self.old }
        ensures { Adds (row_lines (cut (replicate rows.now.count rows.now.width) rows.now.bytes.now)) self.old self.new }
    {
        for row in rows.bytes[..rows.count * rows.width].chunks_exact(rows.width) {
            self.row(row);
        }
    }

    // The first line.
    pub fn head(&mut self, head: &Head)
        requires { HasRoom (head_line head.now.threshold head.now.rows head.now.values) self.old }
        ensures { Adds (head_line head.now.threshold head.now.rows head.now.values) self.old self.new }
    {
        self.word(b"seal");
        self.number(head.threshold);
        self.number(head.rows);
        self.number(head.values);
        self.byte(LINE_FEED);
    }
}

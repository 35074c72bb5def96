// What was found right is decoded. A row's values are secret: their digits are read without a branch or an index.
ghost use Rattle.std.specs.Prelude.{◌≡◌, ◌++◌, ◌+◌, ◌*◌, ◌<◌, ◌≤◌, ◌^◌, length, drop};
ghost use Rattle.shamir.specs.Lists.{All};
ghost use Rattle.rows.specs.Lengths.{four_bytes};
ghost use Rattle.sheets.specs.ReadAs.{IsHexDigit, unhex_digit, unhex};
ghost use Rattle.reader.specs.Taking.{SomeRow, TakesRow, SomeRows, TakesRows};

use crate::taking::read_number;
use sheets::Head;

// The value of a digit of hex: the letters follow on the digits 9 further.
fn hex_value(c: u8) -> u8
    requires { IsHexDigit c }
    ensures { (result ≡ unhex_digit c) × (result < 16) }
{
    c % 16 + c / 64 * 9
}

// The bytes of digits, two a byte.
fn take_hex(digits: &[u8], out: &mut [u8])
    requires { (length digits.now ≡ length out.old * 2) × All IsHexDigit digits.now }
    ensures { out.new ≡ unhex digits.now }
{
    // By place, as in `rows`: after a zip of iter_mut a proof knows no element.
    for (k, byte) in out.iter_mut().enumerate() {
        *byte = hex_value(digits[k * 2]) * 16 + hex_value(digits[k * 2 + 1]);
    }
}

// A row's word and a tab.
const BEFORE_IDENTIFIER: usize = 4;

// The row whose line begins a text, one value more than the output has room for behind its identifier. Gives the text behind the line.
fn take_row<'a>(text: &'a [u8], l: usize, out: &mut [u8]) -> &'a [u8]
    requires { SomeRow text.now l × (length out.old ≡ l + 1) }
    ensures { TakesRow text.now l out.new result.now }
{
    // The line is right: its word, its tabs and its line feed are passed over unread.
    let (id, values) = read_number(&text[BEFORE_IDENTIFIER..]).unwrap();
    let (digits, rest) = values[1..].split_at(l * 2);
    out[0] = id as u8;
    take_hex(digits, &mut out[1..]);
    &rest[1..]
}

// The rows of a text that is their lines, at the front of the output.
pub fn take_rows(text: &[u8], head: &Head, out: &mut [u8])
    requires { SomeRows text.now head.now.rows head.now.values × (head.now.rows * (head.now.values + 1) ≤ length out.old) }
    ensures { TakesRows text.now head.now.rows head.now.values out.old out.new }
{
    let w = head.values + 1;
    let mut rest = text;
    // By place: of the parts that chunks_exact_mut lends a proof knows their length alone.
    for i in 0..head.rows {
        let p = i * w;
        let q = p + w;
        rest = take_row(rest, head.values, &mut out[p..q]);
    }
}

// A number in four bytes, least first.
fn put_four(out: &mut [u8], n: usize)
    requires { (n < 2 ^ 32) × (length out.old ≡ 4) }
    ensures { out.new ≡ four_bytes n }
{
    out.copy_from_slice(&(n as u32).to_le_bytes());
}

// The numbers of a first line, at the front.
pub fn put_numbers(out: &mut [u8], head: &Head)
    requires { 12 ≤ length out.old }
    ensures { out.new ≡ four_bytes head.now.threshold ++ four_bytes head.now.rows ++ four_bytes head.now.values ++ drop 12 out.old }
{
    put_four(&mut out[0..4], head.threshold);
    put_four(&mut out[4..8], head.rows);
    put_four(&mut out[8..12], head.values);
}

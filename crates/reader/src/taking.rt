// What a text begins with: a number, digits of hex. What gives something gives it with the rest of the text behind it, and None where
// there is none.
ghost use Rattle.std.specs.Prelude.{◌≡◌, ◌↔◌, IsTrue, MatchOption};
ghost use Rattle.shamir.specs.Lists.{All};
ghost use Rattle.sheets.specs.ReadAs.{IsHexDigit};
ghost use Rattle.reader.specs.Taking.{NumberRead, NoNumber, is_hex_digit};

// The numbers of a sheet have at most so many digits.
const MOST_DIGITS: usize = 5;

// The number that a text begins with. Digits with zeros in front are none.
pub fn read_number(text: &[u8]) -> Option<(usize, &[u8])>
    ensures { MatchOption result (NoNumber text.now) (λ r. NumberRead text.now r.0 r.1.now) }
{
    let mut n = 0;
    let mut k = 0;
    for c in &text[..text.len().min(MOST_DIGITS)] {
        if !c.is_ascii_digit() {
            break;
        }
        // `as` and no `From`: with it the proof of the digits did not close.
        n = n * 10 + (*c - b'0') as usize;
        k += 1;
    }
    if sheets::decimal_length(n) != k {
        return None;
    }
    Some((n, &text[k..]))
}

// Whether it is a digit of lower-case hex. A row's values are secret: nothing here or in `all_hex` branches on a digit, and what is told
// of them is told of all together.
fn is_hex_digit(c: u8) -> bool
    ensures { result ≡ is_hex_digit c }
{
    (b'0' <= c) & (c <= b'9') | (b'a' <= c) & (c <= b'f')
}

// Whether all are.
pub fn all_hex(digits: &[u8]) -> bool
    ensures { IsTrue result ↔ All IsHexDigit digits.now }
{
    digits.iter().fold(true, |all, c| all & is_hex_digit(*c))
}

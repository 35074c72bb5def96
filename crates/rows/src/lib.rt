// Checks of rows that lie one after another in flat storage, and the secret that they share.
#![tactic(auto)]

ghost use Rattle.std.specs.Prelude.{◌≡◌, ℕ, List, refl, true, cond, ◌+◌, ◌*◌, ◌/◌, ◌<◌, ◌≤◌, eqb, length, get_or, drop};
ghost use mathlib.Core.List.{foldr, map, zip_with};
ghost use Rattle.std.specs.Int.Bits.{bit_xor};
ghost use Rattle.gf256.specs.Field256.{mul256, inv256, gf256};
ghost use Rattle.shamir.specs.Lists.{Distinct, Fresh};
ghost use Rattle.shamir.specs.Polynomial.{others, weight};
ghost use Rattle.shamir.specs.Rows.{combined};
ghost use Rattle.rows.specs.Search.{sum, all_are, place_of, IsFound, first_repeated, first_repeating};
ghost use Rattle.strides.specs.Strides.{strided};
ghost use Rattle.rows.specs.Storage.{values};
ghost use Rattle.rows.specs.Lengths.{four_of, lengths_of};
ghost use Rattle.std.proofs.Common.{sym};
ghost use Rattle.std.proofs.lemmas.List.{map-id};
ghost use Rattle.rows.specs.Combining.{Ready, plus_times, plus_rows};

// Bytes, and those that identifiers can be: all but 0.
pub const BYTES: usize = 256;

const IDENTIFIERS: usize = BYTES - 1;

// The length of a row: a number, or four bytes of one, least first.
pub trait Length: Copy {
    // What it says, and what a list of lengths says.
    ghost value: { Self → ℕ };

    ghost lengths: { List Self → List ℕ };

    fn value(self) -> u32
        ensures { result ≡ value self };

    ghost each: { (ls : List Self) → lengths ls ≡ map value ls };
}

impl Length for u32 {
    ghost value = { λ n. n };

    ghost lengths = { λ ns. ns };

    ghost each = { λ ns. sym (map-id ns) };

    fn value(self) -> u32 {
        self
    }
}

impl Length for [u8; 4] {
    ghost value = { four_of };

    ghost lengths = { map four_of };

    ghost each = { λ ls. refl };

    fn value(self) -> u32 {
        u32::from_le_bytes(self)
    }
}

// Whether the lengths sum to n. They are taken off n one by one, so that no sum grows beyond it.
pub fn sums_to<T: Length>(lengths: &[T], n: usize) -> bool
    ensures { result ≡ eqb (sum (T.lengths lengths.now)) n }
{
    let mut rest = n;
    for given in lengths {
        let Some(less) = rest.checked_sub(given.value() as usize) else {
            return false;
        };
        rest = less;
    }
    rest == 0
}

// Whether each length is w.
pub fn all_are<T: Length>(lengths: &[T], w: u32) -> bool
    ensures { result ≡ all_are w (T.lengths lengths.now) }
{
    lengths.iter().all(|l| l.value() == w)
}

// The lengths that come as bytes, four a row, as many as are whole. They are read where they lie, which spares a list of them.
pub fn byte_lengths(bytes: &[u8]) -> &[[u8; 4]]
    ensures lengths { map four_of result.now ≡ lengths_of bytes.now }
    ensures count { length result.now ≡ length bytes.now / 4 }
{
    bytes.as_chunks().0
}

// Rows that lie one after another, so many of one width, each its identifier and then its values.
#[derive(Clone, Copy)]
pub struct Rows<'a> {
    pub bytes: &'a [u8],
    pub width: usize,
    pub count: usize,
    pub ghost some: { 0 < width },
    pub ghost stored: { count * width ≤ length bytes.now },
}

impl Rows<'_> {
    ghost use Rattle.rows.specs.Identifiers.{row_ids, row_list};

    // The identifier of row i.
    pub fn identifier(&self, i: usize) -> u8
        requires { i < self.now.count }
        ensures { result ≡ get_or (row_ids self.now) i 0 }
    {
        self.bytes[i * self.width]
    }

    // The first row from a place on whose identifier is x.
    pub fn find(&self, x: u8, from: usize) -> Option<usize>
        requires { from ≤ self.now.count }
        ensures { IsFound result (from + place_of x (drop from (row_ids self.now))) self.now.count }
    {
        (from..self.count).find(|i| self.identifier(*i) == x)
    }

    // Refusal 7: its second place, the first row whose identifier was met before. One pass, with a mark for each identifier that
    // was met: it ends by row 256 at the latest, since there are no more bytes.
    pub fn first_repeating(&self) -> Option<usize>
        ensures { IsFound result (first_repeating (row_ids self.now)) self.now.count }
    {
        let mut seen = [false; BYTES];
        // A loop: marks are set as it goes, and an iterator is no plainer.
        for j in 0..self.count {
            let x = usize::from(self.identifier(j));
            if seen[x] {
                return Some(j);
            }
            seen[x] = true;
        }
        None
    }

    // .. and its first place, once the second is found: where that identifier stands first.
    pub fn first_repeated(&self, j: usize) -> usize
        requires { (j < self.now.count) × (j ≡ first_repeating (row_ids self.now)) }
        ensures { result ≡ first_repeated (row_ids self.now) }
    {
        self.find(self.identifier(j), 0).unwrap()
    }

    // The values of the rows in turn, each row's times its coefficient, to what is summed so far.
    fn add_rows(&self, out: &mut [u8], coefficients: &[u8])
        requires { (length coefficients.now ≡ self.now.count) × (self.now.width ≡ length out.old + 1) }
        ensures { out.new ≡ plus_rows self.now.width coefficients.now self.now.bytes.now out.old }
    {
        let rows = &self.bytes[..self.count * self.width];
        for (row, c) in rows.chunks_exact(self.width).zip(coefficients) {
            add_scaled(out, &row[1..], *c);
        }
    }

    // The bytes that hold them. Handed out by a call they are known to be bytes, so that combine_rows is sure of its arrays.
    fn storage(&self) -> &[u8]
        ensures { result.now ≡ self.now.bytes.now }
    {
        self.bytes
    }

    // The secret of rows that are each one byte longer than it. Rows with distinct identifiers, none of them 0, are at most 255.
    pub fn combine_rows(&self, out: &mut [u8])
        requires { (self.now.width ≡ length out.old + 1) × Ready self.now.width self.now.count self.now.bytes.now }
        ensures { out.new ≡ combined gf256 0 (row_ids self.now) (values (row_list self.now)) (length out.old) }
    {
        let bytes = self.storage();
        // Arrays: the library has no heap.
        let mut ids = [0u8; IDENTIFIERS];
        let mut coefficients = [0u8; IDENTIFIERS];
        let ids = &mut ids[..self.count];
        let coefficients = &mut coefficients[..self.count];
        strides::gather(bytes, self.width, 0, ids);
        lagrange_coefficients(coefficients, ids);
        out.fill(0);
        self.add_rows(out, coefficients);
    }
}

fn product(xs: &[u8]) -> u8
    ensures { result ≡ foldr mul256 1 xs.now }
{
    xs.iter().fold(1, |p, x| gf256::gf256_mul(*x, p))
}

// Each d times the difference of its x and a, where they differ. Choosing the factor, and not whether to multiply, lets the
// compiler do many at once.
fn times_differences(ds: &mut [u8], xs: &[u8], a: u8)
    requires { length ds.old ≡ length xs.now }
    ensures { ds.new ≡ zip_with (λ d x. cond (eqb a x) d (mul256 d (bit_xor x a))) ds.old xs.now }
{
    // By place: after a zip of iter_mut a proof knows no element.
    for (k, d) in ds.iter_mut().enumerate() {
        let x = xs[k];
        let f = if a == x { 1 } else { x ^ a };
        *d = gf256::gf256_mul(*d, f);
    }
}

// Each d times the differences of its x and the others.
fn denominators(ds: &mut [u8], xs: &[u8])
    requires { length ds.old ≡ length xs.now }
    ensures { ds.new ≡ zip_with (λ d x. mul256 d (others gf256 x x xs.now)) ds.old xs.now }
{
    for a in xs {
        times_differences(ds, xs, *a);
    }
}

// p over each d.
fn divide_into(ds: &mut [u8], p: u8)
    ensures { ds.new ≡ map (λ d. mul256 (inv256 d) p) ds.old }
{
    for d in ds.iter_mut() {
        *d = gf256::gf256_mul(gf256::gf256_inverse(*d), p);
    }
}

// The coefficient of each identifier x for the value at 0: the product of all of them, over x times its differences.
pub fn lagrange_coefficients(coefficients: &mut [u8], ids: &[u8])
    requires { (length coefficients.old ≡ length ids.now) × Distinct ids.now × Fresh 0 ids.now }
    ensures { coefficients.new ≡ map (weight gf256 0 ids.now) ids.now }
{
    coefficients.copy_from_slice(ids);
    denominators(coefficients, ids);
    let p = product(ids);
    divide_into(coefficients, p);
}

// A row's values, times its coefficient, to what is summed so far. The values are secret and the coefficient is not.
fn add_scaled(out: &mut [u8], row: &[u8], c: u8)
    requires { length out.old ≡ length row.now }
    ensures { out.new ≡ plus_times c out.old row.now }
{
    // By place: after a zip of iter_mut a proof knows no element.
    for (k, o) in out.iter_mut().enumerate() {
        *o ^= gf256::gf256_mul(row[k], c);
    }
}

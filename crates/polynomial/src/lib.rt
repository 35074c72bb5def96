// A row's values: for each byte of a secret its polynomial, evaluated at the row's identifier.
// The work runs along neighbouring bytes with one public factor, which the compiler does many bytes at a time. No branch and no
// index depends on a byte of the secret or on a coefficient; in the product they are the first operand.
#![tactic(auto)]

ghost use Rattle.std.specs.Prelude.{◌≡◌, ◌-◌, ◌*◌, ◌<◌, ◌≤◌, length, take, drop};
ghost use Rattle.shamir.specs.Rows.{row};
ghost use Rattle.gf256.specs.Field256.{gf256};
ghost use Rattle.polynomial.specs.Steps.{horner_step, block_size};

// The most bytes that are evaluated at once.
const BLOCK: usize = 64;

// The polynomials of a secret's bytes: each byte, and behind it its run of k coefficients, at least one.
#[derive(Clone, Copy)]
pub struct Polynomials<'a> {
    pub secret: &'a [u8],
    pub coefficients: &'a [u8],
    pub k: usize,
    pub ghost some: { 0 < k },
    pub ghost enough: { length secret.now * k ≤ length coefficients.now },
}

// One step of Horner's rule along the values.
fn horner_step(vs: &mut [u8], x: u8, column: &[u8])
    requires { length column.now ≡ length vs.old }
    ensures { vs.new ≡ horner_step x vs.old column.now }
{
    // By place: after a zip of iter_mut a proof knows no element.
    for (i, v) in vs.iter_mut().enumerate() {
        *v = gf256::gf256_mul(*v, x) ^ column[i];
    }
}

impl Polynomials<'_> {
    // Of the bytes of the secret from b to e.
    fn part(&self, b: usize, e: usize) -> Polynomials<'_>
        requires { (b ≤ e) × (e ≤ length self.now.secret.now) }
        ensures secret { result.secret.now ≡ take (e - b) (drop b self.now.secret.now) }
        ensures coefficients { result.coefficients.now ≡ drop (b * self.now.k) self.now.coefficients.now }
        ensures k { result.k ≡ self.now.k }
    {
        let from = b * self.k;
        Polynomials {
            secret: &self.secret[b..e],
            coefficients: &self.coefficients[from..],
            k: self.k,
        }
    }

    // The values at x of at most a block of bytes: from the top coefficient down, the byte of the secret last.
    fn evaluate_in_place(&self, x: u8, vs: &mut [u8])
        requires { (length vs.old ≡ length self.now.secret.now) × (length self.now.secret.now ≤ block_size) }
        ensures { vs.new ≡ row gf256 self.now.k x self.now.secret.now self.now.coefficients.now }
    {
        // An array: the library has no heap.
        let mut column = [0u8; BLOCK];
        let w = self.secret.len();
        strides::gather(self.coefficients, self.k, self.k - 1, vs);
        for degree in (0..self.k - 1).rev() {
            strides::gather(self.coefficients, self.k, degree, &mut column[..w]);
            horner_step(vs, x, &column[..w]);
        }
        horner_step(vs, x, self.secret);
    }

    // The values of the row at x, block by block.
    pub fn evaluate_row(&self, x: u8, vs: &mut [u8])
        requires { length vs.old ≡ length self.now.secret.now }
        ensures { vs.new ≡ row gf256 self.now.k x self.now.secret.now self.now.coefficients.now }
    {
        // The values by place: of what chunks_mut lends a proof knows the length alone. The secret by chunks: by steps of a range each
        // block costs more before its first byte, and a key of 16 bytes with threshold 2 takes a quarter longer.
        let mut b = 0;
        for block in self.secret.chunks(BLOCK) {
            let e = b + block.len();
            self.part(b, e).evaluate_in_place(x, &mut vs[b..e]);
            b = e;
        }
    }
}

// The byte field of FIPS 197 and the identifiers of rows, as methods on values.
#![tactic(auto)]

ghost use Rattle.std.specs.Prelude.{◌≡◌, ◌*◌};
ghost use Rattle.std.specs.Int.Bits.{bit_xor};
ghost use Rattle.util.specs.Small.{bounded_add};
ghost use Rattle.util.specs.Zero.{is_zero};
ghost use Rattle.poly2.specs.Poly2.{reduce};
ghost use Rattle.gf256.specs.Field256.{modulus, mul256, inv256};
ghost use Rattle.gf256.specs.Answers.{gf256_answer_of, identifier_answer_of, inverse_outcome, quotient_outcome, slice_outcome};

use answer::Reason;
use util::CtIsZero;

// The product with x, FIPS 197's xtime: shifted, and 0x1b for the bit that the shift drops.
fn xtime(a: u8) -> u8
    ensures { result ≡ reduce 8 modulus (a * 2) }
{
    a << 1 ^ (a >> 7) * 0x1b
}

// The product: the sum of a x^i for each bit i that is set in b.
// The compiler may branch on the bits of b, so that a secret belongs in a.
pub fn gf256_mul(a: u8, b: u8) -> u8
    ensures { result ≡ mul256 a b }
{
    let mut r = 0;
    let mut x = a;
    for i in 0..8u8 {
        r ^= (b >> i & 1) * x;
        x = xtime(x);
    }
    r
}

// The square, which takes x^i to x^(2i): the low four bits move, the high four give x^8, x^10, x^12 and x^14, reduced.
fn gf256_square(a: u8) -> u8
    ensures { result ≡ mul256 a a }
{
    (a & 1)
        ^ (a & 2) << 1
        ^ (a & 4) << 2
        ^ (a & 8) << 3
        ^ (a >> 4 & 1) * 0x1b
        ^ (a >> 5 & 1) * 0x6c
        ^ (a >> 6 & 1) * 0xab
        ^ (a >> 7) * 0x9a
}

// The inverse, and 0 for 0: the 254th power. Without a loop, so that a loop over many bytes does them side by side.
// 0 and no Option for 0: `inv256` in the contract holds it, and layers above need no case where they know that it is not 0.
pub fn gf256_inverse(a: u8) -> u8
    ensures { result ≡ inv256 a }
{
    let a2 = gf256_square(a);
    let a3 = gf256_mul(a, a2);
    let a6 = gf256_square(a3);
    let a12 = gf256_square(a6);
    let a15 = gf256_mul(a3, a12);
    let a30 = gf256_square(a15);
    let a60 = gf256_square(a30);
    let a120 = gf256_square(a60);
    let a240 = gf256_square(a120);
    let a252 = gf256_mul(a12, a240);
    gf256_mul(a2, a252)
}

// An element of the field.
#[derive(Clone, Copy)]
pub struct Gf256(pub u8);

impl Gf256 {
    pub const ZERO: Gf256 = Gf256(0);

    pub const ONE: Gf256 = Gf256(1);

    pub fn zero() -> Gf256
        ensures { result.0 ≡ 0 }
    {
        Gf256::ZERO
    }

    pub fn one() -> Gf256
        ensures { result.0 ≡ 1 }
    {
        Gf256::ONE
    }

    pub fn add(self, other: Gf256) -> Gf256
        ensures { result.0 ≡ bit_xor self.0 other.0 }
    {
        Gf256(self.0 ^ other.0)
    }

    pub fn sub(self, other: Gf256) -> Gf256
        ensures { result.0 ≡ bit_xor self.0 other.0 }
    {
        self.add(other)
    }

    pub fn neg(self) -> Gf256
        ensures { result.0 ≡ self.0 }
    {
        Gf256(self.0)
    }

    pub fn mul(self, other: Gf256) -> Gf256
        ensures { result.0 ≡ mul256 self.0 other.0 }
    {
        Gf256(gf256_mul(self.0, other.0))
    }

    pub fn square(self) -> Gf256
        ensures { result.0 ≡ mul256 self.0 self.0 }
    {
        Gf256(gf256_square(self.0))
    }

    pub fn double(self) -> Gf256
        ensures { result.0 ≡ bit_xor self.0 self.0 }
    {
        self.add(self)
    }

    // 1 for zero, and else 0, with no branch. A byte and no bool: it stands for the crate's `Choice`, and nothing branches on it.
    pub fn is_zero(self) -> u8
        ensures { result ≡ is_zero self.0 }
    {
        self.0.ct_is_zero()
    }

    pub fn invert(self) -> Result<Gf256, Reason>
        ensures { gf256_answer_of result ≡ inverse_outcome self.0 }
    {
        if self.0 == 0 {
            Err(Reason::InvalidShareElement)
        } else {
            Ok(Gf256(gf256_inverse(self.0)))
        }
    }

    pub fn div(self, other: Gf256) -> Result<Gf256, Reason>
        ensures { gf256_answer_of result ≡ quotient_outcome self.0 other.0 }
    {
        Ok(self.mul(other.invert()?))
    }
}

// The identifier of a row: an element that is counted up as a number. What it has of an element it hands on under the crate's names:
// a trait for both would have the byte and the meaning of an answer as ghost members, and four bodies for each type all the same.
#[derive(Clone, Copy)]
pub struct IdentifierGf256(pub Gf256);

impl IdentifierGf256 {
    pub const ZERO: IdentifierGf256 = IdentifierGf256(Gf256(0));

    pub const ONE: IdentifierGf256 = IdentifierGf256(Gf256(1));

    pub fn zero() -> IdentifierGf256
        ensures { result.0.0 ≡ 0 }
    {
        IdentifierGf256::ZERO
    }

    pub fn one() -> IdentifierGf256
        ensures { result.0.0 ≡ 1 }
    {
        IdentifierGf256::ONE
    }

    pub fn from_slice(slice: &[u8]) -> Result<IdentifierGf256, Reason>
        ensures { identifier_answer_of result ≡ slice_outcome slice.now }
    {
        let [byte] = *slice else {
            return Err(Reason::InvalidShareElement);
        };
        Ok(IdentifierGf256(Gf256(byte)))
    }

    // A byte and no bool, as at an element.
    pub fn is_zero(self) -> u8
        ensures { result ≡ is_zero self.0.0 }
    {
        self.0.is_zero()
    }

    // The sum as numbers, and 0 past 255. 0 and no Option there: the crate has it so, and `bounded_add` in the contract holds it.
    pub fn inc(self, increment: IdentifierGf256) -> IdentifierGf256
        ensures { result.0.0 ≡ bounded_add self.0.0 increment.0.0 256 }
    {
        IdentifierGf256(Gf256(util::field_bounded_add(self.0.0, increment.0.0, 256)))
    }

    pub fn invert(self) -> Result<IdentifierGf256, Reason>
        ensures { identifier_answer_of result ≡ inverse_outcome self.0.0 }
    {
        Ok(IdentifierGf256(self.0.invert()?))
    }
}

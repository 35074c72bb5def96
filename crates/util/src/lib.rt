// Document 01's modules 1 and 2: the zero tests, which stand in a crate below, the bounded sum and the sampler.
#![tactic(auto)]

ghost use Rattle.std.specs.Prelude.{◌≡◌};
ghost use Rattle.util.specs.Small.{bounded_add, uniform_nonzero};

use signs::TwosComplement;
pub use zero::CtIsZero;

// a + b where it is below the field's size, else 0; 0 for a size above 256.
// 0 and no Option where the sum is too large: the crate has it so, and `bounded_add` in the contract holds it.
pub fn field_bounded_add(a: u8, b: u8, field_size: u16) -> u8
    ensures { result ≡ bounded_add a b field_size }
{
    let sum = u16::from(a) + u16::from(b);
    let in_range = (sum < field_size) & (field_size <= 256);
    ((sum & 255) as u8) & u8::from(in_range).negated()
}

// A word mod the modulus, plus 1; 0 for a modulus outside 1 to 255. The name is the crate's.
// 0 and no Option for such a modulus: `uniform_nonzero` in the contract holds it, and 0 is plainly no identifier.
pub fn uniform_nonzero_u8(bits: u32, modulus: u32) -> u8
    ensures { result ≡ uniform_nonzero bits modulus }
{
    if (1..=255).contains(&modulus) {
        (bits % modulus + 1) as u8
    } else {
        0
    }
}

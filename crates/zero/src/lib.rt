// Document 01's module 1: the zero tests.
#![tactic(auto)]

ghost use Rattle.std.specs.Prelude.{◌≡◌, refl, ℕ, ◌-◌, pos, ◌+ℤ◌, neg_ℤ};
ghost use Rattle.zero.specs.Zero.{is_zero, int_is_zero, is_zero_bytes, is_not_zero, int_is_not_zero, is_not_zero_bytes};

use signs::TwosComplement;

/// A value that is tested for being zero, without a branch on it. The answers are bytes and no bools: they stand for the crate's
/// `Choice`, and nothing branches on them.
pub trait CtIsZero {
    // The two answers, and that each is the other turned round.
    ghost zero_bit: { Self → ℕ };

    ghost nonzero_bit: { Self → ℕ };

    ghost turned: { (x : Self) → nonzero_bit x ≡ 1 - zero_bit x };

    /// -1, all bits set, where the value is not zero, else 0: plus one it is the one answer, negated it is the other.
    fn nonzero_mask(&self) -> i8
        ensures plus_one { result +ℤ pos 1 ≡ pos (zero_bit self.now) }
        ensures negated { neg_ℤ result ≡ pos (1 - zero_bit self.now) };

    /// 1 where the value is zero, else 0.
    fn ct_is_zero(&self) -> u8
        ensures { result ≡ zero_bit self.now }
    {
        (self.nonzero_mask() + 1) as u8
    }

    /// 1 where the value is not zero, else 0.
    fn ct_is_not_zero(&self) -> u8
        ensures { result ≡ nonzero_bit self.now }
    {
        self.nonzero_mask().negated() as u8
    }
}

// A signed number joined with its wrapped negative, and the sign shifted down.
impl CtIsZero for i8 {
    ghost zero_bit = { int_is_zero };

    ghost nonzero_bit = { int_is_not_zero };

    ghost turned = { λ x. refl };

    fn nonzero_mask(&self) -> i8 {
        (*self | self.negated()) >> 7
    }
}

impl CtIsZero for i16 {
    ghost zero_bit = { int_is_zero };

    ghost nonzero_bit = { int_is_not_zero };

    ghost turned = { λ x. refl };

    fn nonzero_mask(&self) -> i8 {
        ((*self | self.negated()) >> 15) as i8
    }
}

// A number from 0 up goes by the signed number that has its bits.
impl CtIsZero for u8 {
    ghost zero_bit = { is_zero };

    ghost nonzero_bit = { is_not_zero };

    ghost turned = { λ x. refl };

    fn nonzero_mask(&self) -> i8 {
        let signed: i8 = self.cast();
        signed.nonzero_mask()
    }
}

impl CtIsZero for u16 {
    ghost zero_bit = { is_zero };

    ghost nonzero_bit = { is_not_zero };

    ghost turned = { λ x. refl };

    fn nonzero_mask(&self) -> i8 {
        let signed: i16 = self.cast();
        signed.nonzero_mask()
    }
}

// All bytes joined: 0 where each of them is.
impl CtIsZero for &[u8] {
    ghost zero_bit = { λ s. is_zero_bytes s.now };

    ghost nonzero_bit = { λ s. is_not_zero_bytes s.now };

    ghost turned = { λ s. refl };

    fn nonzero_mask(&self) -> i8 {
        let mut t = 0u8;
        for b in *self {
            t |= *b;
        }
        t.nonzero_mask()
    }
}

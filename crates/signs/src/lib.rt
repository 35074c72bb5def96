// Two's complement without a branch: bits read as a signed number, a signed number's bits, zero minus a number.
// std's `cast_signed` and `cast_unsigned` branch on the value; its `wrapping_neg` does not.
#![tactic(auto)]

ghost use Rattle.std.specs.Prelude.{◌≡◌};
ghost use Rattle.std.specs.Int.{w8, w16};
ghost use Rattle.std.proofs.Common.{to_z, of_z};
ghost use Rattle.signs.specs.Wrap.{wrapped_neg, int_wrapped_neg};

/// A number of two's complement, signed or from 0 up.
pub trait TwosComplement: Copy {
    /// The type of the same width, signed where this one is not.
    type Twin;

    ghost same_bits: { Self → Self.Twin };

    ghost negative: { Self → Self };

    /// The number of the other type that has the same bits.
    fn cast(self) -> Self::Twin
        ensures { result ≡ same_bits self };

    /// Zero minus the number, wrapped: the lowest number is its own negative.
    fn negated(self) -> Self
        ensures { result ≡ negative self };
}

impl TwosComplement for u8 {
    type Twin = i8;

    ghost same_bits = { to_z w8 };

    ghost negative = { wrapped_neg w8 };

    // 256 less where the top bit is set.
    fn cast(self) -> i8 {
        let top = i16::from(self >> 7);
        (i16::from(self) - (top << 8)) as i8
    }

    fn negated(self) -> u8 {
        u8::wrapping_neg(self)
    }
}

impl TwosComplement for i8 {
    type Twin = u8;

    ghost same_bits = { of_z w8 };

    ghost negative = { int_wrapped_neg w8 };

    fn cast(self) -> u8 {
        (i16::from(self) & 255) as u8
    }

    fn negated(self) -> i8 {
        i8::wrapping_neg(self)
    }
}

impl TwosComplement for u16 {
    type Twin = i16;

    ghost same_bits = { to_z w16 };

    ghost negative = { wrapped_neg w16 };

    // 65536 less where the top bit is set.
    fn cast(self) -> i16 {
        let top = i32::from(self >> 15);
        (i32::from(self) - (top << 16)) as i16
    }

    fn negated(self) -> u16 {
        u16::wrapping_neg(self)
    }
}

impl TwosComplement for i16 {
    type Twin = u16;

    ghost same_bits = { of_z w16 };

    ghost negative = { int_wrapped_neg w16 };

    fn cast(self) -> u16 {
        (i32::from(self) & 65535) as u16
    }

    fn negated(self) -> i16 {
        i16::wrapping_neg(self)
    }
}

// Runs document 01's sampler values, which are run and not proved, with the corner cases of the zero tests and of the bounded sum.
#![tactic(auto)]

use std::io;
use util::{CtIsZero, field_bounded_add, uniform_nonzero_u8};

fn main(rt: HostRuntime) -> io::Result<()> {
    let none: &[u8] = &[];
    let values = [
        ("word 254 of 255", uniform_nonzero_u8(254, 255)),
        ("word 255 of 255", uniform_nonzero_u8(255, 255)),
        ("word 4294967295 of 255", uniform_nonzero_u8(u32::MAX, 255)),
        ("-128 is zero", i8::MIN.ct_is_zero()),
        ("-128 is not zero", i8::MIN.ct_is_not_zero()),
        ("-32768 is zero", i16::MIN.ct_is_zero()),
        ("-32768 is not zero", i16::MIN.ct_is_not_zero()),
        ("no bytes are zero", none.ct_is_zero()),
        ("no bytes are not zero", none.ct_is_not_zero()),
        ("250 + 5 of 256", field_bounded_add(250, 5, 256)),
        ("250 + 6 of 256", field_bounded_add(250, 6, 256)),
        ("250 + 5 of 257", field_bounded_add(250, 5, 257)),
    ];
    for (label, value) in values {
        println!(rt; "{label}: {value}")?;
    }
    Ok(())
}

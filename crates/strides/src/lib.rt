// Bytes that lie a stride apart: the coefficients of one degree, the identifiers of rows.
#![tactic(auto)]

ghost use Rattle.std.specs.Prelude.{◌≡◌, ◌*◌, ◌<◌, ◌≤◌, length};
ghost use Rattle.strides.specs.Strides.{strided};

// Brought side by side, from a place of the first run on. A step along neighbours is what the compiler does many at a time.
pub fn gather(from: &[u8], stride: usize, place: usize, out: &mut [u8])
    requires { (place < stride) × (length out.old * stride ≤ length from.now) }
    ensures { out.new ≡ strided stride place (length out.old) from.now }
{
    // By place: step_by and chunks_exact are slower by far, and after a zip of iter_mut a proof knows no element.
    for (i, o) in out.iter_mut().enumerate() {
        *o = from[i * stride + place];
    }
}

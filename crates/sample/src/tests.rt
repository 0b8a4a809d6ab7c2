// The refusals of one sample: 1, 7, 11, 15, the lowest that applies.
ghost use Rattle.std.specs.Prelude.{◌≡◌, false, not, ◌-◌, ◌^◌, leb, length};
ghost use Rattle.laws.specs.Lists.{all_below};
ghost use Rattle.standard.specs.Answers.{of_stored};
ghost use Rattle.standard.specs.Refusals.{sample_tests, first, no1, wide};

use crate::bytes::unpack;
use frames::bad_depth;
use standard::Refusal;
use units::legal_entry;
use units::samples::out_of_range;

pub fn sample_tests(depth: u32, entry: &[i32; 10], bytes: &[u8]) -> Result<(), Refusal>
    ensures { of_stored result ≡ first (sample_tests depth entry.now bytes.now) }
{
    if bad_depth(depth) {
        return Err(Refusal::BadDepth);
    }
    if bytes.len() != 98 {
        return Err(Refusal::BadShape);
    }
    if !legal_entry(0, entry, 0) {
        return Err(Refusal::BadUnit);
    }
    if outside(depth, bytes) {
        return Err(Refusal::BadSample);
    }
    Ok(())
}

// Whether one of the 49 samples is not one of the depth.
fn outside(depth: u32, bytes: &[u8]) -> bool
    requires { (no1 depth ≡ false) × (length bytes.now ≡ 98) }
    ensures { result ≡ not (all_below 49 (λ k. leb (wide bytes.now k) (2 ^ depth - 1))) }
{
    let mut s = [0i32; 49];
    unpack(&mut s, bytes);
    out_of_range(&s, depth)
}

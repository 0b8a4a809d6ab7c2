// One sample from ten numbers and the bytes of its window.
#![tactic(auto)]

pub mod bytes; // bytes.rt: the samples of the window
pub mod tests; // tests.rt: the refusals
pub mod filters; // filters.rt: the filter of each kind over one window

ghost use Rattle.std.specs.Prelude.{◌≡◌, [], ◌∷◌, length};
ghost use Rattle.standard.specs.Calls.{sample_answer};
ghost use Rattle.standard.specs.Refusals.{sample_tests, first};

use crate::bytes::unpack;
use crate::filters::kind_sample;
use crate::tests::sample_tests;
use numbers::depth_of;
use units::unit_at;

// The restored sample, or minus the number: type, three vertical and three horizontal coefficients, set and weights, and 98 bytes.
pub fn restore_sample(
    depth: u32,
    row: u32,
    kind: i32,
    v0: i32,
    v1: i32,
    v2: i32,
    h0: i32,
    h1: i32,
    h2: i32,
    set: i32,
    w0: i32,
    w1: i32,
    window: &[u8],
) -> i32
    ensures { result ≡ sample_answer depth row (kind ∷ v0 ∷ v1 ∷ v2 ∷ h0 ∷ h1 ∷ h2 ∷ set ∷ w0 ∷ w1 ∷ []) window.now }
{
    let entry = [kind, v0, v1, v2, h0, h1, h2, set, w0, w1];
    entry_sample(depth, row, &entry, window)
}

// The same from the ten numbers as an entry of a unit table.
fn entry_sample(depth: u32, row: u32, entry: &[i32; 10], bytes: &[u8]) -> i32
    ensures { result ≡ sample_answer depth row entry.now bytes.now }
{
    match sample_tests(depth, entry, bytes) {
        Err(why) => -(u32::from(why) as i32),
        Ok(()) => passed_sample(depth, row, entry, bytes),
    }
}

// The sample, once no number is given.
fn passed_sample(depth: u32, row: u32, entry: &[i32; 10], bytes: &[u8]) -> i32
    requires { first (sample_tests depth entry.now bytes.now) ≡ 0 }
    ensures { result ≡ sample_answer depth row entry.now bytes.now }
{
    let mut s = [0i32; 486];
    unpack(&mut s, bytes);
    let unit = unit_at(0, entry, 0);
    let kind = unit.kind;
    kind_sample(&mut s, row, kind, depth_of(depth))
}

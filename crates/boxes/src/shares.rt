// z, a2 and b2 of one place, and rows of them.
ghost use Rattle.std.specs.Prelude.{◌≡◌, ◌+◌, ◌-◌, ◌*◌, ◌≤◌, ◌<◌, min};
ghost use Rattle.standard.specs.Arithmetic.{round_ℕ};
ghost use Rattle.standard.specs.Depths.{largest};
ghost use Rattle.standard.specs.SelfGuided.{a2_of};
ghost use Rattle.boxes.specs.Scales.{z_of};

use crate::samples::{signed, word};
use crate::scale::Scale;

// p - q, in 0 .. top. All are below 2^31, where the choices of signed numbers are the shorter ones.
pub fn between(p: u32, q: u32, top: u32) -> u32
    requires { (p < 2147483648) × (q < 2147483648) × (top < 2147483648) }
    ensures { result ≡ min (p - q) top }
{
    (p as i32 - q as i32).clamp(0, top as i32) as u32
}

// z from the sum of squares a and the sum b over a box of n places. p is cut where z is 255, so that p * s fits 32 bits.
pub fn z_of(a: u32, b: u32, n: u32, z: Scale) -> u32
    requires { (n ≤ 25) × (a ≤ 25 * (largest z.depth * largest z.depth)) × (b ≤ 25 * largest z.depth) }
    ensures { result ≡ z_of z n a b }
{
    let d = ((b + z.rb) >> z.sb) % 8192;
    let p = between(((a + z.ra) >> z.sa) * n, d * d, z.top);
    (p * z.s + 524288) >> 20
}

#[tactic(auto, using(standard::proofs::Arms::a2_high, standard::proofs::Arms::a2_zero, standard::proofs::Arms::a2_middle))]
pub fn a2_of(z: u32) -> u32
    ensures { result ≡ a2_of z }
{
    match z {
        255.. => 256,
        0 => 1,
        _ => (256 * z + z / 2) / (z + 1),
    }
}

// a2 is at least 1, so the product is below 2^32.
pub fn b2_of(a2: u32, b: u32, o: u32) -> u32
    requires { (1 ≤ a2) × (a2 ≤ 256) × (b ≤ 102375) × (b * o ≤ 16789500) }
    ensures { result ≡ round_ℕ 12 ((256 - a2) * b * o) }
{
    ((256 - a2) * b * o + 2048) >> 12
}

// Round2 and the clips, and what belongs to the depth.
#![tactic(auto)]

ghost use Rattle.std.specs.Prelude.{◌≡◌, ◌≤◌, pos, nat_abs, ◌≤ℤ◌};
ghost use Rattle.standard.specs.Arithmetic as arithmetic;
ghost use Rattle.standard.specs.Depths as depths;

use standard::Depth;

#[tactic(auto, unfolding(standard::specs::Depths::depth_of))]
pub fn depth_of(bits: u32) -> Depth
    ensures { result ≡ depths.depth_of bits }
{
    match bits {
        8 => Depth::Eight,
        10 => Depth::Ten,
        _ => Depth::Twelve,
    }
}

// Stays, with the five after it, though one function of three constants could stand for all: it would leave the names of the
// specification to its callers.
pub fn bits(d: Depth) -> u32
    ensures { result ≡ depths.bits d }
{
    match d {
        Depth::Eight => 8,
        Depth::Ten => 10,
        Depth::Twelve => 12,
    }
}

pub fn r0(d: Depth) -> u32
    ensures { result ≡ depths.r0 d }
{
    match d {
        Depth::Eight => 3,
        Depth::Ten => 3,
        Depth::Twelve => 5,
    }
}

pub fn r1(d: Depth) -> u32
    ensures { result ≡ depths.r1 d }
{
    match d {
        Depth::Eight => 11,
        Depth::Ten => 11,
        Depth::Twelve => 9,
    }
}

#[tactic(auto, unfolding(standard::specs::Depths::largest))]
pub fn largest(d: Depth) -> i32
    ensures { result ≡ pos (depths.largest d) }
{
    match d {
        Depth::Eight => 255,
        Depth::Ten => 1023,
        Depth::Twelve => 4095,
    }
}

#[tactic(auto, unfolding(standard::specs::Depths::offset))]
pub fn offset(d: Depth) -> i32
    ensures { result ≡ pos (depths.offset d) }
{
    match d {
        Depth::Eight => 2048,
        Depth::Ten => 8192,
        Depth::Twelve => 8192,
    }
}

#[tactic(auto, unfolding(standard::specs::Depths::limit))]
pub fn limit(d: Depth) -> i32
    ensures { result ≡ pos (depths.limit d) }
{
    match d {
        Depth::Eight => 8191,
        Depth::Ten => 32767,
        Depth::Twelve => 32767,
    }
}

// Round2 of a signed number: `>>` keeps the sign.
pub fn round2(x: i32, n: u32) -> i32
    requires { (n ≤ 20) × (nat_abs x ≤ 1073741824) }
    ensures { result ≡ arithmetic.round2 n x }
{
    if n == 0 {
        return x;
    }
    (x + (1 << (n - 1))) >> n
}

// Round2 of an unsigned number. Stays beside the other: one for both types would need a trait for the shift, the sum and their laws.
pub fn round2_u32(x: u32, n: u32) -> u32
    requires { (n ≤ 20) × (x ≤ 2147483648) }
    ensures { result ≡ arithmetic.round_ℕ n x }
{
    if n == 0 {
        return x;
    }
    (x + (1 << (n - 1))) >> n
}

pub fn clip3(lo: i32, hi: i32, x: i32) -> i32
    ensures { result ≡ arithmetic.clip3 lo hi x }
{
    if x < lo {
        lo
    } else if hi < x {
        hi
    } else {
        x
    }
}

// Clip1 of the depth whose largest sample is `top`.
pub fn clip1(top: i32, x: i32) -> i32
    requires { pos 0 ≤ℤ top }
    ensures { result ≡ pos (arithmetic.clip_to (nat_abs top) x) }
{
    x.clamp(0, top)
}

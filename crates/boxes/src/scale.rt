// The numbers of one pass: s of its radius and eps, where p is cut, and the roundings of the depth.
ghost use Rattle.std.specs.Prelude.{◌≡◌, ◌-◌, ◌/◌, ◌^◌, ◌≤◌};
ghost use Rattle.standard.specs.Depths.{bits};
ghost use Rattle.standard.specs.SelfGuided as guided;
ghost use Rattle.boxes.specs.Scaled.{Scaled};

use standard::Depth;

// `top` is the least p whose z is 255. `ra`, `sa` round the sum of squares, `rb`, `sb` the sum.
#[derive(Clone, Copy)]
pub struct Scale {
    pub depth: Depth,
    pub eps: u32,
    pub s: u32,
    pub top: u32,
    pub ra: u32,
    pub sa: u32,
    pub rb: u32,
    pub sb: u32,
    pub ghost scaled: { Scaled depth s top ra sa rb sb },
}

// Stays, as in `numbers`: three values by their name.
pub fn above_eight(d: Depth) -> u32
    ensures { result ≡ bits d - 8 }
{
    match d {
        Depth::Eight => 0,
        Depth::Ten => 2,
        Depth::Twelve => 4,
    }
}

// Half of 2^k, rounded down.
pub fn half(k: u32) -> u32
    requires { k ≤ 8 }
    ensures { result ≡ 2 ^ k / 2 }
{
    (1 << k) / 2
}

// The places of a box of radius r.
pub fn area(r: u32) -> u32
    requires { r ≤ 2 }
    ensures { result ≡ guided.area r }
{
    (2 * r + 1) * (2 * r + 1)
}

// 4096 over the places of a box, rounded.
pub fn one_over(n: u32) -> u32
    requires { (1 ≤ n) × (n ≤ 25) }
    ensures { result ≡ guided.one_over n }
{
    (4096 + n / 2) / n
}

impl Scale {
    ghost use Rattle.boxes.specs.Scales.{ScaleOf};

    pub fn for_radius(r: u32, eps: u32, d: Depth) -> Self
        requires { (1 ≤ r) × (r ≤ 2) × (1 ≤ eps) × (eps ≤ 75) }
        ensures { ScaleOf r eps d result }
    {
        let n = area(r);
        let ne = n * n * eps;
        let s = (1048576 + ne / 2) / ne;
        let top = (266862592 + s - 1) / s;
        let sb = above_eight(d);
        let rb = half(sb);
        let sa = 2 * sb;
        let ra = half(sa);
        Scale {
            depth: d,
            eps,
            s,
            top,
            ra,
            sa,
            rb,
            sb,
        }
    }
}

// What a pass does to its sum: the bias of the middle values and the rounding in one addition, the shift, the clip.
ghost use Rattle.std.specs.Prelude.{◌≡◌, ◌-◌, ◌^◌, ◌≤◌, pos, negsuc, nat_abs, ◌+ℤ◌, ◌-ℤ◌, ◌*ℤ◌};
ghost use Rattle.standard.specs.Depths as depths;
ghost use Rattle.wiener.specs.Passes.{settled, bias};

use crate::Rounding;
use numbers::{largest, limit, offset, r0, r1};
use standard::Depth;

// Round2 by r0 with the bias in the same addition, and the clip between the passes as a value is kept.
pub fn across_rounding(d: Depth) -> Rounding
    ensures add_value { (result.add ≡ pos (2 ^ (depths.r0 d - 1)) +ℤ bias d *ℤ pos (2 ^ depths.r0 d)) × (result.shift ≡ depths.r0 d) }
    ensures low_value { (result.low ≡ negsuc 16383) × (result.high ≡ pos (depths.limit d) -ℤ pos 16384) }
{
    let r = r0(d);
    let off = offset(d) - 16384;
    let top = limit(d) - 16384;
    let half = 1 << (r - 1);
    let full = 1 << r;
    let add = half + off * full;
    Rounding {
        add,
        shift: r,
        low: -16384,
        high: top,
    }
}

// Round2 by r1, with 128 times the bias taken off, since the taps sum to 128; and the clip to a sample.
pub fn down_rounding(d: Depth) -> Rounding
    ensures add_value { (result.add ≡ pos (2 ^ (depths.r1 d - 1)) -ℤ bias d *ℤ pos 128) × (result.shift ≡ depths.r1 d) }
    ensures low_value { (result.low ≡ pos 0) × (result.high ≡ pos (depths.largest d)) }
{
    let r = r1(d);
    let off = offset(d) - 16384;
    let top = largest(d);
    let half = 1 << (r - 1);
    let add = half - off * 128;
    Rounding {
        add,
        shift: r,
        low: 0,
        high: top,
    }
}

// Rounding and clip of a sum. Either end of the clip is one instruction by itself, where `clamp` would be three.
pub fn settle(z: i32, a: Rounding) -> i32
    requires z_bound { nat_abs z ≤ 16777216 }
    ensures { result ≡ settled a z }
{
    ((z + a.add) >> a.shift).min(a.high).max(a.low)
}

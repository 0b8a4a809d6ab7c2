// The projection of one sample on its two filtered values.
ghost use Rattle.std.specs.Prelude.{◌≡◌, ◌*◌, ◌≤◌, pos};
ghost use Rattle.standard.specs.SelfGuided as guided;
ghost use Rattle.units.specs.Legal.{LegalWeights};
ghost use Rattle.selfguided.specs.Mixes.{Mixed};

use numbers::{clip1, largest};
use standard::{Depth, Weights};

// The two weights, 128 less both, and the depth's largest sample.
#[derive(Clone, Copy)]
pub struct Mix {
    pub depth: Depth,
    pub w0: i32,
    pub w1: i32,
    pub w2: i32,
    pub top: i32,
    pub ghost mixed: { Mixed depth w0 w1 w2 top },
}

pub fn mix_of(weights: Weights, d: Depth) -> Mix
    requires { LegalWeights weights }
    ensures { (result.depth ≡ d) × (result.w0 ≡ weights.w0) × (result.w1 ≡ weights.w1) }
{
    let w0 = weights.w0;
    let w1 = weights.w1;
    let w2 = 128 - w0 - w1;
    Mix {
        depth: d,
        w0,
        w1,
        w2,
        top: largest(d),
    }
}

// w1 * v + w0 * f0 + w2 * f1 with two products, since the three weights sum to 128.
pub fn project(u: u32, f0: u32, f1: u32, m: Mix) -> i32
    requires { (u ≤ 4095) × (f0 ≤ 131071) × (f1 ≤ 131071) }
    ensures { result ≡ pos (guided.project m.depth m.w0 m.w1 (16 * u) f0 f1) }
{
    let v = (16 * u) as i32;
    let w0 = m.w0;
    let w2 = m.w2;
    let top = m.top;
    clip1(
        top,
        (128 * v + w0 * (f0 as i32 - v) + w2 * (f1 as i32 - v) + 1024) >> 11,
    )
}

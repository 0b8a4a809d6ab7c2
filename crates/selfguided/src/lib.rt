// The self-guided filter over a gathered window.
#![tactic(auto)]

pub mod areas;
pub mod filtered;
pub mod last;
pub mod parameters;
pub mod passes;
pub mod projection;
pub mod results;
pub mod spots;
pub mod weighted;

ghost use Rattle.std.specs.Prelude.{◌≡◌, ◌+◌, ◌*◌, ◌≤◌, pos, nat_abs, length, get_or};
ghost use Rattle.laws.specs.Bounds.{Samples};
ghost use Rattle.laws.specs.Rows.{rows};
ghost use Rattle.standard.specs.Depths.{largest};
ghost use Rattle.standard.specs.SelfGuided.{self_guided};
ghost use Rattle.units.specs.Legal.{LegalWeights};
ghost use Rattle.selfguided.specs.Windows.{Rows};

use crate::last::last;
use crate::parameters::params_of;
use crate::passes::{first_pass, second_pass};
use crate::projection::mix_of;
use boxes::table::A2;
use standard::{Depth, Weights};

// h rows of w results. Their window, h + 6 rows of w + 6 samples, lies at s[0 ..]; the rest of s is scratch. `odd` is the parity of the
// first row in its plane.
pub fn selfguided_window(
    out: &mut [i32],
    to: usize,
    out_stride: usize,
    s: &mut [i32],
    w: usize,
    h: usize,
    odd: usize,
    weights: Weights,
    d: Depth,
    tab: &A2,
)
    requires le_w { (1 ≤ w) × (w ≤ 383) × (1 ≤ h) × (h ≤ 64) × (odd ≤ 1) × (6 * (w + 8) * (h + 8) ≤ length s.old) }
    requires samples { Samples (largest d) 0 ((h + 6) * (w + 6)) s.old × Rows to out_stride w h out.old × LegalWeights weights }
    ensures { out.new ≡ rows (λ i j. pos (self_guided d (odd + i) weights (λ a b. nat_abs (get_or s.old ((i + a) * (w + 6) + (j + b)) (pos 0))))) to out_stride w h out.old }
{
    let p = params_of(weights.set);
    first_pass(s, w, h, odd, p.eps0, d, tab);
    second_pass(s, w, h, p.eps1, d, tab);
    let m = mix_of(weights, d);
    last(out, to, out_stride, s, w, h, odd, weights, p, m);
}

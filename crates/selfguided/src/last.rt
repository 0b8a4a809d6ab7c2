// The rows of results, each by the two filters that its unit and its row ask for.
ghost use Rattle.std.specs.Prelude.{◌≡◌, ◌+◌, ◌*◌, ◌≤◌, ◌<◌, pos, nat_abs, length, get_or};
ghost use Rattle.laws.specs.Runs.{stamp};
ghost use Rattle.laws.specs.Rows.{rows};
ghost use Rattle.standard.specs.SelfGuided.{self_guided};
ghost use Rattle.selfguided.specs.Windows.{Ready, Plan, Rows};

use crate::filtered::{Absent, Cross, EvenRow, OddRow};
use crate::parameters::Params;
use crate::projection::Mix;
use crate::results::result_row;
use crate::spots::spots_of;
use standard::Weights;

// Row i: the parity of its row in the plane is that of odd + i.
pub fn last_row(
    out: &mut [i32],
    to: usize,
    s: &[i32],
    w: usize,
    h: usize,
    odd: usize,
    i: usize,
    weights: Weights,
    p: Params,
    m: Mix,
)
    requires { (to + w ≤ length out.old) × (i < h) × Ready m.depth w h odd weights s.now × Plan weights p m }
    ensures { out.new ≡ stamp (λ j. pos (self_guided m.depth (odd + i) weights (λ a b. nat_abs (get_or s.now ((i + a) * (w + 6) + (j + b)) (pos 0))))) to w out.old }
{
    let at = spots_of(w, h, odd, i);
    let even = (odd + i) % 2 == 0;
    if p.eps0.is_none() {
        result_row::<Absent, Cross>(out, to, s, at, w, m);
    } else if even {
        if p.eps1.is_none() {
            result_row::<EvenRow, Absent>(out, to, s, at, w, m);
        } else {
            result_row::<EvenRow, Cross>(out, to, s, at, w, m);
        }
    } else if p.eps1.is_none() {
        result_row::<OddRow, Absent>(out, to, s, at, w, m);
    } else {
        result_row::<OddRow, Cross>(out, to, s, at, w, m);
    }
}

pub fn last(
    out: &mut [i32],
    to: usize,
    stride: usize,
    s: &[i32],
    w: usize,
    h: usize,
    odd: usize,
    weights: Weights,
    p: Params,
    m: Mix,
)
    requires { Rows to stride w h out.old × Ready m.depth w h odd weights s.now × Plan weights p m }
    ensures { out.new ≡ rows (λ i j. pos (self_guided m.depth (odd + i) weights (λ a b. nat_abs (get_or s.now ((i + a) * (w + 6) + (j + b)) (pos 0))))) to stride w h out.old }
{
    for i in 0..h {
        last_row(out, to + i * stride, s, w, h, odd, i, weights, p, m);
    }
}

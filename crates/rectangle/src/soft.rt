// A rectangle of a self-guided unit: its window is gathered into the scratch, and the filter works there.
ghost use Rattle.std.specs.Prelude.{◌≡◌, ◌+◌, ◌*◌, ◌≤◌, ◌<◌, pos, length};
ghost use Rattle.laws.specs.Paint.{Within, paint};
ghost use Rattle.standard.specs.SelfGuided as guided;
ghost use Rattle.units.specs.Legal.{LegalWeights};
ghost use Rattle.rectangle.specs.Seen.{seen};

use crate::view::View;
use boxes::table::A2;
use fetch::Rect;
use selfguided::selfguided_window;
use standard::Weights;

pub fn guided_rect(out: &mut [i32], v: View<'_>, r: Rect, s: &mut [i32], weights: Weights, tab: &A2)
    requires w_in_bounds { (v.h * v.w ≤ length out.old) × (6 * (r.w + 8) * (r.h + 8) ≤ length s.old) × (0 < r.w) × (r.w ≤ 383) × (0 < r.h) × (r.h ≤ 64) × Within r.x r.y r.w r.h v.w v.h }
    requires legal_weights { LegalWeights weights }
    ensures { out.new ≡ paint r.x r.y r.w r.h v.entry.w (λ y x. pos (guided.self_guided v.entry.depth y weights (seen v.entry y x))) out.old }
{
    v.gather(s, r);
    selfguided_window(
        out,
        r.y * v.w + r.x,
        v.w,
        s,
        r.w,
        r.h,
        r.y % 2,
        weights,
        v.depth,
        tab,
    );
}

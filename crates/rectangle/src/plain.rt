// A rectangle of a unit without a filter: its samples as they are.
ghost use Rattle.std.specs.Prelude.{◌≡◌, ◌+◌, ◌*◌, ◌≤◌, ◌<◌, length};
ghost use Rattle.laws.specs.Paint.{Within, paint};
ghost use Rattle.standard.specs.declared.Kind.TheVariants.{None};
ghost use Rattle.rectangle.specs.View.{Own};
ghost use Rattle.rectangle.specs.Seen.{shown};

use crate::view::View;
use fetch::{Rect, copy_rect};

pub fn plain_rect(out: &mut [i32], v: View<'_>, r: Rect)
    requires w_in_bounds { (v.h * v.w ≤ length out.old) × (0 < r.h) × Within r.x r.y r.w r.h v.w v.h × Own v.source r.y r.h }
    ensures { out.new ≡ paint r.x r.y r.w r.h v.entry.w (shown None v.entry) out.old }
{
    let at = v.source.inside + (r.y - v.source.start);
    copy_rect(out, v.inside, at, v.w, r);
}

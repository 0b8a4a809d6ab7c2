// One rectangle restored by its unit, from a stripe's source.
#![tactic(auto)]

pub mod view; // view.rt: what a stripe sees of its plane
pub mod sharp; // sharp.rt: a block of a Wiener unit
pub mod blocks; // blocks.rt: a rectangle of a Wiener unit, block by block
pub mod plain; // plain.rt: a rectangle without a filter
pub mod soft; // soft.rt: a rectangle of a self-guided unit

ghost use Rattle.std.specs.Prelude.{◌≡◌, ◌+◌, ◌*◌, ◌≤◌, ◌<◌, length};
ghost use Rattle.laws.specs.Paint.{Within, paint};
ghost use Rattle.units.specs.Legal.{LegalKind};
ghost use Rattle.rectangle.specs.View.{Own};
ghost use Rattle.rectangle.specs.Seen.{shown};

use crate::blocks::wiener_rect;
use crate::plain::plain_rect;
use crate::soft::guided_rect;
use crate::view::View;
use boxes::table::A2;
use fetch::Rect;
use standard::Kind;

// The rectangle as its unit restores it; s is scratch.
pub fn restore_rect(out: &mut [i32], v: View<'_>, r: Rect, s: &mut [i32], kind: Kind, tab: &A2)
    requires w_in_bounds { (v.h * v.w ≤ length out.old) × (6 * (r.w + 8) * (r.h + 8) ≤ length s.old) × (0 < r.w) × (r.w ≤ 383) × (0 < r.h) × (r.h ≤ 64) × Within r.x r.y r.w r.h v.w v.h }
    requires legal_kind { LegalKind kind × Own v.source r.y r.h }
    ensures { out.new ≡ paint r.x r.y r.w r.h v.entry.w (shown kind v.entry) out.old }
{
    match kind {
        Kind::None => {
            plain_rect(out, v, r);
        }
        Kind::Wiener(t) => {
            wiener_rect(out, v, r, t);
        }
        Kind::SelfGuided(g) => {
            guided_rect(out, v, r, s, g, tab);
        }
    }
}

// A rectangle of a Wiener unit, in blocks of 64 columns: the middle values of a block are few enough for the stack, where they can have 16 bits.
ghost use Rattle.std.specs.Prelude.{◌≡◌, ◌+◌, ◌*◌, ◌≤◌, ◌<◌, pos, length};
ghost use Rattle.laws.specs.Paint.{Within, paint};
ghost use Rattle.standard.specs.Wiener as standard_wiener;
ghost use Rattle.units.specs.Legal.{LegalTaps};
ghost use Rattle.rectangle.specs.Seen.{seen};

use crate::sharp::wiener_block;
use crate::view::View;
use fetch::Rect;
use standard::Taps;
use wiener::taps::Repeated;

// Block after block; s is for the middle values. The call stands twice on purpose: inlined from one place, its vertical loop is longer.
fn wiener_blocks(out: &mut [i32], v: View<'_>, r: Rect, s: &mut [i16], taps: &Repeated)
    requires w_in_bounds { (v.h * v.w ≤ length out.old) × (4480 ≤ length s.old) × (64 ≤ taps.now.n) × (0 < r.w) × (0 < r.h) × (r.h ≤ 64) × Within r.x r.y r.w r.h v.w v.h }
    ensures { out.new ≡ paint r.x r.y r.w r.h v.entry.w (λ y x. pos (standard_wiener.wiener v.entry.depth taps.now.t (seen v.entry y x))) out.old }
{
    let full = (r.w - 1) / 64;
    for b in 0..full {
        let block = Rect {
            x: r.x + b * 64,
            w: 64,
            ..r
        };
        wiener_block(out, v, block, s, taps);
    }
    let last = Rect {
        x: r.x + full * 64,
        w: r.w - full * 64,
        ..r
    };
    wiener_block(out, v, last, s, taps);
}

// A rectangle of a Wiener unit.
pub fn wiener_rect(out: &mut [i32], v: View<'_>, r: Rect, t: Taps)
    requires w_in_bounds { (v.h * v.w ≤ length out.old) × (0 < r.w) × (0 < r.h) × (r.h ≤ 64) × Within r.x r.y r.w r.h v.w v.h }
    requires legal_taps { LegalTaps t }
    ensures { out.new ≡ paint r.x r.y r.w r.h v.entry.w (λ y x. pos (standard_wiener.wiener v.entry.depth t (seen v.entry y x))) out.old }
{
    let mut hr = [0i16; 256];
    let mut vr = [0i16; 256];
    let taps = Repeated::new(t, 64, &mut hr, &mut vr);
    let mut s = [0i16; 4480];
    wiener_blocks(out, v, r, &mut s, &taps);
}

// The samples that a stripe reads: its own rows of the plane, and the edge rows above and below it.
ghost use Rattle.std.specs.Prelude.{◌≡◌, false, ◌<◌, length};
ghost use Rattle.standard.specs.Stripes as defined;
ghost use Rattle.standard.specs.Refusals.{no1, no9, plane_height, plane_width, samples, sub_y_of};
ghost use Rattle.standard.specs.Calls.{own_rows};
ghost use Rattle.stripe_tests.specs.Parts.{out_of_range};

use edges::rows::{above, below};
use frames::plane::Plane;
use geometry::stripes::{stripe_start, stripe_stop};
use units::samples::out_of_range;

// The rows of stripe s.
pub fn own_rows(p: Plane, plane: &[i32], s: u32) -> &[i32]
    requires { (s < defined.stripes (sub_y_of p.frame) (plane_height p.frame)) × (length plane.now ≡ samples p.frame) }
    ensures { result.now ≡ own_rows p.frame plane.now s }
{
    let h = p.height() as usize;
    let w = p.width() as usize;
    let own = p.sub_y();
    let start = stripe_start(own, s) as usize;
    let stop = h.min(stripe_stop(own, s) as usize);
    let a = start * w;
    let e = a + (stop - start) * w;
    &plane[a..e]
}

// 15: a sample of the stripe's own rows, or of the rows above or below it, is out of range.
pub fn bad_rows(p: Plane, s: u32, edges: &[i32], plane: &[i32]) -> bool
    requires { (no1 p.frame.depth ≡ false) × (s < defined.stripes (sub_y_of p.frame) (plane_height p.frame)) × (length plane.now ≡ samples p.frame) × (no9 (sub_y_of p.frame) (plane_height p.frame) (plane_width p.frame) (length edges.now) ≡ false) }
    ensures { result ≡ out_of_range p.frame s edges.now plane.now }
{
    let h = p.height() as usize;
    let w = p.width() as usize;
    let sub = p.sub_y();
    let depth = p.frame.depth;
    out_of_range(own_rows(p, plane, s), depth)
        || out_of_range(above(edges, sub, h, w, s), depth)
        || out_of_range(below(edges, sub, h, w, s), depth)
}

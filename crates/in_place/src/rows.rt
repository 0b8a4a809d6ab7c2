// The rows of a stripe: copied out, and restored from that copy and the edge rows beside it.
ghost use Rattle.std.specs.Prelude.{◌≡◌, ◌-◌, ◌*◌, ◌≤◌, ◌<◌, min, length};
ghost use Rattle.standard.specs.Stripes as defined;
ghost use Rattle.standard.specs.Refusals.{copy_need, plane_height, plane_width, samples, sub_y_of};
ghost use Rattle.standard.specs.Planes.{stripe_slice};
ghost use Rattle.standard.specs.Calls.{shape_of};
ghost use Rattle.fetch.specs.Source.{stripe_source};
ghost use Rattle.fetch.proofs.Sources.{Copied};
ghost use Rattle.stripe_tests.specs.Parts.{Numbered};
ghost use Rattle.stripe_tests.proofs.Passed.{StripePassed};

use boxes::table::A2;
use fetch::Source;
use frames::plane::Plane;
use frames::{extent, sub_of};
use geometry::stripes::{stripe_start, stripe_stop};
use numbers::depth_of;
use rectangle::view::View;
use restoration::rectangles::restore_rectangles;
use runs::copy_run;
use standard::Frame;
use stripe_tests::rows::own_rows;

// Where stripe s has its rows: its own in the copy, those beside it among the edge rows.
fn stripe_source(sub_y: u32, s: u32) -> Source
    requires { (sub_y ≤ 1) × (s ≤ 65535) }
    ensures { result ≡ stripe_source sub_y s }
{
    let start = stripe_start(sub_y, s) as usize;
    let stop = stripe_stop(sub_y, s) as usize;
    let under = 4 * s + 2;
    if s == 0 {
        return Source {
            start: start,
            stop: stop,
            inside: 0,
            over: 0,
            under: under as usize,
        };
    }
    let over = 4 * (s - 1);
    Source {
        start: start,
        stop: stop,
        inside: 0,
        over: over as usize,
        under: under as usize,
    }
}

// The stripe's own rows to the copy.
pub fn copy_rows(copy: &mut [i32], plane: &[i32], f: Frame, s: u32)
    requires { Numbered f × (s < defined.stripes (sub_y_of f) (plane_height f)) × (length plane.now ≡ samples f) × (copy_need (sub_y_of f) (plane_height f) (plane_width f) ≤ length copy.old) }
    ensures { Copied plane.now copy.new (plane_width f) (defined.stripe_start (sub_y_of f) s) (min (plane_height f) (defined.stripe_stop (sub_y_of f) s) - defined.stripe_start (sub_y_of f) s) }
{
    let p = Plane { frame: f };
    let rows = own_rows(p, plane, s);
    copy_run(copy, 0, rows, 0, rows.len());
}

// The stripe's rows of the plane, from the copy and the edge rows.
pub fn restore_rows<'a>(
    plane: &mut [i32],
    copy: &'a [i32],
    edges: &'a [i32],
    f: Frame,
    s: u32,
    table: &[i32],
    scratch: &mut [i32],
)
    requires stripe_passed { StripePassed f s table.now edges.now plane.old (length scratch.old) (length copy.now) × (0 < f.frame_type) }
    requires copied { Copied plane.old copy.now (plane_width f) (defined.stripe_start (sub_y_of f) s) (min (plane_height f) (defined.stripe_stop (sub_y_of f) s) - defined.stripe_start (sub_y_of f) s) }
    ensures { plane.new ≡ stripe_slice (shape_of f table.now) edges.now s plane.old }
{
    let w = extent(f.plane, f.sub_x, f.upscaled_width) as usize;
    let h = extent(f.plane, f.sub_y, f.frame_height) as usize;
    let source = stripe_source(sub_of(f.plane, f.sub_y), s);
    let depth = depth_of(f.depth);
    let v = View {
        inside: copy,
        beside: edges,
        w,
        h,
        source,
        depth,
    };
    let tab = A2::new();
    restore_rectangles(plane, v, f, s, table, scratch, &tab);
}

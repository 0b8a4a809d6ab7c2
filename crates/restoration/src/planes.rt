// A whole plane: stripe by stripe, each reading the deblocked rows beside it.
ghost use Rattle.std.specs.Prelude.{◌≡◌, ◌≤◌, length};
ghost use Rattle.laws.specs.Bounds.{Samples};
ghost use Rattle.standard.specs.Depths.{depth_of, largest};
ghost use Rattle.standard.specs.Refusals.{samples};
ghost use Rattle.standard.specs.Planes.{restored_slice};
ghost use Rattle.standard.specs.Calls.{shape_of};
ghost use Rattle.fetch.specs.Source.{whole_source};
ghost use Rattle.restoration.specs.Asked.{Asked};

use crate::rectangles::restore_rectangles;
use boxes::table::A2;
use fetch::Source;
use frames::{extent, sub_of};
use geometry::stripes::{stripe_start, stripe_stop, stripes};
use numbers::depth_of;
use rectangle::view::View;
use standard::Frame;

// Where stripe s of a plane has its rows: its own in one plane, those beside it in the other.
fn whole_source(sub_y: u32, s: u32) -> Source
    requires { (sub_y ≤ 1) × (s ≤ 65535) }
    ensures { result ≡ whole_source sub_y s }
{
    let start = stripe_start(sub_y, s) as usize;
    let stop = stripe_stop(sub_y, s) as usize;
    Source {
        start,
        stop,
        inside: start,
        over: start.saturating_sub(2),
        under: stop,
    }
}

// Every stripe of a plane to out; s is scratch.
pub fn restore_stripes<'a>(
    out: &mut [i32],
    cdef: &'a [i32],
    deblocked: &'a [i32],
    f: Frame,
    table: &[i32],
    s: &mut [i32],
)
    requires asked { Asked f table.now (length s.old) × (length out.old ≡ samples f) × (length cdef.now ≡ samples f) × (length deblocked.now ≡ samples f) }
    requires samples { Samples (largest (depth_of f.depth)) 0 (samples f) cdef.now × Samples (largest (depth_of f.depth)) 0 (samples f) deblocked.now }
    ensures { out.new ≡ restored_slice (shape_of f table.now) deblocked.now cdef.now }
{
    let depth = depth_of(f.depth);
    let own = sub_of(f.plane, f.sub_y);
    let w = extent(f.plane, f.sub_x, f.upscaled_width) as usize;
    let rows = extent(f.plane, f.sub_y, f.frame_height);
    let h = rows as usize;
    let n = stripes(own, rows);
    let tab = A2::new();
    for at in 0..n {
        let source = whole_source(own, at);
        let v = View {
            inside: cdef,
            beside: deblocked,
            w,
            h,
            source,
            depth,
        };
        restore_rectangles(out, v, f, at, table, s, &tab);
    }
}

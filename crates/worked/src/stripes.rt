// The run in place: edge rows captured, then each stripe from the top.
ghost use Rattle.std.specs.Prelude.{◌≡◌, ◌≤◌, length};
ghost use Rattle.standard.specs.Job.{job_stripes, job_tests, in_place};
ghost use Rattle.standard.proofs.Job.{Bounded};
ghost use Rattle.standard.specs.Planes.{captured_slice};
ghost use Rattle.standard.specs.Refusals.{capture_tests, first, plane_height, plane_width, sub_y_of};
ghost use Rattle.in_place.specs.Call.{lent};
ghost use Rattle.worked.specs.Work.{job_with, stripes_run};

use edges::capture_edges;
use frames::{extent, sub_of};
use geometry::stripes::stripes;
use in_place::restore_stripe;
use standard::Frame;

// n stripes of a plane.
fn each_stripe(
    f: Frame,
    table: &[i32],
    edges: &[i32],
    plane: &mut [i32],
    marks: &mut [u8],
    scratch: &mut [i32],
    copy: &mut [i32],
    n: u32,
)
    ensures { plane.new ≡ (stripes_run f table.now edges.now (length scratch.old) (length copy.old) n (lent plane.old marks.old)).plane }
{
    for s in 0..n {
        let _ = restore_stripe(f, s, table, edges, plane, marks, scratch, copy);
    }
}

// The same after capture, with room for the edge rows and a clear mark for each stripe.
fn captured_run(
    f: Frame,
    table: &[i32],
    deblocked: &[i32],
    plane: &mut [i32],
    scratch: &mut [i32],
    edges: &mut [i32],
    marks: &mut [u8],
    copy: &mut [i32],
)
    requires { (first (capture_tests f deblocked.now (length edges.old)) ≡ 0) × (length marks.old ≤ 65535) }
    ensures { plane.new ≡ (stripes_run f table.now (captured_slice (sub_y_of f) (plane_height f) (plane_width f) deblocked.now) (length scratch.old) (length copy.old) (length marks.old) (lent plane.old marks.old)).plane }
{
    let _ = capture_edges(f, deblocked, edges);
    let n = marks.len() as u32;
    each_stripe(f, table, edges, plane, marks, scratch, copy, n);
}

// Every stripe of a job's plane, in place.
pub fn by_stripes(
    f: Frame,
    table: &[i32],
    deblocked: &[i32],
    plane: &mut [i32],
    scratch: &mut [i32; 6912],
)
    requires { Bounded (job_with f table.now deblocked.now plane.old) × (first (job_tests (job_with f table.now deblocked.now plane.old)) ≡ 0) }
    ensures { plane.new ≡ (in_place (job_with f table.now deblocked.now plane.old) (job_stripes (job_with f table.now deblocked.now plane.old))).plane }
{
    let h = extent(f.plane, f.sub_y, f.frame_height);
    let w = extent(f.plane, f.sub_x, f.upscaled_width) as usize;
    let n = stripes(sub_of(f.plane, f.sub_y), h) as usize;
    let e = 4 * w * (n - 1);
    let mut edges = [0i32; 64];
    let mut marks = [0u8; 3];
    let mut copy = [0i32; 512];
    captured_run(
        f,
        table,
        deblocked,
        plane,
        scratch,
        &mut edges[0..e],
        &mut marks[0..n],
        &mut copy,
    );
}

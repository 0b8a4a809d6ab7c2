// The refusals of capture: 1, 2, 4, 7, 9, 15, the lowest that applies.
ghost use Rattle.std.specs.Prelude.{◌≡◌, ◌-◌, ◌*◌, length, false, IfOk};
ghost use Rattle.standard.specs.Answers.{of_stored};
ghost use Rattle.standard.specs.Refusals.{capture_tests, first, no1, plane_height, plane_width, sub_y_of};
ghost use Rattle.standard.specs.Stripes as defined;
ghost use Rattle.frames.specs.Numbers.{number_of};

use frames::bad_depth;
use frames::plane::{Plane, plane_of};
use geometry::stripes::stripes;
use standard::{Frame, Refusal};
use units::samples::out_of_range;

// How many samples the edge rows of a plane have: four rows for each boundary.
pub fn edge_room(p: Plane) -> usize
    ensures { result ≡ 4 * plane_width p.frame * (defined.stripes (sub_y_of p.frame) (plane_height p.frame) - 1) }
{
    let n = stripes(p.sub_y(), p.height()) as usize;
    4 * p.width() as usize * (n - 1)
}

// The plane that is captured, where no number is given.
pub fn capture_tests(f: Frame, deblocked: &[i32], edges: usize) -> Result<Plane, Refusal>
    ensures number { number_of result ≡ first (capture_tests f deblocked.now edges) }
    ensures passed { IfOk result (λ p. p.frame ≡ f) }
{
    if bad_depth(f.depth) {
        return Err(Refusal::BadDepth);
    }
    let p = plane_of(f)?;
    slice_tests(p, deblocked, edges)?;
    Ok(p)
}

// What is left once the frame's numbers are legal: 7, 9, 15.
// Stays: no plainer. Number 1 is asked of by 15 alone, and a struct over `Plane` for it would put one more field before each number of the frame.
fn slice_tests(p: Plane, deblocked: &[i32], edges: usize) -> Result<(), Refusal>
    requires { no1 p.frame.depth ≡ false }
    ensures { of_stored result ≡ first (capture_tests p.frame deblocked.now edges) }
{
    if deblocked.len() != p.samples() {
        return Err(Refusal::BadShape);
    }
    if edges != edge_room(p) {
        return Err(Refusal::BadEdgeRows);
    }
    if out_of_range(deblocked, p.frame.depth) {
        return Err(Refusal::BadSample);
    }
    Ok(())
}

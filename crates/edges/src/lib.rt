// Edge rows: four rows of the deblocked plane for each boundary between stripes, captured before CDEF writes over them.
#![tactic(auto)]

pub mod tests; // tests.rt: the refusals of capture
pub mod rows; // rows.rt: the rows of a boundary, captured and handed out

ghost use Rattle.std.specs.Prelude.{◌≡◌, length};
ghost use Rattle.standard.specs.Answers.{of_stored};
ghost use Rattle.standard.specs.Calls.{capture_edges};
ghost use Rattle.standard.specs.Refusals.{capture_tests, first};

use crate::rows::capture_rows;
use crate::tests::capture_tests;
use frames::plane::Plane;
use standard::{Frame, Refusal};

// Captures the edge rows of a deblocked plane; a refused call leaves the slice as it was.
pub fn capture_edges(f: Frame, deblocked: &[i32], edges: &mut [i32]) -> Result<(), Refusal>
    ensures result_value { of_stored result ≡ first (capture_tests f deblocked.now (length edges.old)) }
    ensures edges_after { edges.new ≡ capture_edges f deblocked.now edges.old }
{
    let p = capture_tests(f, deblocked, edges.len())?;
    captured(p, deblocked, edges);
    Ok(())
}

// The rows, once no number is given.
fn captured(p: Plane, deblocked: &[i32], edges: &mut [i32])
    requires { first (capture_tests p.frame deblocked.now (length edges.old)) ≡ 0 }
    ensures { edges.new ≡ capture_edges p.frame deblocked.now edges.old }
{
    capture_rows(
        edges,
        deblocked,
        p.sub_y(),
        p.height() as usize,
        p.width() as usize,
    );
}

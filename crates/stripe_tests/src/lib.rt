// The refusals of in-place restore of one stripe: 1 to 5, 7, 9 to 16, the lowest that applies.
#![tactic(auto)]

pub mod conditions; // conditions.rt: lengths and rooms, and what frame type 0 does not ask
pub mod marks; // marks.rt: the marks
pub mod rows; // rows.rt: the samples that a stripe reads

ghost use Rattle.std.specs.Prelude.{◌≡◌, false, ◌<◌, length};
ghost use Rattle.standard.specs.Answers.{of_stored};
ghost use Rattle.standard.specs.Stripes as defined;
ghost use Rattle.standard.specs.Refusals.{first, no1, no9, plane_height, plane_width, samples, size5, sub_y_of, typed};
ghost use Rattle.stripe_tests.specs.Parts.{all_tests, last_tests, mark_tests, slice_tests};

use crate::conditions::{bad_edges, bad_length, typed_rooms, typed_size, typed_table, typed_units};
use crate::marks::bad_marks;
use crate::rows::bad_rows;
use frames::plane::{Plane, plane_of};
use frames::{bad_depth, bad_frame_type, bad_plane};
use geometry::stripes::stripes;
use standard::{Frame, Refusal};

// What is left for a stripe that is there and not marked: 15, 16.
fn last_tests(
    p: Plane,
    s: u32,
    edges: &[i32],
    plane: &[i32],
    scratch: usize,
    copy: usize,
) -> Result<(), Refusal>
    requires { (no1 p.frame.depth ≡ false) × (s < defined.stripes (sub_y_of p.frame) (plane_height p.frame)) × (length plane.now ≡ samples p.frame) × (no9 (sub_y_of p.frame) (plane_height p.frame) (plane_width p.frame) (length edges.now) ≡ false) }
    ensures { of_stored result ≡ first (last_tests p.frame s edges.now plane.now scratch copy) }
{
    if bad_rows(p, s, edges, plane) {
        return Err(Refusal::BadSample);
    }
    if typed_rooms(p, scratch, copy) {
        return Err(Refusal::ShortScratch);
    }
    Ok(())
}

// Marks and stripe number, once the slices have their lengths: 12 to 14, then the rest.
fn mark_tests(
    p: Plane,
    s: u32,
    edges: &[i32],
    plane: &[i32],
    marks: &[u8],
    scratch: usize,
    copy: usize,
) -> Result<(), Refusal>
    requires { (no1 p.frame.depth ≡ false) × (length plane.now ≡ samples p.frame) × (no9 (sub_y_of p.frame) (plane_height p.frame) (plane_width p.frame) (length edges.now) ≡ false) }
    ensures { of_stored result ≡ first (mark_tests p.frame s edges.now plane.now scratch copy marks.now) }
{
    let n = stripes(p.sub_y(), p.height());
    if bad_marks(n as usize, marks) {
        return Err(Refusal::BadMarks);
    }
    if n <= s {
        return Err(Refusal::BadIndex);
    }
    if marks[s as usize] == 1 {
        return Err(Refusal::AlreadyRestored);
    }
    last_tests(p, s, edges, plane, scratch, copy)
}

// Lengths and table, once the frame's numbers are legal: 7, 9 to 11, then the rest.
// Stays: no plainer. Number 1 is asked of by 15 alone, and a struct over `Plane` for it would put one more field before each number of the frame.
fn slice_tests(
    p: Plane,
    s: u32,
    table: &[i32],
    edges: &[i32],
    plane: &[i32],
    marks: &[u8],
    scratch: usize,
    copy: usize,
) -> Result<(), Refusal>
    requires { (no1 p.frame.depth ≡ false) × (typed p.frame (size5 p.frame) ≡ false) }
    ensures { of_stored result ≡ first (slice_tests p.frame s edges.now plane.now scratch copy table.now marks.now) }
{
    if bad_length(p, plane.len()) {
        return Err(Refusal::BadShape);
    }
    if bad_edges(p, edges.len()) {
        return Err(Refusal::BadEdgeRows);
    }
    if typed_units(p, table.len()) {
        return Err(Refusal::BadUnitTable);
    }
    if typed_table(p.frame, table) {
        return Err(Refusal::BadUnit);
    }
    mark_tests(p, s, edges, plane, marks, scratch, copy)
}

// The lowest refusal of a stripe's call, if any.
pub fn stripe_tests(
    f: Frame,
    s: u32,
    table: &[i32],
    edges: &[i32],
    plane: &[i32],
    marks: &[u8],
    scratch: usize,
    copy: usize,
) -> Result<(), Refusal>
    ensures { of_stored result ≡ first (all_tests f s edges.now plane.now scratch copy table.now marks.now) }
{
    if bad_depth(f.depth) {
        return Err(Refusal::BadDepth);
    }
    if bad_plane(f.plane, f.sub_x, f.sub_y) {
        return Err(Refusal::BadPlane);
    }
    if bad_frame_type(f.frame_type) {
        return Err(Refusal::BadFrameType);
    }
    let p = plane_of(f)?;
    if typed_size(f) {
        return Err(Refusal::BadUnitSize);
    }
    slice_tests(p, s, table, edges, plane, marks, scratch, copy)
}

// The refusals of whole-plane restore: 1 to 5, 7, 10, 11, 15, 16, the lowest that applies.
#![tactic(auto)]

ghost use Rattle.std.specs.Prelude.{◌≡◌, false, not, ◌&&◌, ◌||◌, List, ℕ, ◌<◌, eqb, ltb, ℤ};
ghost use Rattle.standard.specs.Answers.{of_stored};
ghost use Rattle.standard.specs.Refusals.{first, no1, no3, no10, no11, no15, plane_height, plane_tests, plane_width, samples, scratch_need, sub_y_of};

use frames::plane::{Plane, plane_of};
use frames::{bad_depth, bad_frame_type, bad_plane, bad_unit_size};
use geometry::planes::Divided;
use standard::{Frame, Refusal};
use units::first_illegal;
use units::samples::out_of_range;

// 7: one of the three slices is not the plane's samples.
fn bad_shape(p: Plane, deblocked: usize, cdef: usize, out: usize) -> bool
    ensures { result ≡ not (eqb deblocked (samples p.frame) && eqb cdef (samples p.frame) && eqb out (samples p.frame)) }
{
    let n = p.samples();
    deblocked != n || cdef != n || out != n
}

// 10: the table is not ten numbers for each unit.
pub fn bad_table(d: Divided, table: usize) -> bool
    ensures { result ≡ no10 d.plane.frame.unit_size (plane_height d.plane.frame) (plane_width d.plane.frame) table }
{
    let c = d.counts();
    let rows = c.unit_rows as usize;
    let cols = c.unit_cols as usize;
    table != 10 * rows * cols
}

// 11: an entry of the table is not legal.
pub fn some_illegal(plane: u32, table: &[i32]) -> bool
    ensures { result ≡ no11 plane table.now }
{
    first_illegal(plane, table) < table.len() / 10
}

// 15: a sample of the deblocked or of the CDEF plane is out of range.
fn bad_samples(depth: u32, deblocked: &[i32], cdef: &[i32]) -> bool
    requires { no1 depth ≡ false }
    ensures { result ≡ (no15 depth deblocked.now || no15 depth cdef.now) }
{
    out_of_range(deblocked, depth) || out_of_range(cdef, depth)
}

// 16: the scratch is shorter than the largest rectangle needs.
pub fn short_scratch(p: Plane, scratch: usize) -> bool
    ensures { result ≡ ltb scratch (scratch_need (sub_y_of p.frame) (plane_height p.frame) (plane_width p.frame)) }
{
    let wide = p.width().min(383) + 8;
    let high = p.height().min(64 >> p.sub_y()) + 8;
    let need = 6 * wide * high;
    scratch < need as usize
}

// At frame type 0 the unit size, the table and the scratch are not looked at: 7 and 15 are left.
fn plain_tests(p: Plane, deblocked: &[i32], cdef: &[i32], out: usize) -> Result<(), Refusal>
    requires depth_value { no1 p.frame.depth ≡ false }
    requires frame_type_value { p.frame.frame_type ≡ 0 }
    ensures { (table : List ℤ) (scratch : ℕ) → of_stored result ≡ first (plane_tests p.frame table deblocked.now cdef.now out scratch) }
{
    if bad_shape(p, deblocked.len(), cdef.len(), out) {
        return Err(Refusal::BadShape);
    }
    if bad_samples(p.frame.depth, deblocked, cdef) {
        return Err(Refusal::BadSample);
    }
    Ok(())
}

// At the other types, with a legal unit size: 7, 10, 11, 15, 16.
fn typed_tests(
    d: Divided,
    table: &[i32],
    deblocked: &[i32],
    cdef: &[i32],
    out: usize,
    scratch: usize,
) -> Result<(), Refusal>
    requires depth_value { no1 d.plane.frame.depth ≡ false }
    requires frame_type_nonzero { (no3 d.plane.frame.frame_type ≡ false) × (0 < d.plane.frame.frame_type) }
    ensures { of_stored result ≡ first (plane_tests d.plane.frame table.now deblocked.now cdef.now out scratch) }
{
    let f = d.plane.frame;
    if bad_shape(d.plane, deblocked.len(), cdef.len(), out) {
        return Err(Refusal::BadShape);
    }
    if bad_table(d, table.len()) {
        return Err(Refusal::BadUnitTable);
    }
    if some_illegal(f.plane, table) {
        return Err(Refusal::BadUnit);
    }
    if bad_samples(f.depth, deblocked, cdef) {
        return Err(Refusal::BadSample);
    }
    if short_scratch(d.plane, scratch) {
        return Err(Refusal::ShortScratch);
    }
    Ok(())
}

// What is left once 1 to 4 give no number.
// Stays: no plainer. Number 1 is asked of by 15 alone, and a struct over `Plane` for it would put one more field before each number of the frame.
fn slice_tests(
    p: Plane,
    table: &[i32],
    deblocked: &[i32],
    cdef: &[i32],
    out: usize,
    scratch: usize,
) -> Result<(), Refusal>
    requires { (no1 p.frame.depth ≡ false) × (no3 p.frame.frame_type ≡ false) }
    ensures { of_stored result ≡ first (plane_tests p.frame table.now deblocked.now cdef.now out scratch) }
{
    let f = p.frame;
    if f.frame_type == 0 {
        return plain_tests(p, deblocked, cdef, out);
    }
    if bad_unit_size(f.plane, f.sub_x, f.sub_y, f.unit_size) {
        return Err(Refusal::BadUnitSize);
    }
    let d = Divided { plane: p };
    typed_tests(d, table, deblocked, cdef, out, scratch)
}

// The lowest refusal of a whole-plane call, if any.
pub fn plane_tests(
    f: Frame,
    table: &[i32],
    deblocked: &[i32],
    cdef: &[i32],
    out: usize,
    scratch: usize,
) -> Result<(), Refusal>
    ensures { of_stored result ≡ first (plane_tests f table.now deblocked.now cdef.now out scratch) }
{
    if bad_depth(f.depth) {
        return Err(Refusal::BadDepth);
    }
    if bad_plane(f.plane, f.sub_x, f.sub_y) {
        return Err(Refusal::BadPlane);
    }
    if bad_frame_type(f.frame_type) {
        return Err(Refusal::BadFrameType);
    }
    let p = plane_of(f)?;
    slice_tests(p, table, deblocked, cdef, out, scratch)
}

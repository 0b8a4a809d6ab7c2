// Loop restoration of a plane: rectangle by rectangle, stripe by stripe.
#![tactic(auto)]

pub mod rectangles; // rectangles.rt: one rectangle of a frame, and the rectangles of a stripe
pub mod planes; // planes.rt: every stripe of a plane

ghost use Rattle.std.specs.Prelude.{◌≡◌, length};
ghost use Rattle.standard.specs.Answers.{of_restored};
ghost use Rattle.standard.specs.Planes.{restored_slice};
ghost use Rattle.standard.specs.Calls.{plane_answer, plane_out, shape_of};
ghost use Rattle.standard.specs.Refusals.{plane_tests, first};

use crate::planes::restore_stripes;
use asked::plane_tests;
use counted::count_changed;
use runs::copy_run;
use standard::{Frame, Refusal};

// Restores a plane to out and counts the samples that differ from the CDEF plane's; a refused call leaves out and scratch as they were.
pub fn restore_plane<'a>(
    f: Frame,
    table: &[i32],
    deblocked: &'a [i32],
    cdef: &'a [i32],
    out: &mut [i32],
    scratch: &mut [i32],
) -> Result<u32, Refusal>
    ensures result_value { of_restored result ≡ plane_answer f table.now deblocked.now cdef.now (length out.old) (length scratch.old) }
    ensures out_after { out.new ≡ plane_out f table.now deblocked.now cdef.now out.old (length scratch.old) }
    ensures scratch_unchanged { (first (plane_tests f table.now deblocked.now cdef.now (length out.old) (length scratch.old)) ≡ 0 → ⊥) → scratch.new ≡ scratch.old }
{
    plane_tests(f, table, deblocked, cdef, out.len(), scratch.len())?;
    write_plane(f, table, deblocked, cdef, out, scratch);
    Ok(count_changed(out, cdef))
}

// The plane, once no number is given: with frame type 0 the CDEF plane itself.
fn write_plane<'a>(
    f: Frame,
    table: &[i32],
    deblocked: &'a [i32],
    cdef: &'a [i32],
    out: &mut [i32],
    scratch: &mut [i32],
)
    requires { first (plane_tests f table.now deblocked.now cdef.now (length out.old) (length scratch.old)) ≡ 0 }
    ensures { out.new ≡ restored_slice (shape_of f table.now) deblocked.now cdef.now }
{
    if f.frame_type == 0 {
        copy_run(out, 0, cdef, 0, cdef.len());
        return;
    }
    restore_stripes(out, cdef, deblocked, f, table, scratch);
}

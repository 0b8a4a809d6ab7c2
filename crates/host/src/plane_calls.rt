// Whole-plane restoration and the capture of edge rows under their C names.
ghost use Rattle.std.specs.Prelude.{◌≡◌, length};
ghost use Rattle.standard.specs.Calls.{capture_edges, plane_answer, plane_out};
ghost use Rattle.standard.specs.Refusals.{capture_tests, first, plane_tests};
ghost use Rattle.host.specs.Numbers.{restored_of};

use crate::answers::{RestoredNumbers, stored};
use edges::capture_edges;
use restoration::restore_plane;
use standard::Frame;

pub fn cironetop_restore_plane<'a>(
    f: Frame,
    units: &[i32],
    deblocked: &'a [i32],
    cdef: &'a [i32],
    out: &mut [i32],
    scratch: &mut [i32],
) -> RestoredNumbers
    ensures result_value { restored_of result ≡ plane_answer f units.now deblocked.now cdef.now (length out.old) (length scratch.old) }
    ensures out_after { out.new ≡ plane_out f units.now deblocked.now cdef.now out.old (length scratch.old) }
    ensures scratch_unchanged { (first (plane_tests f units.now deblocked.now cdef.now (length out.old) (length scratch.old)) ≡ 0 → ⊥) → scratch.new ≡ scratch.old }
{
    RestoredNumbers::from(restore_plane(f, units, deblocked, cdef, out, scratch))
}

pub fn cironetop_capture_edges(f: Frame, deblocked: &[i32], edges: &mut [i32]) -> u32
    ensures value { result ≡ first (capture_tests f deblocked.now (length edges.old)) }
    ensures edges_after { edges.new ≡ capture_edges f deblocked.now edges.old }
{
    stored(capture_edges(f, deblocked, edges))
}

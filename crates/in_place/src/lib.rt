// One stripe restored in place: its CDEF rows go to the lent copy, and it is restored from the copy and the captured edge rows.
#![tactic(auto)]

pub mod rows; // rows.rt: the copy, and the stripe's rows from it

ghost use Rattle.std.specs.Prelude.{◌≡◌, length};
ghost use Rattle.standard.specs.Planes.{stripe_slice};
ghost use Rattle.standard.specs.Calls.{shape_of, stripe_call_number};
ghost use Rattle.stripe_tests.proofs.Passed.{StripePassed};
ghost use Rattle.in_place.specs.Call.{Promised, call_of, lent};

use crate::rows::{copy_rows, restore_rows};
use standard::{Frame, Refusal};
use stripe_tests::stripe_tests;

// Restores stripe s of the plane in place and sets its mark; a refused call leaves every slice as it was.
pub fn restore_stripe(
    f: Frame,
    s: u32,
    table: &[i32],
    edges: &[i32],
    plane: &mut [i32],
    marks: &mut [u8],
    scratch: &mut [i32],
    copy: &mut [i32],
) -> Result<(), Refusal>
    ensures promised { Promised (call_of f s table.now edges.now (length scratch.old) (length copy.old)) (lent plane.old marks.old) result (lent plane.new marks.new) }
    ensures scratch_unchanged { (stripe_call_number (call_of f s table.now edges.now (length scratch.old) (length copy.old)) (lent plane.old marks.old) ≡ 0 → ⊥) → (scratch.new ≡ scratch.old) × (copy.new ≡ copy.old) }
{
    stripe_tests(f, s, table, edges, plane, marks, scratch.len(), copy.len())?;
    write_stripe(f, s, table, edges, plane, scratch, copy);
    marks[s as usize] = 1;
    Ok(())
}

// The stripe's rows, once no number is given: with frame type 0 they stay.
fn write_stripe(
    f: Frame,
    s: u32,
    table: &[i32],
    edges: &[i32],
    plane: &mut [i32],
    scratch: &mut [i32],
    copy: &mut [i32],
)
    requires { StripePassed f s table.now edges.now plane.old (length scratch.old) (length copy.old) }
    ensures { plane.new ≡ stripe_slice (shape_of f table.now) edges.now s plane.old }
{
    if f.frame_type == 0 {
        return;
    }
    copy_rows(copy, plane, f, s);
    restore_rows(plane, copy, edges, f, s, table, scratch);
}

// One stripe restored in place, under its C name, exported.
ghost use Rattle.std.specs.Prelude.{◌≡◌, length};
ghost use Rattle.standard.specs.Calls.{after_stripe, stripe_call_number};
ghost use Rattle.in_place.specs.Call.{call_of, lent};

use standard::Frame;

#[unsafe(no_mangle)]
pub extern "C" fn cironetop_restore_stripe(
    f: Frame,
    stripe: u32,
    units: &[i32],
    edges: &[i32],
    plane: &mut [i32],
    marks: &mut [u8],
    scratch: &mut [i32],
    copy: &mut [i32],
) -> u32
    ensures value { result ≡ stripe_call_number (call_of f stripe units.now edges.now (length scratch.old) (length copy.old)) (lent plane.old marks.old) }
    ensures marks_after { lent plane.new marks.new ≡ after_stripe (call_of f stripe units.now edges.now (length scratch.old) (length copy.old)) (lent plane.old marks.old) }
    ensures scratch_unchanged { (stripe_call_number (call_of f stripe units.now edges.now (length scratch.old) (length copy.old)) (lent plane.old marks.old) ≡ 0 → ⊥) → (scratch.new ≡ scratch.old) × (copy.new ≡ copy.old) }
{
    host::stripe_calls::cironetop_restore_stripe(
        f, stripe, units, edges, plane, marks, scratch, copy,
    )
}

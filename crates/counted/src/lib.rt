// How many samples restoration changed.
#![tactic(auto)]

ghost use Rattle.std.specs.Prelude.{◌≡◌, cond, ◌≤◌, pos, nat_abs, ◌≤ℤ◌, eqb, length, get_or};
ghost use Rattle.counted.specs.Whole.{Whole};
ghost use Rattle.standard.specs.Arithmetic.{sum};

// The places where the restored plane differs from the CDEF plane.
pub fn count_changed(out: &[i32], cdef: &[i32]) -> u32
    requires out_len { (length out.now ≡ length cdef.now) × (length cdef.now ≤ 268435456) }
    requires whole { Whole out.now × Whole cdef.now }
    ensures { result ≡ sum (length cdef.now) (λ n. cond (eqb (nat_abs (get_or out.now n (pos 0))) (nat_abs (get_or cdef.now n (pos 0)))) 0 1) }
{
    let mut count: u32 = 0;
    for n in 0..cdef.len() {
        count += u32::from(out[n] != cdef[n]);
    }
    count
}

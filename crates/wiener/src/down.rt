// One row of the vertical pass: seven middle values below each other, to samples. The bias of the middle values lets a pair fit 16 bits.
ghost use Rattle.std.specs.Prelude.{◌≡◌, ◌+◌, ◌*◌, ◌≤◌, length};
ghost use Rattle.laws.specs.Runs.{stamp};
ghost use Rattle.wiener.specs.Passes.{Halves, down_at};

use crate::rounds::down_rounding;
use crate::sums::settled_sums;
use crate::taps::Down;
use standard::Depth;

// The vertical pass over seven rows of n middle values, at `from` of s.
pub fn down_row(out: &mut [i32], to: usize, s: &[i16], from: usize, n: usize, taps: &Down, d: Depth)
    requires n_in_bounds { (to + n ≤ length out.old) × (from + 7 * n ≤ length s.now) × (n ≤ taps.now.n) }
    requires halves { Halves from (from + 7 * n) s.now }
    ensures { out.new ≡ stamp (λ x. down_at d taps.now.t s.now (from + x) n) to n out.old }
{
    settled_sums(out, to, s, from, n, n, taps.tr, down_rounding(d));
}

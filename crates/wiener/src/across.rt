// One row of the horizontal pass: seven samples side by side, to middle values of 16 bits.
ghost use Rattle.std.specs.Prelude.{◌≡◌, ◌+◌, ◌≤◌, length};
ghost use Rattle.laws.specs.Runs.{stamp};
ghost use Rattle.laws.specs.Bounds.{Samples};
ghost use Rattle.standard.specs.Depths as depths;
ghost use Rattle.wiener.specs.Passes.{across_at};

use crate::rounds::across_rounding;
use crate::sums::settled_sums;
use crate::taps::Across;
use standard::Depth;

// The horizontal pass over a source row: n middle values, from the n + 6 samples at `from`.
pub fn across_row(
    s: &mut [i16],
    to: usize,
    src: &[i32],
    from: usize,
    n: usize,
    taps: &Across,
    d: Depth,
)
    requires n_in_bounds { (to + n ≤ length s.old) × (from + n + 6 ≤ length src.now) × (n ≤ taps.now.n) }
    requires samples { Samples (depths.largest d) from (from + n + 6) src.now }
    ensures { s.new ≡ stamp (λ x. across_at d taps.now.t src.now (from + x)) to n s.old }
{
    settled_sums(s, to, src, from, 1, n, taps.tr, across_rounding(d));
}

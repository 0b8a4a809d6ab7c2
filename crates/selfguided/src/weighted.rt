// Weighted sums of a2 or b2: 5-6-5 along a row for pass 0, 4 on the cross and 3 at the corners for pass 1.
ghost use Rattle.std.specs.Prelude.{◌≡◌, ◌+◌, ◌*◌, ◌≤◌, ◌<◌, pos, length};
ghost use Rattle.laws.specs.Runs.{stamp};
ghost use Rattle.laws.specs.Bounds.{Samples};
ghost use Rattle.boxes.specs.Reads.{sample_at, seen};
ghost use Rattle.selfguided.specs.Weighing.{five_six, crossed};

use boxes::samples::{signed, word};
use boxes::sums::sum_at;

pub fn six_at(s: &[i32], i: usize) -> i32
    requires { (i + 2 < length s.now) × Samples 1045245 i (i + 3) s.now }
    ensures { result ≡ pos (five_six (λ k. sample_at s.now (i + k))) }
{
    signed(5 * (word(s, i) + word(s, i + 2)) + 6 * word(s, i + 1))
}

pub fn six_row(s: &mut [i32], to: usize, from: usize, n: usize)
    requires { (from + 2 + n ≤ to) × (to + n ≤ length s.old) × Samples 1045245 from (from + 2 + n) s.old }
    ensures { s.new ≡ stamp (λ j. pos (five_six (λ k. sample_at s.old (from + j + k)))) to n s.old }
{
    for j in 0..n {
        s[to + j] = six_at(s, from + j);
    }
}

// The two corners of a row.
pub fn ends_at(s: &[i32], i: usize) -> u32
    requires { (i + 2 < length s.now) × Samples 1045245 i (i + 3) s.now }
    ensures { result ≡ sample_at s.now i + sample_at s.now (i + 2) }
{
    word(s, i) + word(s, i + 2)
}

// Three rows st apart: 4 times all nine, less the corners.
pub fn cross_at(s: &[i32], i: usize, st: usize) -> u32
    requires { (i + 2 * st + 2 < length s.now) × Samples 1045245 i (i + 2 * st + 3) s.now }
    ensures { result ≡ crossed (seen st s.now i) }
{
    let all = sum_at::<1>(s, i, 1) + sum_at::<1>(s, i + st, 1) + sum_at::<1>(s, i + 2 * st, 1);
    4 * all - (ends_at(s, i) + ends_at(s, i + 2 * st))
}

// Sums of the 2 R + 1 samples of a box of radius R, and of their squares: down a column of the window, or across a row of sums.
ghost use Rattle.std.specs.Prelude.{◌≡◌, ◌+◌, ◌*◌, ◌≤◌, ◌<◌, pos, length};
ghost use Rattle.laws.specs.Runs.{stamp};
ghost use Rattle.laws.specs.Bounds.{Samples};
ghost use Rattle.boxes.specs.Reads.{sample_at};
ghost use Rattle.boxes.specs.Reads as reads;

use crate::samples::{signed, word};

// A sample is below 8192: the remainder tells the compiler so, and the product takes one instruction.
pub fn square_at(s: &[i32], i: usize) -> u32
    requires { (i < length s.now) × Samples 4095 i (i + 1) s.now }
    ensures { result ≡ sample_at s.now i * sample_at s.now i }
{
    let x = word(s, i) % 8192;
    x * x
}

// Of samples `st` places apart. R is known to the compiler, which writes the turns out.
pub fn sum_at<const R: usize>(s: &[i32], i: usize, st: usize) -> u32
    requires { (i + 2 * R * st < length s.now) × Samples 83845125 i (i + 2 * R * st + 1) s.now × (R ≤ 2) }
    ensures { result ≡ reads.sums (2 * R + 1) s.now i st }
{
    let mut sum = 0;
    for k in 0..2 * R + 1 {
        sum += word(s, i + k * st);
    }
    sum
}

// Stays beside `sum_at`: what it adds is another function's, and a parameter for it would be called at every sample.
pub fn squares_at<const R: usize>(s: &[i32], i: usize, st: usize) -> u32
    requires { (i + 2 * R * st < length s.now) × Samples 4095 i (i + 2 * R * st + 1) s.now × (R ≤ 2) }
    ensures { result ≡ reads.squares (2 * R + 1) s.now i st }
{
    let mut sum = 0;
    for k in 0..2 * R + 1 {
        sum += square_at(s, i + k * st);
    }
    sum
}

// A row of n sums at `to`, which lies after all that is read.
pub fn sum_row<const R: usize>(s: &mut [i32], to: usize, from: usize, st: usize, n: usize)
    requires n_bound { (from + 2 * R * st + n ≤ to) × (to + n ≤ length s.old) × (R ≤ 2) }
    requires samples { Samples 83845125 from (from + 2 * R * st + n) s.old }
    ensures { s.new ≡ stamp (λ j. pos (reads.sums (2 * R + 1) s.old (from + j) st)) to n s.old }
{
    for j in 0..n {
        s[to + j] = signed(sum_at::<R>(s, from + j, st));
    }
}

// Rows of n sums at `to` and of n sums of squares at `sq`, after it, in one loop: both read the same samples.
pub fn down_row<const R: usize>(
    s: &mut [i32],
    to: usize,
    sq: usize,
    from: usize,
    st: usize,
    n: usize,
)
    requires n_bound { (from + 2 * R * st + n ≤ to) × (to + n ≤ sq) × (sq + n ≤ length s.old) × (R ≤ 2) }
    requires samples { Samples 4095 from (from + 2 * R * st + n) s.old }
    ensures { s.new ≡ stamp (λ j. pos (reads.squares (2 * R + 1) s.old (from + j) st)) sq n (stamp (λ j. pos (reads.sums (2 * R + 1) s.old (from + j) st)) to n s.old) }
{
    for j in 0..n {
        let v = signed(sum_at::<R>(s, from + j, st));
        let q = signed(squares_at::<R>(s, from + j, st));
        s[to + j] = v;
        s[sq + j] = q;
    }
}

// z, a2 and b2, a row at a time. Each row lies after all that it is made from.
ghost use Rattle.std.specs.Prelude.{◌≡◌, ◌+◌, ◌-◌, ◌*◌, ◌≤◌, ◌<◌, pos, length};
ghost use Rattle.laws.specs.Runs.{stamp};
ghost use Rattle.laws.specs.Bounds.{Samples};
ghost use Rattle.standard.specs.Arithmetic.{round_ℕ};
ghost use Rattle.standard.specs.Depths.{largest};
ghost use Rattle.standard.specs.SelfGuided.{a2_of};
ghost use Rattle.standard.specs.SelfGuided as guided;
ghost use Rattle.boxes.specs.Reads.{sample_at, sums};
ghost use Rattle.boxes.specs.Scales.{z_of};
ghost use Rattle.boxes.specs.Tables.{Shares, Weighed};

use crate::samples::{signed, word};
use crate::scale::{Scale, area};
use crate::shares::{b2_of, z_of};
use crate::sums::sum_at;
use crate::table::A2;
pub use crate::table::table;

// z of a box of radius R: sums of squares down from place fa on, the box's sum at fb.
pub fn z_at<const R: usize>(s: &[i32], fa: usize, fb: usize, z: Scale) -> i32
    requires fa_in_bounds { (fa + 2 * R < length s.now) × (fb < length s.now) × (R ≤ 2) }
    requires samples { Samples (5 * (largest z.depth * largest z.depth)) fa (fa + (2 * R + 1)) s.now }
    requires samples_2 { Samples (25 * largest z.depth) fb (fb + 1) s.now }
    ensures { result ≡ pos (z_of z (guided.area R) (sums (2 * R + 1) s.now fa 1) (sample_at s.now fb)) }
{
    signed(z_of(sum_at::<R>(s, fa, 1), word(s, fb), area(R as u32), z))
}

pub fn z_row<const R: usize>(s: &mut [i32], to: usize, fa: usize, fb: usize, n: usize, z: Scale)
    requires n_bound { (fa + 2 * R + n ≤ to) × (fb + n ≤ to) × (to + n ≤ length s.old) × (R ≤ 2) }
    requires samples { Samples (5 * (largest z.depth * largest z.depth)) fa (fa + 2 * R + n) s.old }
    requires samples_2 { Samples (25 * largest z.depth) fb (fb + n) s.old }
    ensures { s.new ≡ stamp (λ j. pos (z_of z (guided.area R) (sums (2 * R + 1) s.old (fa + j) 1) (sample_at s.old (fb + j)))) to n s.old }
{
    for j in 0..n {
        s[to + j] = z_at::<R>(s, fa + j, fb + j, z);
    }
}

pub fn a2_at(s: &[i32], i: usize, tab: &A2) -> i32
    requires { (i < length s.now) × Samples 255 i (i + 1) s.now }
    ensures { result ≡ pos (a2_of (sample_at s.now i)) }
{
    tab.at(word(s, i) as usize)
}

// Four values of a2, all read before one is stored: a turn of `a2_fours`.
fn a2_four(s: &mut [i32], to: usize, from: usize, tab: &A2)
    requires { (from + 4 ≤ to) × (to + 4 ≤ length s.old) × Samples 255 from (from + 4) s.old }
    ensures { s.new ≡ stamp (λ j. pos (a2_of (sample_at s.old (from + j)))) to 4 s.old }
{
    let a = a2_at(s, from, tab);
    let b = a2_at(s, from + 1, tab);
    let c = a2_at(s, from + 2, tab);
    let d = a2_at(s, from + 3, tab);
    s[to] = a;
    s[to + 1] = b;
    s[to + 2] = c;
    s[to + 3] = d;
}

// Stays: speed measured (docs/SPEED.md): 4 * m values, four in a turn, since no compiler makes this loop with vectors.
fn a2_fours(s: &mut [i32], to: usize, from: usize, m: usize, tab: &A2)
    requires { (from + 4 * m ≤ to) × (to + 4 * m ≤ length s.old) × Samples 255 from (from + 4 * m) s.old }
    ensures { s.new ≡ stamp (λ j. pos (a2_of (sample_at s.old (from + j)))) to (4 * m) s.old }
{
    for j in 0..m {
        a2_four(s, to + 4 * j, from + 4 * j, tab);
    }
}

// The table is read in loops of its own: beside arithmetic it would keep that from being done four at a time.
pub fn a2_row(s: &mut [i32], to: usize, from: usize, n: usize, tab: &A2)
    requires { (from + n ≤ to) × (to + n ≤ length s.old) × Samples 255 from (from + n) s.old }
    ensures { s.new ≡ stamp (λ j. pos (a2_of (sample_at s.old (from + j)))) to n s.old }
{
    let m = n / 4;
    a2_fours(s, to, from, m, tab);
    for j in 4 * m..n {
        s[to + j] = a2_at(s, from + j, tab);
    }
}

#[tactic(auto, using(crate::proofs::ScaleLaws::b2_most))]
pub fn b2_at(s: &[i32], fa: usize, fb: usize, o: u32) -> i32
    requires fa_in_bounds { (fa < length s.now) × (fb < length s.now) }
    requires shares { Shares fa (fa + 1) s.now × Weighed o fb (fb + 1) s.now }
    ensures { result ≡ pos (round_ℕ 12 ((256 - sample_at s.now fa) * sample_at s.now fb * o)) }
{
    signed(b2_of(word(s, fa), word(s, fb), o))
}

pub fn b2_row(s: &mut [i32], to: usize, fa: usize, fb: usize, n: usize, o: u32)
    requires n_bound { (fa + n ≤ to) × (fb + n ≤ to) × (to + n ≤ length s.old) }
    requires shares { Shares fa (fa + n) s.old × Weighed o fb (fb + n) s.old }
    ensures { s.new ≡ stamp (λ j. pos (round_ℕ 12 ((256 - sample_at s.old (fa + j)) * sample_at s.old (fb + j) * o))) to n s.old }
{
    for j in 0..n {
        s[to + j] = b2_at(s, fa + j, fb + j, o);
    }
}

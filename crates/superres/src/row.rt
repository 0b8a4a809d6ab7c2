// One row's part of a block: its samples with repeated edges, eight taps a column, and the rounding.
ghost use Rattle.std.specs.Prelude.{◌≡◌, ◌+◌, ◌*◌, ◌-◌, ◌≤◌, ◌<◌, min, pos, nat_abs, length, get_or};
ghost use Rattle.laws.specs.Runs.{stamp};
ghost use Rattle.laws.specs.Bounds.{Sized};
ghost use Rattle.standard.specs.Arithmetic as arithmetic;
ghost use Rattle.superres.specs.Scaled.{dot, Reach, Cut};

use super::block::Part;
use numbers::{clip1, round2};
use runs::{narrow_run, repeat_narrow};

// The three runs of a row's part: the first column `left` times, `mid` columns from `at` on, the last column `right` times.
#[derive(Clone, Copy)]
pub struct Runs {
    pub left: usize,
    pub at: usize,
    pub mid: usize,
    pub right: usize,
}

fn cut(b: Part, last: usize) -> Runs
    requires { (8 ≤ b.need) × (b.need ≤ 1040) × (b.q0 ≤ last + 4) × (last ≤ 16392) }
    ensures { Cut b.q0 b.need last result.left result.at result.mid result.right }
{
    let left = 4usize.saturating_sub(b.q0);
    let at = b.q0.saturating_sub(4);
    let rest = b.need - left;
    let mid = rest.min(last + 1 - at);
    Runs {
        left,
        at,
        mid,
        right: rest - mid,
    }
}

// r[k] is the row's sample at column q0 + k - 4, clipped to 0 .. last, for k < need.
pub fn edged(r: &mut [i16], src: &[i32], from: usize, b: Part, last: usize)
    requires le_n { (8 ≤ b.need) × (b.need ≤ 1040) × (b.q0 ≤ last + 4) × (last ≤ 16392) }
    requires n_in_bounds { (b.need ≤ length r.old) × (from + last < length src.now) × (Sized 32767 from (from + last + 1) src.now) }
    ensures { r.new ≡ stamp (λ k. get_or src.now (from + min (b.q0 + k - 4) last) (pos 0)) 0 b.need r.old }
{
    let c = cut(b, last);
    repeat_narrow(r, 0, src, from, c.left);
    narrow_run(r, c.left, src, from + c.at, c.mid);
    repeat_narrow(r, c.left + c.mid, src, from + last, c.right);
}

// Eight samples times eight taps, without a loop: the compiler makes one multiplying instruction of it.
fn dot8(r: &[i16], i: usize, t: &[i16], f: usize) -> i32
    requires i_in_bounds { (i + 8 ≤ length r.now) × (f + 8 ≤ length t.now) }
    requires sized { (Sized 4095 i (i + 8) r.now) × (Sized 128 f (f + 8) t.now) }
    ensures { result ≡ dot r.now i t.now f }
{
    (t[f] as i32) * (r[i] as i32)
        + (t[f + 1] as i32) * (r[i + 1] as i32)
        + (t[f + 2] as i32) * (r[i + 2] as i32)
        + (t[f + 3] as i32) * (r[i + 3] as i32)
        + (t[f + 4] as i32) * (r[i + 4] as i32)
        + (t[f + 5] as i32) * (r[i + 5] as i32)
        + (t[f + 6] as i32) * (r[i + 6] as i32)
        + (t[f + 7] as i32) * (r[i + 7] as i32)
}

pub fn sums(line: &mut [i32], n: usize, r: &[i16], ps: &[u16], fs: &[u16], t: &[i16])
    requires n_in_bounds { (n ≤ length line.old) × Reach n r.now ps.now fs.now }
    requires in_bounds { (512 ≤ length t.now) × (Sized 128 0 512 t.now) }
    ensures { line.new ≡ stamp (λ x. dot r.now (get_or ps.now x 0) t.now (get_or fs.now x 0)) 0 n line.old }
{
    for x in 0..n {
        line[x] = dot8(r, usize::from(ps[x]), t, usize::from(fs[x]));
    }
}

fn settled(x: i32, top: u32) -> i32
    requires { (nat_abs x ≤ 4193280) × (top ≤ 4095) }
    ensures { result ≡ pos (arithmetic.clip_to top (arithmetic.round2 7 x)) }
{
    clip1(top as i32, round2(x, 7))
}

// Round2 by 7 and the clip, in a loop of their own.
pub fn settle(out: &mut [i32], to: usize, line: &[i32], n: usize, top: u32)
    requires { (to + n ≤ length out.old) × (n ≤ length line.now) × (top ≤ 4095) × (Sized 4193280 0 n line.now) }
    ensures { out.new ≡ stamp (λ x. pos (arithmetic.clip_to top (arithmetic.round2 7 (get_or line.now x (pos 0))))) to n out.old }
{
    for x in 0..n {
        out[to + x] = settled(line[x], top);
    }
}

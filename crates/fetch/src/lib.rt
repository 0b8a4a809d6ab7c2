// The fetch: one row of the plane as a stripe reads it, handed out of one of two lent slices, and windows gathered from such rows.
#![tactic(auto)]

ghost use Rattle.std.specs.Prelude.{◌≡◌, ◌+◌, ◌-◌, ◌*◌, ◌≤◌, ◌<◌, pos, length, get_or};
ghost use Rattle.laws.specs.Runs.{stamp};
ghost use Rattle.laws.specs.Rows.{rows};
ghost use Rattle.laws.specs.Paint.{paint};
ghost use Rattle.standard.specs.Fetch as standard_fetch;
ghost use Rattle.fetch.specs.Source.{row_of, source_row, Reach};
ghost use Rattle.fetch.specs.Runs.{Runs};

use runs::{copy_run, repeat_run};

// A stripe's rows: start .. stop of the plane; `inside` is the row of the first slice that holds row start; `over` and `under` are the
// first of the two rows of the second slice that stand above and below the stripe.
#[derive(Clone, Copy)]
pub struct Source {
    pub start: usize,
    pub stop: usize,
    pub inside: usize,
    pub over: usize,
    pub under: usize,
}

// Row k of s, w samples long.
#[tactic(auto, unfolding(crate::specs::Source::row_of))]
pub fn row_of(s: &[i32], w: usize, k: usize) -> &[i32]
    requires { k * w + w ≤ length s.now }
    ensures { result.now ≡ row_of s.now w k }
{
    let a = k * w;
    &s[a..a + w]
}

// Row y of the plane as the stripe reads it: its own rows are in `inside`, those beside it in `beside`.
// Stays: docs/DECISIONS.md names this form; `row` of `rectangle`'s View calls it.
#[tactic(auto, unfolding(crate::specs::Source::source_row))]
pub fn source_row<'a>(
    inside: &'a [i32],
    beside: &'a [i32],
    w: usize,
    h: usize,
    r: Source,
    y: usize,
) -> &'a [i32]
    requires reach { Reach inside.now beside.now w h r }
    requires y_lt_h { (y < h) × (y ≤ 16384) × (r.over ≤ 20000) × (r.inside ≤ 20000) × (r.under ≤ 20000) }
    ensures { result.now ≡ source_row inside.now beside.now w r y }
{
    if y < r.start {
        row_of(beside, w, r.over + (y + 2).saturating_sub(r.start))
    } else if y < r.stop {
        row_of(inside, w, r.inside + (y - r.start))
    } else {
        row_of(beside, w, r.under + (y - r.stop).min(1))
    }
}

// Place k of a window round y, clamped to an extent.
pub fn near(extent: usize, y: usize, k: usize) -> usize
    requires { (0 < extent) × (y ≤ 20000) × (k ≤ 20000) }
    ensures { result ≡ standard_fetch.near extent y k }
{
    (y + k).saturating_sub(3).min(extent - 1)
}

// Three runs of a row: a columns left of the plane, b from `at` on, the rest right of it.
#[derive(Clone, Copy)]
pub struct Three {
    pub a: usize,
    pub at: usize,
    pub b: usize,
}

fn split_row(x0: usize, w: usize, n: usize) -> Three
    requires { (0 < w) × (x0 ≤ 16384) × (n ≤ 400) × (w ≤ 16384) }
    ensures { Runs n x0 w result.a result.at result.b }
{
    let a = n.min(3usize.saturating_sub(x0));
    let at = near(w, x0 + a, 0);
    let b = (n - a).min(w - at);
    Three { a, at, b }
}

// n samples of a row from column x0 − 3 on, columns clamped: the middle is copied without a clamp for each sample.
pub fn gather_row(dst: &mut [i32], to: usize, row: &[i32], x0: usize, n: usize)
    requires { (to + n ≤ length dst.old) × (0 < length row.now) × (length row.now ≤ 16384) × (x0 ≤ 16384) × (n ≤ 400) }
    ensures { dst.new ≡ stamp (λ k. get_or row.now (standard_fetch.near (length row.now) x0 k) (pos 0)) to n dst.old }
{
    let w = row.len();
    let Three { a, at, b } = split_row(x0, w, n);
    repeat_run(dst, to, row[0], a);
    copy_run(dst, to + a, row, at, b);
    repeat_run(dst, to + a + b, row[w - 1], n - a - b);
}

// The window of a rectangle at (x0, y0): n rows of m samples from (x0 − 3, y0 − 3) on, rows by the fetch, columns clamped.
// Stays: it asks less than a View holds, rows of any numbers (what may not change); `gather` of `rectangle`'s View calls it.
#[tactic(auto, using(laws::specs::Index::row_le))]
pub fn gather<'a>(
    dst: &mut [i32],
    inside: &'a [i32],
    beside: &'a [i32],
    w: usize,
    h: usize,
    r: Source,
    x0: usize,
    y0: usize,
    m: usize,
    n: usize,
)
    requires m_in_bounds { (n * m ≤ length dst.old) × (0 < w) × (w ≤ 16384) × (0 < h) × (h ≤ 16384) }
    requires x0_bound { (x0 ≤ 16384) × (y0 ≤ 16384) × (m ≤ 400) × (n ≤ 400) }
    requires reach { Reach inside.now beside.now w h r × (r.over ≤ 20000) × (r.inside ≤ 20000) × (r.under ≤ 20000) }
    ensures { dst.new ≡ rows (λ k j. get_or (source_row inside.now beside.now w r (standard_fetch.near h y0 k)) (standard_fetch.near w x0 j) (pos 0)) 0 m m n dst.old }
{
    for k in 0..n {
        let y = near(h, y0, k);
        let row = source_row(inside, beside, w, h, r, y);
        gather_row(dst, k * m, row, x0, m);
    }
}

// A rectangle of a plane: w columns from x on, h rows from y on.
#[derive(Clone, Copy)]
pub struct Rect {
    pub x: usize,
    pub y: usize,
    pub w: usize,
    pub h: usize,
}

// A rectangle of a plane w wide, copied from a slice whose row `at` holds the rectangle's first row.
#[tactic(auto, using(laws::specs::Index::row_le))]
pub fn copy_rect(out: &mut [i32], src: &[i32], at: usize, w: usize, r: Rect)
    requires rw_bound { (r.x + r.w ≤ w) × ((r.y + r.h) * w ≤ length out.old) × ((at + r.h) * w ≤ length src.now) }
    requires w_bound { (w ≤ 16384) × (r.y + r.h ≤ 16384) × (at + r.h ≤ 65536) }
    ensures { out.new ≡ rows (λ y x. get_or src.now ((at + y) * w + (r.x + x)) (pos 0)) (r.y * w + r.x) w r.w r.h out.old }
{
    for y in 0..r.h {
        copy_run(out, (r.y + y) * w + r.x, src, (at + y) * w + r.x, r.w);
    }
}

// A block of a Wiener unit, at most 64 columns wide. Inside the plane the horizontal pass reads the source rows themselves; only at the
// plane's left and right edge a row is gathered with its columns clamped.
ghost use Rattle.std.specs.Prelude.{◌≡◌, ◌+◌, ◌*◌, ◌≤◌, ◌<◌, pos, nat_abs, length, get_or};
ghost use Rattle.laws.specs.Bounds.{Samples};
ghost use Rattle.laws.specs.Runs.{stamp};
ghost use Rattle.laws.specs.Rows.{rows};
ghost use Rattle.laws.specs.Paint.{Within, paint};
ghost use Rattle.standard.specs.Depths.{largest};
ghost use Rattle.standard.specs.Fetch as standard_fetch;
ghost use Rattle.standard.specs.Wiener as standard_wiener;
ghost use Rattle.wiener.specs.Passes.{biased};
ghost use Rattle.fetch.specs.Source.{source_cell};
ghost use Rattle.rectangle.specs.Seen.{seen};

use crate::view::View;
use fetch::{Rect, gather_row, near};
use standard::Depth;
use wiener::across::across_row;
use wiener::taps::{Across, Repeated};
use wiener::window::down_window;

// n middle values of a row from column x0 on. `clamped_row` is called from two places on purpose: inlined into one, its copy becomes a memcpy,
// which the archive for C would need from outside.
fn middle_row(
    s: &mut [i16],
    to: usize,
    line: &mut [i32; 72],
    row: &[i32],
    x0: usize,
    n: usize,
    taps: &Across,
    d: Depth,
)
    requires n_in_bounds { (to + n ≤ length s.old) × (x0 + n ≤ length row.now) × (length row.now ≤ 16384) × (0 < n) × (n ≤ taps.now.n) }
    requires samples { Samples (largest d) 0 (length row.now) row.now }
    ensures { s.new ≡ stamp (λ x. biased d (standard_wiener.across d taps.now.t (λ _ b. nat_abs (get_or row.now (standard_fetch.near (length row.now) x0 (x + b)) (pos 0))) 0)) to n s.old }
{
    if x0 < 3 {
        clamped_row(s, to, line, row, x0, n, taps, d);
    } else if row.len() < x0 + n + 3 {
        clamped_row(s, to, line, row, x0, n, taps, d);
    } else {
        across_row(s, to, row, x0 - 3, n, taps, d);
    }
}

// The same from a copy of the row's part with its columns clamped.
fn clamped_row(
    s: &mut [i16],
    to: usize,
    line: &mut [i32; 72],
    row: &[i32],
    x0: usize,
    n: usize,
    taps: &Across,
    d: Depth,
)
    requires n_in_bounds { (to + n ≤ length s.old) × (x0 + n ≤ length row.now) × (length row.now ≤ 16384) × (0 < n) × (n ≤ taps.now.n) }
    requires samples { Samples (largest d) 0 (length row.now) row.now }
    ensures { s.new ≡ stamp (λ x. biased d (standard_wiener.across d taps.now.t (λ _ b. nat_abs (get_or row.now (standard_fetch.near (length row.now) x0 (x + b)) (pos 0))) 0)) to n s.old }
{
    gather_row(line, 0, row, x0, n + 6);
    across_row(s, to, line, 0, n, taps, d);
}

// The horizontal pass over the h + 6 rows that the rectangle's samples read, to the first h + 6 rows of w in s.
fn across_rows(s: &mut [i16], v: View<'_>, r: Rect, taps: &Across)
    requires rw_in_bounds { ((r.h + 6) * r.w ≤ length s.old) × (0 < r.w) × (r.w ≤ taps.now.n) × (r.h ≤ 64) × Within r.x r.y r.w r.h v.w v.h }
    ensures { s.new ≡ rows (λ k x. biased v.entry.depth (standard_wiener.across v.entry.depth taps.now.t (λ _ b. source_cell v.entry.inside.now v.entry.beside.now v.entry.w v.entry.source (standard_fetch.near v.entry.h r.y k) (standard_fetch.near v.entry.w r.x (x + b))) 0)) 0 r.w r.w (r.h + 6) s.old }
{
    let mut line = [0i32; 72];
    for k in 0..r.h + 6 {
        let y = near(v.h, r.y, k);
        let row = v.row(y);
        middle_row(s, k * r.w, &mut line, row, r.x, r.w, taps, v.depth);
    }
}

// A block; s holds its middle values.
pub fn wiener_block(out: &mut [i32], v: View<'_>, r: Rect, s: &mut [i16], taps: &Repeated)
    requires w_in_bounds { (v.h * v.w ≤ length out.old) × ((r.h + 6) * r.w ≤ length s.old) × (0 < r.w) × (r.w ≤ taps.now.n) × (0 < r.h) × (r.h ≤ 64) × Within r.x r.y r.w r.h v.w v.h }
    ensures { out.new ≡ paint r.x r.y r.w r.h v.entry.w (λ y x. pos (standard_wiener.wiener v.entry.depth taps.now.t (seen v.entry y x))) out.old }
{
    across_rows(s, v, r, &taps.across());
    down_window(
        out,
        r.y * v.w + r.x,
        v.w,
        s,
        r.w,
        r.h,
        &taps.down(),
        v.depth,
    );
}

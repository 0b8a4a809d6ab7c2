// Both passes over a window: its h + 6 rows across into scratch, then h rows down into the result.
ghost use Rattle.std.specs.Prelude.{◌≡◌, ◌+◌, ◌*◌, ◌≤◌, pos, length};
ghost use Rattle.laws.specs.Rows.{rows};
ghost use Rattle.laws.specs.Bounds.{Samples};
ghost use Rattle.standard.specs.Depths.{largest};
ghost use Rattle.standard.specs.Wiener.{wiener};
ghost use Rattle.units.specs.Legal.{LegalTaps};
ghost use Rattle.wiener.specs.Passes.{Halves, across_at, down_at, seen};

use crate::across::across_row;
use crate::down::down_row;
use crate::taps::{Across, Down, Repeated};
use standard::{Depth, Taps};

// The horizontal pass over the h + 6 rows of a window, `stride` apart, to the first h + 6 rows of w in s.
pub fn across_window(
    s: &mut [i16],
    win: &[i32],
    at: usize,
    stride: usize,
    w: usize,
    h: usize,
    taps: &Across,
    d: Depth,
)
    requires w_in_bounds { ((h + 6) * w ≤ length s.old) × (at + (h + 5) * stride + (w + 6) ≤ length win.now) × (w ≤ taps.now.n) × (h ≤ 64) }
    requires samples { Samples (largest d) at (at + (h + 5) * stride + (w + 6)) win.now }
    ensures { s.new ≡ rows (λ i x. across_at d taps.now.t win.now (at + i * stride + x)) 0 w w (h + 6) s.old }
{
    for i in 0..h + 6 {
        across_row(s, i * w, win, at + i * stride, w, taps, d);
    }
}

// The vertical pass over the first h + 6 rows of w in s, to h rows of out, `stride` apart.
pub fn down_window(
    out: &mut [i32],
    to: usize,
    stride: usize,
    s: &[i16],
    w: usize,
    h: usize,
    taps: &Down,
    d: Depth,
)
    requires w_in_bounds { (to + h * stride + w ≤ length out.old + stride) × ((h + 6) * w ≤ length s.now) × (w ≤ taps.now.n) × (h ≤ 64) }
    requires halves { Halves 0 ((h + 6) * w) s.now }
    ensures { out.new ≡ rows (λ i x. down_at d taps.now.t s.now (i * w + x) w) to stride w h out.old }
{
    for i in 0..h {
        down_row(out, to + i * stride, s, i * w, w, taps, d);
    }
}

// The Wiener filter over a window of h + 6 rows of w + 6 samples, to h rows of w in out; s is scratch.
pub fn wiener_window(
    out: &mut [i32],
    to: usize,
    out_stride: usize,
    win: &[i32],
    at: usize,
    stride: usize,
    w: usize,
    h: usize,
    s: &mut [i16],
    t: Taps,
    d: Depth,
)
    requires w_in_bounds { (to + h * out_stride + w ≤ length out.old + out_stride) × (at + (h + 5) * stride + (w + 6) ≤ length win.now) × ((h + 6) * w ≤ length s.old) × (w ≤ 64) × (h ≤ 64) }
    requires legal_taps { LegalTaps t }
    requires samples { Samples (largest d) at (at + (h + 5) * stride + (w + 6)) win.now }
    ensures { out.new ≡ rows (λ i j. pos (wiener d t (seen win.now at stride i j))) to out_stride w h out.old }
{
    let mut hr = [0i16; 256];
    let mut vr = [0i16; 256];
    let taps = Repeated::new(t, w, &mut hr, &mut vr);
    across_window(s, win, at, stride, w, h, &taps.across(), d);
    down_window(out, to, out_stride, s, w, h, &taps.down(), d);
}

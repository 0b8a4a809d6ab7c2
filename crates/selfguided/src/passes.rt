// The two passes over the window: sums and a2, b2 of the rows that each needs.
ghost use Rattle.std.specs.Prelude.{◌+◌, ◌≤◌};
ghost use Rattle.selfguided.specs.Parameters.{EpsFor, eps_of, radius_of};
ghost use Rattle.selfguided.specs.Windows.{Window, First, Second};
ghost use Rattle.selfguided.specs.Passes.{SixSetting, SixRow, Pass, Sixed, Crossed, counted};

use crate::areas::areas_of;
use crate::weighted::six_row;
use boxes::box_rows::box_row;
use boxes::scale::Scale;
use boxes::table::A2;
use standard::Depth;

// One row of pass 0: of a2 and b2 only the 5-6-5 sums are kept, since three rows of results share them.
pub fn six_box_row(
    s: &mut [i32],
    from: usize,
    line: usize,
    a: usize,
    b: usize,
    w: usize,
    z: Scale,
    tab: &A2,
)
    requires { SixSetting z from line a b w s.old }
    ensures { SixRow z from line a b w s.old s.new }
{
    let la = line + (4 * w + 16);
    let lb = la + (w + 2);
    box_row::<2>(s, from, line, la, lb, w, z, tab);
    six_row(s, a, la, w);
    six_row(s, b, lb, w);
}

// Radius 2, every second row: pass 0 counts rows of odd number only.
pub fn pass0(s: &mut [i32], w: usize, h: usize, odd: usize, z: Scale, tab: &A2)
    requires { Pass 2 z w h s.old × (odd ≤ 1) }
    ensures { Sixed z.depth z.eps w h odd (counted h odd) s.old s.new }
{
    let at = areas_of(w, h);
    for k in 0..(h + 3 - odd) / 2 {
        six_box_row(
            s,
            (2 * k + odd) * (w + 6),
            at.line,
            at.six_a + k * w,
            at.six_b + k * w,
            w,
            z,
            tab,
        );
    }
}

// Radius 1, every row from -1 to h.
pub fn pass1(s: &mut [i32], w: usize, h: usize, z: Scale, tab: &A2)
    requires { Pass 1 z w h s.old }
    ensures { Crossed z.depth z.eps w h (h + 2) s.old s.new }
{
    let at = areas_of(w, h);
    for y in 0..h + 2 {
        box_row::<1>(
            s,
            (y + 1) * (w + 6) + 1,
            at.line,
            at.cross_a + y * (w + 2),
            at.cross_b + y * (w + 2),
            w,
            z,
            tab,
        );
    }
}

// A pass without eps, whose radius is 0, does no work.
// Stays: two functions of three lines, no plainer as one: they share no loop, and a generic one would need a trait for the pass to run.
pub fn first_pass(
    s: &mut [i32],
    w: usize,
    h: usize,
    odd: usize,
    eps: Option<u32>,
    d: Depth,
    tab: &A2,
)
    requires { Window d w h odd s.old × EpsFor (radius_of 2 eps) (eps_of eps) }
    ensures { First (radius_of 2 eps) (eps_of eps) d w h odd s.old s.new }
{
    if let Some(eps) = eps {
        pass0(s, w, h, odd, Scale::for_radius(2, eps, d), tab);
    }
}

pub fn second_pass(s: &mut [i32], w: usize, h: usize, eps: Option<u32>, d: Depth, tab: &A2)
    requires { Window d w h 0 s.old × EpsFor (radius_of 1 eps) (eps_of eps) }
    ensures { Second (radius_of 1 eps) (eps_of eps) d w h s.old s.new }
{
    if let Some(eps) = eps {
        pass1(s, w, h, Scale::for_radius(1, eps, d), tab);
    }
}

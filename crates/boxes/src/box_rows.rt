// One row of A and B: sums down the window, then across, then z, a2 and b2, by four lines of the scratch.
ghost use Rattle.boxes.specs.BoxRows.{Setting, BoxRow};

use crate::rows::{a2_row, b2_row, z_row};
use crate::scale::{Scale, area, one_over};
use crate::sums::{down_row, sum_row};
use crate::table::A2;

// Radius R: w + 2 places, from the 2 R + 1 rows of w + 2 + 2 R samples at `from`.
pub fn box_row<const R: usize>(
    s: &mut [i32],
    from: usize,
    line: usize,
    a: usize,
    b: usize,
    w: usize,
    z: Scale,
    tab: &A2,
)
    requires { Setting R z from line a b w s.old }
    ensures { BoxRow R z from line a b w s.old s.new }
{
    let st = w + 6;
    let n = w + 2;
    let va = line + st;
    let zb = va + st;
    let zs = zb + n;
    down_row::<R>(s, line, va, from, st, n + 2 * R);
    sum_row::<R>(s, zb, line, 1, n);
    z_row::<R>(s, zs, va, zb, n, z);
    a2_row(s, a, zs, n, tab);
    b2_row(s, b, a, zb, n, one_over(area(R as u32)));
}

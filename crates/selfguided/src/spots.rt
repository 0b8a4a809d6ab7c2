// Where a row of results finds what it is made from.
ghost use Rattle.std.specs.Prelude.{◌≤◌, ◌<◌};
ghost use Rattle.selfguided.specs.Windows.{SpotsOf};

use crate::areas::areas_of;

// The 5-6-5 sums of a2 and b2, a2 and b2 of pass 1, and the samples themselves.
#[derive(Clone, Copy)]
pub struct Spots {
    pub sa: usize,
    pub sb: usize,
    pub a: usize,
    pub b: usize,
    pub u: usize,
}

pub fn spots_of(w: usize, h: usize, odd: usize, i: usize) -> Spots
    requires { (w ≤ 383) × (h ≤ 64) × (odd ≤ 1) × (i < h) }
    ensures { SpotsOf w h odd i result }
{
    let at = areas_of(w, h);
    let k = (i + 1 - odd) / 2 * w;
    let n = i * (w + 2);
    Spots {
        sa: at.six_a + k,
        sb: at.six_b + k,
        a: at.cross_a + n,
        b: at.cross_b + n,
        u: (i + 3) * (w + 6) + 3,
    }
}

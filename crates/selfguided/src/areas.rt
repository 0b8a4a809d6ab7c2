// Where the areas of the scratch begin.
ghost use Rattle.std.specs.Prelude.{◌≤◌};
ghost use Rattle.selfguided.specs.Areas.{AreasOf};

// The window lies at 0; then lines of sums, the 5-6-5 sums of a2 and b2 of pass 0, and a2 and b2 of pass 1.
#[derive(Clone, Copy)]
pub struct Areas {
    pub line: usize,
    pub six_a: usize,
    pub six_b: usize,
    pub cross_a: usize,
    pub cross_b: usize,
}

pub fn areas_of(w: usize, h: usize) -> Areas
    requires { (w ≤ 383) × (h ≤ 64) }
    ensures { AreasOf w h result }
{
    let line = (h + 6) * (w + 6);
    let six_a = line + (4 * w + 16) + (w + 2) + (w + 2);
    let six_b = six_a + (h + 2) * w;
    let cross_a = six_b + (h + 2) * w;
    let cross_b = cross_a + (h + 2) * (w + 2);
    Areas {
        line,
        six_a,
        six_b,
        cross_a,
        cross_b,
    }
}

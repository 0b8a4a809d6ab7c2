// The taps of three coefficients, and four rows that repeat them: a tap read in the loop from a row of 16 bits gives the compiler its range.
ghost use Rattle.std.specs.Prelude.{◌≡◌, ◌≤◌, pos, nat_abs, ◌*ℤ◌, get_or};
ghost use Rattle.laws.specs.Bounds.{Sized};
ghost use Rattle.units.specs.Legal.{LegalTaps};
ghost use Rattle.wiener.specs.Passes.{tap_rows, TapRows, Small};

use runs::repeat_narrow;
use standard::Taps;

// A product of 16 bits: one instruction on every machine.
pub fn by(x: i16, t: i16) -> i32
    requires { nat_abs t ≤ 286 }
    ensures { result ≡ x *ℤ t }
{
    (x as i32) * (t as i32)
}

// Each of the four taps w times, 64 places apart.
fn tap_rows(tr: &mut [i16; 256], c: &[i32; 4], w: usize)
    requires w_bound { w ≤ 64 }
    requires sized { Sized 32767 0 4 c.now }
    ensures tr_after { tr.new ≡ tap_rows (get_or c.now 0 (pos 0)) (get_or c.now 1 (pos 0)) (get_or c.now 2 (pos 0)) (get_or c.now 3 (pos 0)) w tr.old }
{
    repeat_narrow(tr, 0, c, 0, w);
    repeat_narrow(tr, 64, c, 1, w);
    repeat_narrow(tr, 128, c, 2, w);
    repeat_narrow(tr, 192, c, 3, w);
}

// The rows of a pass by its three coefficients, for w columns: the four taps that differ.
pub fn rows_of(tr: &mut [i16; 256], c0: i32, c1: i32, c2: i32, w: usize)
    requires w_bound { w ≤ 64 }
    requires small { Small c0 c1 c2 }
    ensures { TapRows c0 c1 c2 w tr.new }
{
    let m = 128 - 2 * (c0 + c1 + c2);
    tap_rows(tr, &[c0, c1, c2, m], w);
}

// A unit's taps for n columns: the rows of the horizontal pass and those of the vertical pass, lent, since by value they would be copied.
#[derive(Clone, Copy)]
pub struct Repeated<'a> {
    pub t: Taps,
    pub n: usize,
    pub hr: &'a [i16; 256],
    pub vr: &'a [i16; 256],
    pub ghost legal: { LegalTaps t },
    pub ghost few: { n ≤ 64 },
    pub ghost across: { TapRows t.h0 t.h1 t.h2 n hr.now },
    pub ghost down: { TapRows t.v0 t.v1 t.v2 n vr.now },
}

// What the horizontal pass reads of a unit's taps: their rows for n columns.
#[derive(Clone, Copy)]
pub struct Across<'a> {
    pub t: Taps,
    pub n: usize,
    pub tr: &'a [i16; 256],
    pub ghost legal: { LegalTaps t },
    pub ghost few: { n ≤ 64 },
    pub ghost rows: { TapRows t.h0 t.h1 t.h2 n tr.now },
}

// The same of the vertical pass.
#[derive(Clone, Copy)]
pub struct Down<'a> {
    pub t: Taps,
    pub n: usize,
    pub tr: &'a [i16; 256],
    pub ghost legal: { LegalTaps t },
    pub ghost few: { n ≤ 64 },
    pub ghost rows: { TapRows t.v0 t.v1 t.v2 n tr.now },
}

impl<'a> Repeated<'a> {
    // Writes the rows of both passes to the room that is lent for each.
    pub fn new(t: Taps, n: usize, hr: &'a mut [i16; 256], vr: &'a mut [i16; 256]) -> Repeated<'a>
        requires { (n ≤ 64) × LegalTaps t }
        ensures { (result.t ≡ t) × (result.n ≡ n) }
    {
        rows_of(hr, t.h0, t.h1, t.h2, n);
        rows_of(vr, t.v0, t.v1, t.v2, n);
        Repeated { t, n, hr, vr }
    }

    pub fn across(&self) -> Across<'a>
        ensures { (result.t ≡ self.now.t) × (result.n ≡ self.now.n) }
    {
        Across {
            t: self.t,
            n: self.n,
            tr: self.hr,
        }
    }

    pub fn down(&self) -> Down<'a>
        ensures { (result.t ≡ self.now.t) × (result.n ≡ self.now.n) }
    {
        Down {
            t: self.t,
            n: self.n,
            tr: self.vr,
        }
    }
}

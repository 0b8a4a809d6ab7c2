// The filter of each kind over one window of 7 rows of 7, which lies at s[0 ..]; the rest of s is scratch.
ghost use Rattle.std.specs.Prelude.{◌≡◌, ◌≤◌, pos, length};
ghost use Rattle.laws.specs.Bounds.{Samples};
ghost use Rattle.standard.specs.Depths.{largest};
ghost use Rattle.standard.specs.Fetch.{restored};
ghost use Rattle.standard.specs.Wiener.{wiener};
ghost use Rattle.standard.specs.SelfGuided.{self_guided};
ghost use Rattle.units.specs.Legal.{LegalTaps, LegalWeights, LegalKind};
ghost use Rattle.sample.specs.Seen.{seen_at};

use boxes::table::A2;
use selfguided::selfguided_window;
use standard::{Depth, Kind, Taps, Weights};
use wiener::window::wiener_window;

pub fn wiener_sample(s: &[i32], t: Taps, d: Depth) -> i32
    requires { (49 ≤ length s.now) × LegalTaps t × Samples (largest d) 0 49 s.now }
    ensures { result ≡ pos (wiener d t (seen_at s.now)) }
{
    let mut out = [0i32; 1];
    let mut middle = [0i16; 7];
    wiener_window(&mut out, 0, 1, s, 0, 7, 1, 1, &mut middle, t, d);
    out[0]
}

pub fn guided_sample(s: &mut [i32], row: u32, weights: Weights, d: Depth) -> i32
    requires { (486 ≤ length s.old) × LegalWeights weights × Samples (largest d) 0 49 s.old }
    ensures { result ≡ pos (self_guided d row weights (seen_at s.old)) }
{
    let mut out = [0i32; 1];
    let tab = A2::new();
    let odd = (row % 2) as usize;
    selfguided_window(&mut out, 0, 1, s, 1, 1, odd, weights, d, &tab);
    out[0]
}

pub fn kind_sample(s: &mut [i32], row: u32, kind: Kind, d: Depth) -> i32
    requires { (486 ≤ length s.old) × LegalKind kind × Samples (largest d) 0 49 s.old }
    ensures { result ≡ pos (restored d row kind (seen_at s.old)) }
{
    match kind {
        Kind::None => s[24],
        Kind::Wiener(t) => wiener_sample(s, t, d),
        Kind::SelfGuided(weights) => guided_sample(s, row, weights, d),
    }
}

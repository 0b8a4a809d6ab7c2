// Where an output column reads: step, start, and place and phase of each column of a block. A place is counted one up: the position's
// whole part is place - 1.
ghost use Rattle.std.specs.Prelude.{◌≡◌, ◌+◌, ◌*◌, ◌-◌, ◌/◌, ◌%◌, ◌≤◌, ◌<◌, pos, nat_abs, length};
ghost use Rattle.std.specs.Int.Signed.{quot_z};
ghost use Rattle.laws.specs.Runs.{stamp};
ghost use Rattle.standard.specs.Superres as superres;
ghost use Rattle.superres.specs.Scaled.{place_at, phase_at};

use super::block::Plan;

// The plane's two widths, downscaled and upscaled.
#[derive(Clone, Copy)]
pub struct Widths {
    pub d: u32,
    pub u: u32,
    ghost grows: { (d < u) × (u ≤ 16384) },
}

impl Widths {
    #[tactic(auto, unfolding(standard::specs::Superres::step))]
    pub fn step(self) -> u32
        ensures { result ≡ superres.step self.d self.u }
    {
        (16384 * self.d + self.u / 2) / self.u
    }

    fn err(self) -> i32
        ensures { result ≡ superres.err self.d self.u }
    {
        (self.u * self.step()) as i32 - (16384 * self.d) as i32
    }

    // Both divisions go toward zero. The first dividend is never positive, so its size is divided. 32896 is 128 and twice 16384: the sum
    // is not negative, and its remainder is the same.
    pub fn start(self) -> u32
        ensures { result ≡ superres.start self.d self.u }
    {
        let back = ((self.u - self.d) * 8192 - self.u / 2) / self.u;
        let half = self.err() / 2;
        ((32896 - back as i32 - half) as u32) % 16384
    }
}

fn place_of(at: usize, q0: usize) -> u16
    requires { (q0 * 16384 ≤ at) × (at < (q0 + 1025) * 16384) }
    ensures { result ≡ at / 16384 - q0 }
{
    (at / 16384 - q0) as u16
}

// Where the eight taps of a place's phase begin.
fn row_of(at: usize) -> u16
    ensures { result ≡ at % 16384 / 256 * 8 }
{
    (at % 16384 / 256 * 8) as u16
}

// Places, counted from the block's first, and tap rows of n columns from x0 on: one running sum.
pub fn places(ps: &mut [u16], fs: &mut [u16], p: Plan, x0: usize, n: usize)
    requires n_in_bounds { (n ≤ length ps.old) × (n ≤ length fs.old) × (n ≤ 1024) }
    requires start_bound { (p.start ≤ 16384) × (p.step ≤ 16384) × (x0 ≤ 16384) }
    ensures ps_after { ps.new ≡ stamp (λ x. place_at p.start p.step (x0 + x) - place_at p.start p.step x0) 0 n ps.old }
    ensures fs_after { fs.new ≡ stamp (λ x. phase_at p.start p.step (x0 + x) * 8) 0 n fs.old }
{
    let mut at = p.start + x0 * p.step;
    let q0 = at / 16384;
    for x in 0..n {
        ps[x] = place_of(at, q0);
        fs[x] = row_of(at);
        at += p.step;
    }
}

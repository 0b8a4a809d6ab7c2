// A row of results from the areas of the scratch: F of each pass and the projection.
ghost use Rattle.std.specs.Prelude.{◌≡◌, ℕ, ◌+◌, ◌*◌, ◌≤◌, ◌<◌, pos, length};
ghost use Rattle.laws.specs.Runs.{stamp};
ghost use Rattle.standard.specs.SelfGuided as guided;
ghost use Rattle.boxes.specs.Reads.{sample_at};
ghost use Rattle.selfguided.specs.Finals.{Source};

use crate::filtered::Filter;
use crate::projection::{Mix, project};
use crate::spots::Spots;
use boxes::samples::word;

// Result j of a row of n: A is the filter of pass 0, B that of pass 1.
pub fn result_at<A: Filter, B: Filter>(s: &[i32], p: Spots, n: usize, j: usize, m: Mix) -> i32
    requires { Source 1 (p.u + j) s.now × A.can_read p n s.now j × B.can_read p n s.now j }
    ensures { result ≡ pos (guided.project m.depth m.w0 m.w1 (16 * sample_at s.now (p.u + j)) (A.f_of p n s.now j (sample_at s.now (p.u + j))) (B.f_of p n s.now j (sample_at s.now (p.u + j)))) }
{
    let u = word(s, p.u + j);
    project(u, A::at(s, p, n, j, u), B::at(s, p, n, j, u), m)
}

pub fn result_row<A: Filter, B: Filter>(
    out: &mut [i32],
    to: usize,
    s: &[i32],
    p: Spots,
    n: usize,
    m: Mix,
)
    requires { (to + n ≤ length out.old) × Source n p.u s.now × ((j : ℕ) → j < n → A.can_read p n s.now j) × ((j : ℕ) → j < n → B.can_read p n s.now j) }
    ensures { out.new ≡ stamp (λ j. pos (guided.project m.depth m.w0 m.w1 (16 * sample_at s.now (p.u + j)) (A.f_of p n s.now j (sample_at s.now (p.u + j))) (B.f_of p n s.now j (sample_at s.now (p.u + j))))) to n out.old }
{
    for j in 0..n {
        out[to + j] = result_at::<A, B>(s, p, n, j, m);
    }
}

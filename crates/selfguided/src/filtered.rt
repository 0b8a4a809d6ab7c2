// F of one sample u: pass 1, pass 0 at an even and at an odd row of the plane, and a pass whose radius is 0.
ghost use Rattle.std.specs.Prelude.{◌≡◌, List, ℕ, ℤ, ◌+◌, ◌*◌, ◌≤◌, ⊤};
ghost use Rattle.selfguided.specs.Finals.{Sixes, Crosses, cross_f, even_f, odd_f};

use crate::spots::Spots;
use crate::weighted::cross_at;
use boxes::samples::word;

// A sum of a2 times a sample: the remainders tell the compiler that both fit 16 bits.
pub fn times(x: u32, u: u32) -> u32
    requires { (x ≤ 8192) × (u ≤ 4095) }
    ensures { result ≡ x * u }
{
    (x % 16384) * (u % 8192)
}

// What a pass makes of sample j of a row of n.
pub trait Filter {
    ghost use Rattle.selfguided.specs.declared.spots.Spots.{Spots};

    // What it reads is there and in range.
    ghost can_read: { Spots → ℕ → List ℤ → ℕ → Type 0 };

    // F, for the sample u.
    ghost f_of: { Spots → ℕ → List ℤ → ℕ → ℕ → ℕ };

    fn at(s: &[i32], p: Spots, n: usize, j: usize, u: u32) -> u32
        requires { can_read p n s.now j × (u ≤ 4095) }
        ensures { (result ≡ f_of p n s.now j u) × (result ≤ 131071) };
}

// Pass 1.
pub struct Cross;

impl Filter for Cross {
    ghost can_read = { λ p n s j. Crosses (2 * (n + 2) + 3) (p.a + j) (p.b + j) s };

    ghost f_of = { λ p n s j u. cross_f s (p.a + j) (p.b + j) (n + 2) u };

    fn at(s: &[i32], p: Spots, n: usize, j: usize, u: u32) -> u32 {
        (times(cross_at(s, p.a + j, n + 2), u) + cross_at(s, p.b + j, n + 2) + 256) >> 9
    }
}

// Pass 0: rows of 5-6-5 sums n apart, of which an even row of the plane has two and an odd row one.
pub struct EvenRow;

impl Filter for EvenRow {
    ghost can_read = { λ p n s j. Sixes (n + 1) (p.sa + j) (p.sb + j) s };

    ghost f_of = { λ p n s j u. even_f s (p.sa + j) (p.sb + j) n u };

    fn at(s: &[i32], p: Spots, n: usize, j: usize, u: u32) -> u32 {
        let a = p.sa + j;
        let b = p.sb + j;
        (times(word(s, a) + word(s, a + n), u) + (word(s, b) + word(s, b + n)) + 256) >> 9
    }
}

pub struct OddRow;

impl Filter for OddRow {
    ghost can_read = { λ p n s j. Sixes 1 (p.sa + j) (p.sb + j) s };

    ghost f_of = { λ p n s j u. odd_f s (p.sa + j) (p.sb + j) u };

    fn at(s: &[i32], p: Spots, _n: usize, j: usize, u: u32) -> u32 {
        (times(word(s, p.sa + j), u) + word(s, p.sb + j) + 128) >> 8
    }
}

// Radius 0: the sample itself stands for its F.
pub struct Absent;

impl Filter for Absent {
    ghost can_read = { λ p n s j. ⊤ };

    ghost f_of = { λ p n s j v. 16 * v };

    fn at(_s: &[i32], _p: Spots, _n: usize, _j: usize, u: u32) -> u32 {
        16 * u
    }
}

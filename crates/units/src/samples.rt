// The range of samples. The first sample out of range is looked for only where there is one.
ghost use Rattle.std.specs.Prelude.{◌≡◌, false, pos, length};
ghost use Rattle.laws.specs.Lists.{all_below};
ghost use Rattle.standard.specs.Units.{between};
ghost use Rattle.standard.specs.Refusals.{no1, no15};
ghost use Rattle.units.specs.First.{failed, in_range, first_failing, first_outside};

use numbers::{depth_of, largest};

// 1 for a sample out of range, else 0. The top is of 16 bits and no test is a branch: so the compiler knows that the top is not negative, and
// makes one unsigned comparison of both.
// Stays: speed. A number and no bool, since a loop that joins bools is not made with vectors.
pub fn outside(top: u16, v: i32) -> u32
    ensures { result ≡ failed (between (pos 0) (pos top) v) }
{
    let t = top as i32;
    ((v < 0) | (t < v)) as u32
}

// 1 where some sample is out of range, else 0.
pub fn some_outside(s: &[i32], top: u16) -> u32
    ensures { result ≡ failed (all_below (length s.now) (in_range (pos top) s.now)) }
{
    let mut bad = 0;
    for v in s {
        bad |= outside(top, *v);
    }
    bad
}

pub fn find_outside(s: &[i32], top: u16) -> usize
    ensures { result ≡ first_failing (length s.now) (in_range (pos top) s.now) }
{
    for i in 0..s.len() {
        if outside(top, s[i]) != 0 {
            return i;
        }
    }
    s.len()
}

// The first sample that is not one of the depth, or the number of samples.
pub fn first_outside(s: &[i32], depth: u32) -> usize
    requires { no1 depth ≡ false }
    ensures { result ≡ first_outside depth s.now }
{
    let top = largest(depth_of(depth)) as u16;
    if some_outside(s, top) == 0 {
        return s.len();
    }
    find_outside(s, top)
}

// Number 15: some sample is not one of the depth.
pub fn out_of_range(s: &[i32], depth: u32) -> bool
    requires { no1 depth ≡ false }
    ensures { result ≡ no15 depth s.now }
{
    first_outside(s, depth) < s.len()
}

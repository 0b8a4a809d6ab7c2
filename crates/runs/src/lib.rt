// Runs of samples: copied, repeated, and narrowed to 16 bits.
#![tactic(auto)]

ghost use Rattle.std.specs.Prelude.{◌≡◌, ◌+◌, ◌≤◌, ◌<◌, pos, nat_abs, length, get_or};
ghost use Rattle.laws.specs.Runs.{stamp};
ghost use Rattle.laws.specs.Bounds.{Sized};

// n samples of src from place `from`, at place `to` of dst.
pub fn copy_run(dst: &mut [i32], to: usize, src: &[i32], from: usize, n: usize)
    requires { (to + n ≤ length dst.old) × (from + n ≤ length src.now) }
    ensures { dst.new ≡ stamp (λ x. get_or src.now (from + x) (pos 0)) to n dst.old }
{
    for x in 0..n {
        dst[to + x] = src[from + x];
    }
}

// A value, n times, at place `to` of dst.
pub fn repeat_run<T: Copy>(dst: &mut [T], to: usize, v: T, n: usize)
    requires n_in_bounds { to + n ≤ length dst.old }
    requires copied { T.is_infallible v × ((y : T) → T.is_clone v y → y ≡ v) }
    ensures { dst.new ≡ stamp (λ x. v) to n dst.old }
{
    dst[to..to + n].fill(v);
}

// A number that fits 16 bits, in 16 bits.
pub fn narrow(x: i32) -> i16
    requires { nat_abs x ≤ 32767 }
    ensures { result ≡ x }
{
    x as i16
}

// `copy_run` into 16 bits.
pub fn narrow_run(dst: &mut [i16], to: usize, src: &[i32], from: usize, n: usize)
    requires n_in_bounds { (to + n ≤ length dst.old) × (from + n ≤ length src.now) }
    requires sized { Sized 32767 from (from + n) src.now }
    ensures { dst.new ≡ stamp (λ x. get_or src.now (from + x) (pos 0)) to n dst.old }
{
    for x in 0..n {
        dst[to + x] = narrow(src[from + x]);
    }
}

// The sample at `from`, n times, in 16 bits.
pub fn repeat_narrow(dst: &mut [i16], to: usize, src: &[i32], from: usize, n: usize)
    requires n_in_bounds { (to + n ≤ length dst.old) × (from < length src.now) }
    requires sized { Sized 32767 from (from + 1) src.now }
    ensures { dst.new ≡ stamp (λ x. get_or src.now from (pos 0)) to n dst.old }
{
    repeat_run(dst, to, narrow(src[from]), n);
}

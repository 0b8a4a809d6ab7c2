// The seven-tap sum of a pass and what is made of it: one code for both passes, which differ in what they read and in what they write.
ghost use Rattle.std.specs.Prelude.{◌≡◌, ◌+◌, ◌*◌, ◌≤◌, ◌<◌, ℤ, ◌+ℤ◌, length, map};
ghost use Rattle.std.specs.Int.Signed.{mag};
ghost use Rattle.laws.specs.Runs.{stamp};
ghost use Rattle.wiener.specs.Passes.{Narrow, NarrowRows, Halves, SevenHalves, seven, settled};

use crate::Rounding;
use crate::rounds::settle;
use crate::taps::by;

// A number of a pass: a sample is an i32, a middle value an i16. Two that are read have a sum of 16 bits; the casts tell the compiler so.
pub trait Half: Copy {
    ghost value: { Self → ℤ };

    fn pair(self, other: Self) -> i16
        requires { (mag (value self) < 16384) × (mag (value other) < 16384) }
        ensures { result ≡ value self +ℤ value other };

    fn half(self) -> i16
        requires { mag (value self) < 16384 }
        ensures { result ≡ value self };

    fn clipped(z: i32) -> Self
        requires { mag z < 32768 }
        ensures { value result ≡ z };
}

impl Half for i32 {
    ghost value = { λ z. z };

    fn pair(self, other: i32) -> i16 {
        (self + other) as i16
    }

    fn half(self) -> i16 {
        self as i16
    }

    fn clipped(z: i32) -> i32 {
        z
    }
}

impl Half for i16 {
    ghost value = { λ z. z };

    fn pair(self, other: i16) -> i16 {
        self + other
    }

    fn half(self) -> i16 {
        self
    }

    fn clipped(z: i32) -> i16 {
        z as i16
    }
}

// The seven-tap sum of numbers st apart from place c on, in pairs of equal taps, by the taps at place k.
fn seven_sum<T: Half>(s: &[T], c: usize, st: usize, tr: &[i16; 256], k: usize) -> i32
    requires st_in_bounds { (c + 6 * st < length s.now) × (k < 64) }
    requires seven_halves { SevenHalves c st (map T.value s.now) }
    requires narrow { Narrow k tr.now }
    ensures { result ≡ seven tr.now k (map T.value s.now) c st }
{
    let a = by(s[c].pair(s[c + 6 * st]), tr[k]);
    let b = by(s[c + st].pair(s[c + 5 * st]), tr[64 + k]);
    let d = by(s[c + 2 * st].pair(s[c + 4 * st]), tr[128 + k]);
    let e = by(s[c + 3 * st].half(), tr[192 + k]);
    a + b + d + e
}

// One number of a pass.
fn settled_sum<T: Half, U: Half>(
    s: &[T],
    c: usize,
    st: usize,
    tr: &[i16; 256],
    k: usize,
    a: Rounding,
) -> U
    requires st_in_bounds { (c + 6 * st < length s.now) × (k < 64) }
    requires seven_halves { SevenHalves c st (map T.value s.now) }
    requires narrow { Narrow k tr.now }
    ensures { U.value result ≡ settled a (seven tr.now k (map T.value s.now) c st) }
{
    let z = seven_sum(s, c, st, tr, k);
    U::clipped(settle(z, a))
}

// n numbers of a pass, at place `to` of dst.
pub fn settled_sums<T: Half, U: Half>(
    dst: &mut [U],
    to: usize,
    s: &[T],
    from: usize,
    st: usize,
    n: usize,
    tr: &[i16; 256],
    a: Rounding,
)
    requires n_in_bounds { (to + n ≤ length dst.old) × (from + 6 * st + n ≤ length s.now) × (n ≤ 64) }
    requires halves { Halves from (from + 6 * st + n) (map T.value s.now) }
    requires narrow_rows { NarrowRows n tr.now }
    ensures { map U.value dst.new ≡ stamp (λ x. settled a (seven tr.now x (map T.value s.now) (from + x) st)) to n (map U.value dst.old) }
{
    for x in 0..n {
        dst[to + x] = settled_sum(s, from + x, st, tr, x, a);
    }
}

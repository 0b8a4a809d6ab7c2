// A sample of the scratch as an unsigned number, and back.
ghost use Rattle.std.specs.Prelude.{◌≡◌, ◌<◌, pos, ◌≤ℤ◌, length, get_or};
ghost use Rattle.boxes.specs.Reads.{sample_at};

pub fn word(s: &[i32], i: usize) -> u32
    requires { (i < length s.now) × (pos 0 ≤ℤ get_or s.now i (pos 0)) }
    ensures { result ≡ sample_at s.now i }
{
    s[i] as u32
}

pub fn signed(v: u32) -> i32
    requires { v < 2147483648 }
    ensures { result ≡ pos v }
{
    v as i32
}

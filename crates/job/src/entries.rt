// Entries of 16 bits, low byte first, and sections of them.
ghost use Rattle.std.specs.Prelude.{◌≡◌, ℕ, ◌+◌, ◌*◌, ◌≤◌, ◌<◌, ℤ, pos, length};
ghost use Rattle.laws.specs.Runs.{stamp};
ghost use Rattle.standard.specs.Refusals.{wide};
ghost use Rattle.standard.specs.Job.{signed16};

// Entry k.
#[tactic(auto, unfolding(standard::specs::Refusals::wide))]
pub fn entry(bytes: &[u8], k: usize) -> u32
    requires { 2 * k + 1 < length bytes.now }
    ensures { (result ≡ wide bytes.now k) × (result < 65536) }
{
    u32::from(u16::from_le_bytes([bytes[2 * k], bytes[2 * k + 1]]))
}

// The number that 16 bits stand for in two's complement.
pub fn signed(e: u32) -> i32
    requires { e < 65536 }
    ensures { result ≡ signed16 e }
{
    let n = e as i32;
    if e < 32768 {
        return n;
    }
    n - 65536
}

// The number that an entry stands for.
pub trait Sense {
    ghost number: { ℕ → ℤ };

    fn number(e: u32) -> i32
        requires { e < 65536 }
        ensures { result ≡ number e };
}

pub struct Unsigned;

impl Sense for Unsigned {
    ghost number = { pos };

    fn number(e: u32) -> i32 {
        e as i32
    }
}

pub struct TwosComplement;

impl Sense for TwosComplement {
    ghost number = { signed16 };

    fn number(e: u32) -> i32 {
        signed(e)
    }
}

// n entries from entry `at` on, to the start of the room.
pub fn section<S: Sense>(room: &mut [i32], bytes: &[u8], at: usize, n: usize)
    requires { (n ≤ length room.old) × (2 * (at + n) ≤ length bytes.now) }
    ensures { room.new ≡ stamp (λ k. S.number (wide bytes.now (at + k))) 0 n room.old }
{
    for k in 0..n {
        room[k] = S::number(entry(bytes, at + k));
    }
}

// The window as it comes: 49 samples of two bytes each, low byte first.
ghost use Rattle.std.specs.Prelude.{◌≡◌, ◌+◌, ◌*◌, ◌≤◌, ◌<◌, pos, length};
ghost use Rattle.laws.specs.Runs.{stamp};
ghost use Rattle.standard.specs.Refusals as refusals;

#[tactic(auto, unfolding(standard::specs::Refusals::wide))]
pub fn wide(bytes: &[u8], k: usize) -> i32
    requires { 2 * k + 1 < length bytes.now }
    ensures { result ≡ pos (refusals.wide bytes.now k) }
{
    i32::from(u16::from_le_bytes([bytes[2 * k], bytes[2 * k + 1]]))
}

// All 49 of them, to the first places of s.
pub fn unpack(s: &mut [i32], bytes: &[u8])
    requires { (49 ≤ length s.old) × (length bytes.now ≡ 98) }
    ensures { s.new ≡ stamp (λ k. pos (refusals.wide bytes.now k)) 0 49 s.old }
{
    for k in 0..49 {
        s[k] = wide(bytes, k);
    }
}

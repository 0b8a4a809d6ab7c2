// Marks: one for each stripe, 0 or 1.
ghost use Rattle.std.specs.Prelude.{◌≡◌};
ghost use Rattle.standard.specs.Refusals.{no12};

// 12: not one mark for each of n stripes, or one that is neither 0 nor 1.
pub fn bad_marks(n: usize, marks: &[u8]) -> bool
    ensures { result ≡ no12 n marks.now }
{
    marks.len() != n || !marks.iter().all(|m| *m <= 1)
}

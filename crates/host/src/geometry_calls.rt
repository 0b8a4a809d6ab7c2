// Counts and rectangles under their C names.
ghost use Rattle.std.specs.Prelude.{◌≡◌};
ghost use Rattle.standard.specs.Calls.{count_answer, rectangle_answer};
ghost use Rattle.host.specs.Numbers.{counted_of, placed_of};

use crate::answers::{CountedNumbers, PlacedNumbers};
use geometry::{count, rectangle};
use standard::Frame;

pub fn cironetop_count(f: Frame) -> CountedNumbers
    ensures { counted_of result ≡ count_answer f }
{
    CountedNumbers::from(count(f))
}

pub fn cironetop_rectangle(f: Frame, index: u32) -> PlacedNumbers
    ensures { placed_of result ≡ rectangle_answer f index }
{
    PlacedNumbers::from(rectangle(f, index))
}

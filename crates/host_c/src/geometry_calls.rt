// Counts and rectangles under their C names, exported.
ghost use Rattle.std.specs.Prelude.{◌≡◌};
ghost use Rattle.standard.specs.Calls.{count_answer, rectangle_answer};
ghost use Rattle.host.specs.Numbers.{counted_of, placed_of};

use host::answers::{CountedNumbers, PlacedNumbers};
use standard::Frame;

#[unsafe(no_mangle)]
pub extern "C" fn cironetop_count(f: Frame) -> CountedNumbers
    ensures { counted_of result ≡ count_answer f }
{
    host::geometry_calls::cironetop_count(f)
}

#[unsafe(no_mangle)]
pub extern "C" fn cironetop_rectangle(f: Frame, index: u32) -> PlacedNumbers
    ensures { placed_of result ≡ rectangle_answer f index }
{
    host::geometry_calls::cironetop_rectangle(f, index)
}

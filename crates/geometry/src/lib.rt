// How many and where: the counts of a plane, its rectangles by index, its 4x4 luma blocks.
#![tactic(auto)]

pub mod stripes; // stripes.rt: the rows of a stripe, the stripe of a row
pub mod units; // units.rt: units along an extent, the unit of a row and of a column
pub mod places; // places.rt: a rectangle and a block of legal numbers
pub mod planes; // planes.rt: the same from a frame's numbers, once tested

ghost use Rattle.std.specs.Prelude.{◌≡◌};
ghost use Rattle.standard.specs.Answers.{of_counted, of_placed};
ghost use Rattle.standard.specs.Calls.{count_answer, rectangle_answer};

use crate::planes::{Divided, tested};
use standard::{Counts, Frame, Geometry, Refusal};

// Unit rows, unit columns, stripes and rectangles of a plane.
pub fn count(f: Frame) -> Result<Counts, Refusal>
    ensures { of_counted result ≡ count_answer f }
{
    let d = tested(f)?;
    Ok(d.counts())
}

// A rectangle by its index: stripe by stripe, left to right.
pub fn rectangle(f: Frame, index: u32) -> Result<Geometry, Refusal>
    ensures { of_placed result ≡ rectangle_answer f index }
{
    let d = tested(f)?;
    indexed(d, index)
}

// The last test, 13, and the rectangle.
fn indexed(d: Divided, index: u32) -> Result<Geometry, Refusal>
    ensures { of_placed result ≡ rectangle_answer d.plane.frame index }
{
    if d.counts().rectangles <= index {
        return Err(Refusal::BadIndex);
    }
    Ok(d.rectangle(index))
}

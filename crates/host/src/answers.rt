// Answers as the C interface gives them: document 01's number, then the values, zeros beside a refusal.
ghost use Rattle.std.specs.Prelude.{◌≡◌};
ghost use Rattle.standard.specs.Answers.{of_counted, of_placed, of_restored, of_stored};
ghost use Rattle.host.specs.Numbers.{counted_of, placed_of, restored_of};

use standard::{Counts, Geometry, Refusal};

#[repr(C)]
#[derive(Clone, Copy)]
pub struct CountedNumbers {
    pub number: u32,
    pub unit_rows: u32,
    pub unit_cols: u32,
    pub stripes: u32,
    pub rectangles: u32,
}

#[repr(C)]
#[derive(Clone, Copy)]
pub struct PlacedNumbers {
    pub number: u32,
    pub unit_row: u32,
    pub unit_col: u32,
    pub x: u32,
    pub y: u32,
    pub w: u32,
    pub h: u32,
    pub stripe_start_y: i32,
    pub stripe_end_y: i32,
    pub plane_end_x: i32,
    pub plane_end_y: i32,
}

#[repr(C)]
#[derive(Clone, Copy)]
pub struct RestoredNumbers {
    pub number: u32,
    pub changed: u32,
}

fn counts_beside(number: u32, c: Counts) -> CountedNumbers
    ensures { counted_of result ≡ (number, c) }
{
    CountedNumbers {
        number,
        unit_rows: c.unit_rows,
        unit_cols: c.unit_cols,
        stripes: c.stripes,
        rectangles: c.rectangles,
    }
}

// Stays, with the two below: the C interface has a struct for each answer.
impl From<Result<Counts, Refusal>> for CountedNumbers {
    ghost from_gives = { λ answer r. counted_of r ≡ of_counted answer };

    fn from(answer: Result<Counts, Refusal>) -> CountedNumbers {
        match answer {
            Ok(counts) => counts_beside(0, counts),
            Err(why) => counts_beside(u32::from(why), Counts::default()),
        }
    }
}

fn place_beside(number: u32, g: Geometry) -> PlacedNumbers
    ensures { placed_of result ≡ (number, g) }
{
    PlacedNumbers {
        number,
        unit_row: g.unit_row,
        unit_col: g.unit_col,
        x: g.x,
        y: g.y,
        w: g.w,
        h: g.h,
        stripe_start_y: g.stripe_start_y,
        stripe_end_y: g.stripe_end_y,
        plane_end_x: g.plane_end_x,
        plane_end_y: g.plane_end_y,
    }
}

impl From<Result<Geometry, Refusal>> for PlacedNumbers {
    ghost from_gives = { λ answer r. placed_of r ≡ of_placed answer };

    fn from(answer: Result<Geometry, Refusal>) -> PlacedNumbers {
        match answer {
            Ok(place) => place_beside(0, place),
            Err(why) => place_beside(u32::from(why), Geometry::default()),
        }
    }
}

impl From<Result<u32, Refusal>> for RestoredNumbers {
    ghost from_gives = { λ answer r. restored_of r ≡ of_restored answer };

    fn from(answer: Result<u32, Refusal>) -> RestoredNumbers {
        match answer {
            Ok(changed) => RestoredNumbers { number: 0, changed },
            Err(why) => RestoredNumbers {
                number: u32::from(why),
                changed: 0,
            },
        }
    }
}

// The number of a call whose result is in a lent slice alone.
pub fn stored(answer: Result<(), Refusal>) -> u32
    ensures { result ≡ of_stored answer }
{
    match answer {
        Ok(()) => 0,
        Err(why) => u32::from(why),
    }
}

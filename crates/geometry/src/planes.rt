// A frame's numbers tested, and what its plane has.
ghost use Rattle.std.specs.Prelude.{◌≡◌, ◌≤◌, ◌<◌, false, IfOk};
ghost use Rattle.standard.specs.Calls.{counts_of};
ghost use Rattle.standard.specs.Refusals.{count_tests, first, plane_height, plane_width, size5, sub_x_of, sub_y_of};
ghost use Rattle.standard.specs.Stripes as defined;
ghost use Rattle.frames.specs.Numbers.{number_of};

use crate::places::{block, rectangle_at};
use crate::stripes::stripes;
use crate::units::units;
use frames::bad_unit_size;
use frames::plane::{Plane, plane_of};
use standard::{Counts, Frame, Geometry, Refusal};

// A plane that its unit size divides: number 5 is not given either.
#[derive(Clone, Copy)]
pub struct Divided {
    pub plane: Plane,
    pub ghost size: { size5 plane.frame ≡ false },
}

// Numbers 2, 4, 5: the lowest that applies.
pub fn tested(f: Frame) -> Result<Divided, Refusal>
    ensures number { number_of result ≡ first (count_tests f) }
    ensures passed { IfOk result (λ d. d.plane.frame ≡ f) }
{
    let plane = plane_of(f)?;
    // Last, so that what follows knows the size for a power of two: a shift stands for each division by it.
    if bad_unit_size(f.plane, f.sub_x, f.sub_y, f.unit_size) {
        return Err(Refusal::BadUnitSize);
    }
    Ok(Divided { plane })
}

impl Divided {
    pub fn counts(self) -> Counts
        ensures { result ≡ counts_of self.plane.frame }
    {
        let lines = stripes(self.plane.sub_y(), self.plane.height());
        let cols = units(self.plane.width(), self.plane.frame.unit_size);
        Counts {
            unit_rows: units(self.plane.height(), self.plane.frame.unit_size),
            unit_cols: cols,
            stripes: lines,
            rectangles: lines * cols,
        }
    }

    // Rectangle `index`.
    pub fn rectangle(self, index: u32) -> Geometry
        requires { index < defined.rectangles (sub_y_of self.plane.frame) self.plane.frame.unit_size (plane_height self.plane.frame) (plane_width self.plane.frame) }
        ensures { result ≡ defined.rectangle (sub_y_of self.plane.frame) self.plane.frame.unit_size (plane_height self.plane.frame) (plane_width self.plane.frame) index }
    {
        let p = self.plane;
        rectangle_at(p.sub_y(), p.frame.unit_size, p.height(), p.width(), index)
    }

    // The block of `row` and `col`, counted in blocks.
    pub fn block(self, row: u32, col: u32) -> Geometry
        requires { (row ≤ 65535) × (col ≤ 65535) }
        ensures { result ≡ defined.block (sub_x_of self.plane.frame) (sub_y_of self.plane.frame) self.plane.frame.unit_size (plane_height self.plane.frame) (plane_width self.plane.frame) row col }
    {
        let p = self.plane;
        block(
            p.sub_x(),
            p.sub_y(),
            p.frame.unit_size,
            p.height(),
            p.width(),
            row,
            col,
        )
    }
}

// The same of a frame whose tests are known to give no number.
pub fn rectangle_of(f: Frame, index: u32) -> Geometry
    requires f_value { first (count_tests f) ≡ 0 }
    requires index_bound { index < defined.rectangles (sub_y_of f) f.unit_size (plane_height f) (plane_width f) }
    ensures { result ≡ defined.rectangle (sub_y_of f) f.unit_size (plane_height f) (plane_width f) index }
{
    let plane = Plane { frame: f };
    let d = Divided { plane };
    d.rectangle(index)
}

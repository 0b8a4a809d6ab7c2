// Where a rectangle or a 4x4 luma block lies, and the unit it names, from legal numbers.
ghost use Rattle.std.specs.Prelude.{◌≡◌, ◌-◌, ◌/◌, ◌^◌, ◌≤◌, ◌<◌};
ghost use Prim.Native.Nat as nat;
ghost use Rattle.standard.specs.Stripes as defined;
ghost use Rattle.geometry.specs.Legal.{Legal};

use crate::stripes::{stripe_end_y, stripe_start, stripe_start_y, stripe_stop};
use crate::units::{right, unit_col, unit_row, units};
use standard::Geometry;

// Rectangle `index` of a plane.
pub fn rectangle_at(sub_y: u32, size: u32, height: u32, width: u32, index: u32) -> Geometry
    requires legal { Legal sub_y size height width }
    requires index_bound { index < defined.rectangles sub_y size height width }
    ensures { result ≡ defined.rectangle sub_y size height width index }
{
    let cols = units(width, size);
    let s = index / cols;
    let c = index % cols;
    let x = c * size;
    let y = stripe_start(sub_y, s);
    Geometry {
        unit_row: unit_row(sub_y, size, height, s),
        unit_col: c,
        x,
        y,
        w: right(size, width, c) - x,
        h: height.min(stripe_stop(sub_y, s)) - y,
        stripe_start_y: stripe_start_y(sub_y, s),
        stripe_end_y: stripe_end_y(sub_y, s),
        plane_end_x: width as i32 - 1,
        plane_end_y: height as i32 - 1,
    }
}

// What is left of four luma rows or columns in the plane.
fn cut(sub: u32, at: u32, extent: u32) -> u32
    requires { sub ≤ 1 }
    ensures { result ≡ nat.min (4 / 2 ^ sub) (extent - at) }
{
    (4 >> sub).min(extent.saturating_sub(at))
}

// derive_block_geometry, for the block of `row` and `col`, counted in blocks.
pub fn block(
    sub_x: u32,
    sub_y: u32,
    size: u32,
    height: u32,
    width: u32,
    row: u32,
    col: u32,
) -> Geometry
    requires legal { Legal sub_y size height width }
    requires sub_x_bound { (sub_x ≤ 1) × (row ≤ 65535) × (col ≤ 65535) }
    ensures { result ≡ defined.block sub_x sub_y size height width row col }
{
    let corner = row * 4;
    let luma = corner + 8;
    let s = luma / 64;
    let x = (col * 4) >> sub_x;
    let y = corner >> sub_y;
    Geometry {
        unit_row: unit_col(size, height, luma >> sub_y),
        unit_col: unit_col(size, width, x),
        x,
        y,
        w: cut(sub_x, x, width),
        h: cut(sub_y, y, height),
        stripe_start_y: stripe_start_y(sub_y, s),
        stripe_end_y: stripe_end_y(sub_y, s),
        plane_end_x: width as i32 - 1,
        plane_end_y: height as i32 - 1,
    }
}

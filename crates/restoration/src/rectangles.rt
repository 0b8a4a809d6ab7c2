// One rectangle of a frame by its index, and the rectangles of one stripe, a unit column each.
ghost use Rattle.std.specs.Prelude.{◌≡◌, ◌+◌, ◌*◌, ◌/◌, ◌≤◌, ◌<◌, pos, length};
ghost use Rattle.laws.specs.Paint.{paint};
ghost use Rattle.laws.specs.Cover.{Painted};
ghost use Rattle.standard.specs.Stripes as defined;
ghost use Rattle.standard.specs.Refusals.{sub_y_of, plane_height, plane_width, samples};
ghost use Rattle.standard.proofs.Rectangles.{index_of};
ghost use Rattle.restoration.specs.Asked.{Asked, Stripe};
ghost use Rattle.restoration.specs.Seen.{unit_seen};

use boxes::table::A2;
use fetch::Rect;
use frames::extent;
use geometry::planes::rectangle_of;
use geometry::units::units;
use rectangle::restore_rect;
use rectangle::view::View;
use standard::Frame;
use units::unit_at;

// Rectangle k, restored by the unit that it lies in.
pub fn restore_unit(
    out: &mut [i32],
    v: View<'_>,
    f: Frame,
    k: u32,
    table: &[i32],
    s: &mut [i32],
    tab: &A2,
)
    requires asked { Asked f table.now (length s.old) × (k < defined.rectangles (sub_y_of f) f.unit_size (plane_height f) (plane_width f)) × (samples f ≤ length out.old) }
    requires stripe { Stripe f (k / defined.units (plane_width f) f.unit_size) v.source }
    requires view { (v.w ≡ plane_width f) × (v.h ≡ plane_height f) }
    ensures { out.new ≡ paint (defined.rectangle (sub_y_of f) f.unit_size (plane_height f) (plane_width f) k).x (defined.rectangle (sub_y_of f) f.unit_size (plane_height f) (plane_width f) k).y (defined.rectangle (sub_y_of f) f.unit_size (plane_height f) (plane_width f) k).w (defined.rectangle (sub_y_of f) f.unit_size (plane_height f) (plane_width f) k).h (plane_width f) (unit_seen f table.now v.entry) out.old }
{
    let g = rectangle_of(f, k);
    let row = g.unit_row;
    let col = g.unit_col;
    let cols = units(extent(f.plane, f.sub_x, f.upscaled_width), f.unit_size);
    let u = unit_at(f.plane, table, (row * cols + col) as usize);
    let kind = u.kind;
    let r = Rect {
        x: g.x as usize,
        y: g.y as usize,
        w: g.w as usize,
        h: g.h as usize,
    };
    restore_rect(out, v, r, s, kind, tab);
}

// The rectangles of stripe s, left to right.
pub fn restore_rectangles(
    out: &mut [i32],
    v: View<'_>,
    f: Frame,
    at: u32,
    table: &[i32],
    s: &mut [i32],
    tab: &A2,
)
    requires asked { Asked f table.now (length s.old) × (at < defined.stripes (sub_y_of f) (plane_height f)) × (samples f ≤ length out.old) }
    requires stripe { Stripe f at v.source }
    requires view { (v.w ≡ plane_width f) × (v.h ≡ plane_height f) }
    ensures { Painted (index_of (sub_y_of f) f.unit_size (plane_width f)) (plane_width f) (plane_height f) (unit_seen f table.now v.entry) (pos 0) (at * defined.units (plane_width f) f.unit_size) (at * defined.units (plane_width f) f.unit_size + defined.units (plane_width f) f.unit_size) out.old out.new }
{
    let cols = units(extent(f.plane, f.sub_x, f.upscaled_width), f.unit_size);
    let first = at * cols;
    for k in first..first + cols {
        restore_unit(out, v, f, k, table, s, tab);
    }
}

// Lengths and rooms of a stripe's call, and the conditions that frame type 0 does not give.
ghost use Rattle.std.specs.Prelude.{◌≡◌, false, not, ◌||◌, eqb, ltb, length};
ghost use Rattle.standard.specs.Refusals.{copy_need, no9, no10, no11, plane_height, plane_width, samples, scratch_need, size5, sub_y_of, typed};

use asked::{bad_table, short_scratch, some_illegal};
use edges::tests::edge_room;
use frames::bad_unit_size;
use frames::plane::Plane;
use geometry::planes::Divided;
use standard::Frame;

// 5
#[tactic(auto, unfolding(standard::specs::Refusals::typed))]
pub fn typed_size(f: Frame) -> bool
    ensures { result ≡ typed f (size5 f) }
{
    f.frame_type != 0 && bad_unit_size(f.plane, f.sub_x, f.sub_y, f.unit_size)
}

// 7: the slice is not the plane's samples.
pub fn bad_length(p: Plane, plane: usize) -> bool
    ensures { result ≡ not (eqb plane (samples p.frame)) }
{
    plane != p.samples()
}

// 9: not four rows for each boundary.
#[tactic(auto, unfolding(standard::specs::Refusals::no9))]
pub fn bad_edges(p: Plane, edges: usize) -> bool
    ensures { result ≡ no9 (sub_y_of p.frame) (plane_height p.frame) (plane_width p.frame) edges }
{
    edges != edge_room(p)
}

// 10
#[tactic(auto, unfolding(standard::specs::Refusals::typed))]
pub fn typed_units(p: Plane, table: usize) -> bool
    requires { typed p.frame (size5 p.frame) ≡ false }
    ensures { result ≡ typed p.frame (no10 p.frame.unit_size (plane_height p.frame) (plane_width p.frame) table) }
{
    if p.frame.frame_type == 0 {
        return false;
    }
    let d = Divided { plane: p };
    bad_table(d, table)
}

// 11
#[tactic(auto, unfolding(standard::specs::Refusals::typed))]
pub fn typed_table(f: Frame, table: &[i32]) -> bool
    ensures { result ≡ typed f (no11 f.plane table.now) }
{
    f.frame_type != 0 && some_illegal(f.plane, table)
}

// The copy is shorter than the plane's largest stripe.
fn short_copy(p: Plane, copy: usize) -> bool
    ensures { result ≡ ltb copy (copy_need (sub_y_of p.frame) (plane_height p.frame) (plane_width p.frame)) }
{
    let need = p.width() * p.height().min(64 >> p.sub_y());
    copy < need as usize
}

// 16
#[tactic(auto, unfolding(standard::specs::Refusals::typed))]
pub fn typed_rooms(p: Plane, scratch: usize, copy: usize) -> bool
    ensures { result ≡ typed p.frame (ltb scratch (scratch_need (sub_y_of p.frame) (plane_height p.frame) (plane_width p.frame)) || ltb copy (copy_need (sub_y_of p.frame) (plane_height p.frame) (plane_width p.frame))) }
{
    p.frame.frame_type != 0 && (short_scratch(p, scratch) || short_copy(p, copy))
}

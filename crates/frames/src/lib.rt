// What a call's frame numbers say: the first tests of the table, and the plane that they give.
#![tactic(auto)]

pub mod plane; // plane.rt: a frame that was tested, and its plane

ghost use Rattle.std.specs.Prelude.{◌≡◌, ◌≤◌};
ghost use Rattle.standard.specs.Refusals.{no1, no2, no3, no4, no5};
ghost use Rattle.standard.specs.Refusals as refusals;

use numbers::round2_u32;

#[tactic(auto, unfolding(standard::specs::Refusals::no1))]
pub fn bad_depth(depth: u32) -> bool
    ensures { result ≡ no1 depth }
{
    !matches!(depth, 8 | 10 | 12)
}

#[tactic(auto, unfolding(standard::specs::Refusals::no2))]
pub fn bad_plane(plane: u32, sub_x: u32, sub_y: u32) -> bool
    ensures { result ≡ no2 plane sub_x sub_y }
{
    // The one pair of bits that is no subsampling of the domain is (0, 1).
    2 < plane || 1 < sub_x || sub_x < sub_y
}

pub fn bad_frame_type(frame_type: u32) -> bool
    ensures { result ≡ no3 frame_type }
{
    3 < frame_type
}

#[tactic(auto, unfolding(standard::specs::Refusals::no4))]
pub fn bad_side(side: u32) -> bool
    ensures { result ≡ no4 side }
{
    side == 0 || 16384 < side
}

#[tactic(auto, unfolding(standard::specs::Refusals::no5))]
pub fn bad_unit_size(plane: u32, sub_x: u32, sub_y: u32, size: u32) -> bool
    ensures { result ≡ no5 plane sub_x sub_y size }
{
    match size {
        64 | 128 | 256 => false,
        32 => plane == 0 || sub_x != 1 || sub_y != 1,
        _ => true,
    }
}

// The plane's own subsampling: plane 0 has none.
#[tactic(auto, unfolding(standard::specs::Refusals::sub_of))]
pub fn sub_of(plane: u32, sub: u32) -> u32
    ensures { result ≡ refusals.sub_of plane sub }
{
    if plane == 0 { 0 } else { sub }
}

// The plane's extent of a frame's side.
pub fn extent(plane: u32, sub: u32, side: u32) -> u32
    requires { (sub ≤ 1) × (side ≤ 16384) }
    ensures { result ≡ refusals.extent plane sub side }
{
    let own = sub_of(plane, sub);
    round2_u32(side, own)
}

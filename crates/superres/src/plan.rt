// A plane's numbers, from the frame's.
ghost use Rattle.std.specs.Prelude.{◌≡◌, ◌-◌, ◌≤◌, ◌<◌, min};
ghost use Rattle.standard.specs.Depths as depths;
ghost use Rattle.standard.specs.Refusals.{sub_of, down_width, up_width};
ghost use Rattle.standard.specs.Superres as superres;
ghost use Rattle.superres.specs.Sides.{Sided, Planned};

use super::block::Plan;
use super::positions::Widths;
use frames::{extent, sub_of};
use numbers::{depth_of, largest};
use standard::Scaling;

// The first clip's column: MiCols is 2 * ((frame width + 7) >> 3).
#[tactic(auto, unfolding(standard::specs::Superres::last_col))]
fn last_col(frame: u32, sub_x: u32) -> u32
    requires { (0 < frame) × (frame ≤ 16384) × (sub_x ≤ 1) }
    ensures { result ≡ superres.last_col frame sub_x }
{
    let cols = 2 * ((frame + 7) / 8);
    4 * (cols >> sub_x) - 1
}

fn top_of(depth: u32) -> u32
    ensures { result ≡ depths.largest (depths.depth_of depth) }
{
    largest(depth_of(depth)) as u32
}

// Both clips are one, to the smaller of the two last columns.
fn last_of(s: Scaling) -> usize
    requires { (Sided s) × (0 < s.in_cols) }
    ensures { result ≡ min (superres.last_col s.frame_width (sub_of s.plane s.sub_x)) (s.in_cols - 1) }
{
    let sub = sub_of(s.plane, s.sub_x);
    last_col(s.frame_width, sub).min(s.in_cols - 1) as usize
}

pub fn plan_of(s: Scaling) -> Plan
    requires { (Sided s) × (0 < s.in_cols) × (down_width s < up_width s) }
    ensures { Planned s result.start result.step result.last result.cols result.rows result.width result.top }
{
    let d = extent(s.plane, s.sub_x, s.frame_width);
    let u = extent(s.plane, s.sub_x, s.upscaled_width);
    let h = extent(s.plane, s.sub_y, s.frame_height);
    let w = Widths { d, u };
    Plan {
        start: w.start() as usize,
        step: w.step() as usize,
        last: last_of(s),
        cols: s.in_cols as usize,
        rows: h as usize,
        width: u as usize,
        top: top_of(s.depth),
    }
}

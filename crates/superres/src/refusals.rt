// The call's tests, in the table's order.
ghost use Rattle.std.specs.Prelude.{◌≡◌, false, cond, not, ◌&&◌, ◌||◌, ◌*◌, ◌≤◌, eqb, ltb, leb, length};
ghost use Rattle.standard.specs.Refusals as refusals;
ghost use Rattle.standard.specs.Answers.{of_stored};
ghost use Rattle.superres.specs.Sides.{Sided, late_tests};

use frames::{bad_depth, bad_plane, bad_side, extent};
use standard::{Refusal, Scaling};
use units::samples::out_of_range;

fn bad_sides(s: Scaling) -> bool
    ensures { result ≡ refusals.no4 s.frame_height || refusals.no4 s.frame_width || refusals.no4 s.upscaled_width }
{
    bad_side(s.frame_height) || bad_side(s.frame_width) || bad_side(s.upscaled_width)
}

fn shrinks(s: Scaling) -> bool
    ensures { result ≡ not (eqb s.use_superres 0) && ltb s.upscaled_width s.frame_width }
{
    s.use_superres != 0 && s.upscaled_width < s.frame_width
}

pub fn is_copy(s: Scaling) -> bool
    ensures { result ≡ refusals.copies s }
{
    s.use_superres == 0 || s.frame_width == s.upscaled_width
}

#[tactic(auto, unfolding(standard::specs::Refusals::same_shape))]
fn same_shape(s: Scaling) -> bool
    ensures { result ≡ refusals.same_shape s }
{
    s.in_rows == s.out_rows && s.in_cols == s.out_cols
}

#[tactic(auto, unfolding(standard::specs::Refusals::scaling_shape))]
fn scaling_shape(s: Scaling) -> bool
    requires { Sided s }
    ensures { result ≡ refusals.scaling_shape s }
{
    let rows = extent(s.plane, s.sub_y, s.frame_height);
    let down = extent(s.plane, s.sub_x, s.frame_width);
    let up = extent(s.plane, s.sub_x, s.upscaled_width);
    rows <= s.in_rows
        && s.in_rows <= 16384
        && down <= s.in_cols
        && s.in_cols <= 16392
        && s.out_cols == up
        && s.out_rows == rows
}

// Number 7 is not given: the slices' lengths and their shapes.
fn right_shape(s: Scaling, input: usize, output: usize) -> bool
    requires { Sided s }
    ensures { result ≡ eqb input (s.in_rows * s.in_cols) && eqb output (s.out_rows * s.out_cols) && cond (refusals.copies s) (refusals.same_shape s) (refusals.scaling_shape s) }
{
    let shape = if is_copy(s) {
        same_shape(s)
    } else {
        scaling_shape(s)
    };
    input == (s.in_rows as usize) * (s.in_cols as usize)
        && output == (s.out_rows as usize) * (s.out_cols as usize)
        && shape
}

// Number 8.
fn not_wider(s: Scaling) -> bool
    requires { Sided s }
    ensures { result ≡ not (refusals.copies s) && leb (refusals.up_width s) (refusals.down_width s) }
{
    let down = extent(s.plane, s.sub_x, s.frame_width);
    let up = extent(s.plane, s.sub_x, s.upscaled_width);
    !is_copy(s) && up <= down
}

// The tests after 1 to 6.
#[tactic(auto, unfolding(standard::specs::Refusals::first, standard::specs::Answers::refusal_number))]
fn tested_late(s: Scaling, input: &[i32], output: usize) -> Result<(), Refusal>
    requires { (Sided s) × (refusals.no1 s.depth ≡ false) }
    ensures { of_stored result ≡ refusals.first (late_tests s input.now output) }
{
    if !right_shape(s, input.len(), output) {
        return Err(Refusal::BadShape);
    }
    if not_wider(s) {
        return Err(Refusal::NotWider);
    }
    if out_of_range(input, s.depth) {
        return Err(Refusal::BadSample);
    }
    Ok(())
}

#[tactic(auto, using(crate::proofs::Conditions::sided), unfolding(standard::specs::Refusals::first, standard::specs::Refusals::upscale_tests, standard::specs::Answers::refusal_number))]
pub fn tested(s: Scaling, input: &[i32], output: usize) -> Result<(), Refusal>
    ensures { of_stored result ≡ refusals.first (refusals.upscale_tests s input.now output) }
{
    if bad_depth(s.depth) {
        return Err(Refusal::BadDepth);
    }
    if bad_plane(s.plane, s.sub_x, s.sub_y) {
        return Err(Refusal::BadPlane);
    }
    if bad_sides(s) {
        return Err(Refusal::BadFrameSide);
    }
    if shrinks(s) {
        return Err(Refusal::WidthShrinks);
    }
    tested_late(s, input, output)
}

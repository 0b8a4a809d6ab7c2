// A frame that tests 2 and 4 passed, and what its plane has: subsampling, rows, columns, samples.
ghost use Rattle.std.specs.Prelude.{◌≡◌, ◌≤◌, ◌<◌, [], ◌∷◌, false, IfOk};
ghost use Rattle.standard.specs.Refusals as refusals;
ghost use Rattle.standard.specs.Refusals.{first, frame2, frame4, no2, no4, plane_height, plane_width, sub_x_of, sub_y_of};
ghost use Rattle.frames.specs.Numbers.{number_of};

use crate::{bad_plane, bad_side, extent, sub_of};
use standard::{Frame, Refusal};

// Plane and subsampling are of the domain, and both sides are in range: numbers 2 and 4 are not given.
#[derive(Clone, Copy)]
pub struct Plane {
    pub frame: Frame,
    pub ghost plane: { no2 frame.plane frame.sub_x frame.sub_y ≡ false },
    pub ghost high: { no4 frame.frame_height ≡ false },
    pub ghost wide: { no4 frame.upscaled_width ≡ false },
}

// Numbers 2 and 4: the lowest that applies, or the frame's plane.
pub fn plane_of(f: Frame) -> Result<Plane, Refusal>
    ensures number { number_of result ≡ first (frame2 f ∷ frame4 f ∷ []) }
    ensures passed { IfOk result (λ p. p.frame ≡ f) }
{
    if bad_plane(f.plane, f.sub_x, f.sub_y) {
        return Err(Refusal::BadPlane);
    }
    if bad_side(f.frame_height) || bad_side(f.upscaled_width) {
        return Err(Refusal::BadFrameSide);
    }
    Ok(Plane { frame: f })
}

impl Plane {
    pub fn sub_x(self) -> u32
        ensures value { result ≡ sub_x_of self.frame }
        ensures bound { result ≤ 1 }
    {
        sub_of(self.frame.plane, self.frame.sub_x)
    }

    pub fn sub_y(self) -> u32
        ensures value { result ≡ sub_y_of self.frame }
        ensures bound { result ≤ 1 }
    {
        sub_of(self.frame.plane, self.frame.sub_y)
    }

    pub fn height(self) -> u32
        ensures value { result ≡ plane_height self.frame }
        ensures bound { (0 < result) × (result ≤ 16384) }
    {
        extent(self.frame.plane, self.frame.sub_y, self.frame.frame_height)
    }

    pub fn width(self) -> u32
        ensures value { result ≡ plane_width self.frame }
        ensures bound { (0 < result) × (result ≤ 16384) }
    {
        extent(
            self.frame.plane,
            self.frame.sub_x,
            self.frame.upscaled_width,
        )
    }

    // Rows times columns.
    pub fn samples(self) -> usize
        ensures { result ≡ refusals.samples self.frame }
    {
        self.height() as usize * self.width() as usize
    }
}

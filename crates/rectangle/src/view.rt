// What one stripe sees of its plane: its own rows in one slice, the rows beside it in another, every row with samples of the depth.
ghost use Rattle.std.specs.Prelude.{◌≡◌, ◌+◌, ◌*◌, ◌≤◌, ◌<◌, pos, length, get_or};
ghost use Rattle.laws.specs.Paint.{Within};
ghost use Rattle.laws.specs.Rows.{rows};
ghost use Rattle.standard.specs.Depths.{largest};
ghost use Rattle.standard.specs.Fetch.{near};
ghost use Rattle.fetch.specs.Source.{source_row};
ghost use Rattle.rectangle.specs.View.{Fetchable, Sides};

use fetch::{Rect, Source, gather, source_row};
use standard::Depth;

#[derive(Clone, Copy)]
pub struct View<'a> {
    pub inside: &'a [i32],
    pub beside: &'a [i32],
    pub w: usize,
    pub h: usize,
    pub source: Source,
    pub depth: Depth,
    pub ghost fetchable: { Fetchable (largest depth) inside.now beside.now w h source },
    pub ghost sides: { Sides w h },
}

impl<'a> View<'a> {
    // Row y of the plane.
    pub fn row(self, y: usize) -> &'a [i32]
        requires { y < self.h }
        ensures { result.now ≡ source_row self.entry.inside.now self.entry.beside.now self.entry.w self.entry.source y }
    {
        source_row(self.inside, self.beside, self.w, self.h, self.source, y)
    }

    // The window of a rectangle: the rectangle and three samples more on each side, columns clamped.
    pub fn gather(self, dst: &mut [i32], r: Rect)
        requires { ((r.h + 6) * (r.w + 6) ≤ length dst.old) × (r.w ≤ 383) × (r.h ≤ 64) × Within r.x r.y r.w r.h self.w self.h }
        ensures { dst.new ≡ rows (λ k j. get_or (source_row self.entry.inside.now self.entry.beside.now self.entry.w self.entry.source (near self.entry.h r.y k)) (near self.entry.w r.x j) (pos 0)) 0 (r.w + 6) (r.w + 6) (r.h + 6) dst.old }
    {
        gather(
            dst,
            self.inside,
            self.beside,
            self.w,
            self.h,
            self.source,
            r.x,
            r.y,
            r.w + 6,
            r.h + 6,
        );
    }
}

// What is printed of a plane beside its rows.
ghost use Rattle.std.specs.Prelude.{◌≡◌, ◌≤◌, length};
ghost use Rattle.counted.specs.Whole.{Whole};
ghost use Rattle.frames.proofs.Legal.{LegalFrame};
ghost use Rattle.worked.specs.Work.{differing, report_of};

use counted::count_changed;
use frames::{extent, sub_of};
use geometry::stripes::stripes;
use standard::{Frame, Report};

fn report(f: Frame, changed: u32, differs: u32) -> Report
    requires { LegalFrame f }
    ensures { result ≡ report_of f changed differs }
{
    let height = extent(f.plane, f.sub_y, f.frame_height);
    let width = extent(f.plane, f.sub_x, f.upscaled_width);
    Report {
        plane: f.plane,
        width: width,
        height: height,
        stripes: stripes(sub_of(f.plane, f.sub_y), height),
        changed: changed,
        differs: differs,
    }
}

// The same of a plane that was restored twice, with the samples by which the second differs.
pub fn compared(f: Frame, changed: u32, out: &[i32], plane: &[i32]) -> Report
    requires { LegalFrame f × (length out.now ≡ length plane.now) × (length plane.now ≤ 1024) × Whole out.now × Whole plane.now }
    ensures { result ≡ report_of f changed (differing out.now plane.now) }
{
    let differs = count_changed(out, plane);
    report(f, changed, differs)
}

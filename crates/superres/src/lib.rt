// Superres: the plane upscaler.
#![tactic(auto)]

mod block;
mod plan;
mod positions;
mod refusals;
mod row;
mod taps;

ghost use Rattle.std.specs.Prelude.{◌≡◌, length};
ghost use Rattle.standard.specs.Answers.{of_stored};
ghost use Rattle.standard.specs.Calls.{upscaled_slice, upscale_out};
ghost use Rattle.standard.specs.Refusals.{first, upscale_tests};

use block::{Source, scale};
use plan::plan_of;
use refusals::{is_copy, tested};
use runs::copy_run;
use standard::{Refusal, Scaling};

// What a call that no test refuses writes.
fn write(s: Scaling, input: &[i32], output: &mut [i32])
    requires { first (upscale_tests s input.now (length output.old)) ≡ 0 }
    ensures { output.new ≡ upscaled_slice s input.now }
{
    if is_copy(s) {
        copy_run(output, 0, input, 0, input.len());
        return;
    }
    let p = plan_of(s);
    scale(output, &Source { src: input, p });
}

// One plane upscaled, or copied where the flag is clear or the frame widths are equal. A refused call leaves `output` as it was.
pub fn upscale_plane(s: Scaling, input: &[i32], output: &mut [i32]) -> Result<(), Refusal>
    ensures result_value { of_stored result ≡ first (upscale_tests s input.now (length output.old)) }
    ensures output_after { output.new ≡ upscale_out s input.now output.old }
{
    tested(s, input, output.len())?;
    write(s, input, output);
    Ok(())
}

// The upscaler under its C name, exported.
ghost use Rattle.std.specs.Prelude.{◌≡◌, length};
ghost use Rattle.standard.specs.Calls.{upscale_out};
ghost use Rattle.standard.specs.Refusals.{first, upscale_tests};

use standard::Scaling;

#[unsafe(no_mangle)]
pub extern "C" fn cironetop_upscale_plane(s: Scaling, input: &[i32], output: &mut [i32]) -> u32
    ensures value { result ≡ first (upscale_tests s input.now (length output.old)) }
    ensures output_after { output.new ≡ upscale_out s input.now output.old }
{
    host::superres_calls::cironetop_upscale_plane(s, input, output)
}

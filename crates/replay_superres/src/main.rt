// Replays data/upscale.rec: planes that the reference upscaled, or copied where nothing was asked. A record is its entry count, then
// twelve frame numbers, the input and the output, each plane after its own count; entries are 16 bits, low byte first.
#![tactic(auto)]

use records::file::{Extent, replay};
use records::record::{NoRecord, Record, blank};
use standard::Scaling;
use std::fs::File;
use std::io;
use superres::upscale_plane;

fn scaling(record: &mut Record<'_>) -> Result<Scaling, NoRecord> {
    let [plane, sub_x, sub_y, depth] = record.numbers::<4>()?;
    let [frame_width, upscaled_width, frame_height, use_superres] = record.numbers::<4>()?;
    let [in_rows, in_cols, out_rows, out_cols] = record.numbers::<4>()?;
    Ok(Scaling {
        plane,
        sub_x,
        sub_y,
        depth,
        frame_width,
        upscaled_width,
        frame_height,
        use_superres,
        in_rows,
        in_cols,
        out_rows,
        out_cols,
    })
}

// Whether the record's output is what comes out.
fn agrees(mut record: Record<'_>, input: &mut [i32], output: &mut [i32]) -> Result<bool, NoRecord> {
    let s = scaling(&mut record)?;
    let input = record.section(input, i32::from)?;
    let n = record.size()?;
    let output = blank(n, output)?;
    Ok(upscale_plane(s, input, output).is_ok() && record.same(output))
}

// A plane of more samples than its room does not agree; at a record of more bytes the run ends.
fn main(rt: HostRuntime) -> io::Result<()> {
    let mut file = File::open(&rt, "upscale.rec")?;
    let mut bytes = [0; 65536];
    let mut input = [0; 16392];
    let mut output = [0; 8192];
    let tally = replay(&mut file, Extent::Counted, 65535, &mut bytes, |record| {
        agrees(record, &mut input, &mut output)
    })?;
    println!(rt; "upscale {tally}")
}

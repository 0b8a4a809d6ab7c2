// Replays the recorded counts, rectangles and blocks of the reference, and prints how many records differ.
#![tactic(auto)]

mod places; // places.rt: one record against the calls

ghost use Rattle.std.specs.Prelude.{◌≤◌, IfOk};

use crate::places::{is_block, is_rectangle};
use input::read_full;
use records::file::{Extent, Tally, replay};
use std::fs::File;
use std::io;

// The next records of rectangles, as many as an array holds, so that a read takes them all.
fn some_rectangles(file: &mut File) -> io::Result<Tally>
    ensures { IfOk result (λ t. t.mismatches ≤ t.records × t.records ≤ 1365) }
{
    let mut bytes = [0; 65520];
    let n = read_full(file, &mut bytes)?;
    let mut held = &bytes[..n];
    let mut record = [0; 48];
    replay(
        &mut held,
        Extent::Bytes(48),
        1365,
        &mut record,
        is_rectangle,
    )
}

fn some_blocks(file: &mut File) -> io::Result<Tally>
    ensures { IfOk result (λ t. t.mismatches ≤ t.records × t.records ≤ 1724) }
{
    let mut bytes = [0; 65512];
    let n = read_full(file, &mut bytes)?;
    let mut held = &bytes[..n];
    let mut record = [0; 38];
    replay(&mut held, Extent::Bytes(38), 1724, &mut record, is_block)
}

// Two arrays hold the file; the count that is printed tells that there is no more.
fn rectangles(rt: &HostRuntime) -> io::Result<()> {
    let mut file = File::open(rt, "rectangles.rec")?;
    let first = some_rectangles(&mut file)?;
    let second = some_rectangles(&mut file)?;
    let tally = Tally {
        records: first.records + second.records,
        mismatches: first.mismatches + second.mismatches,
    };
    println!(rt; "rectangles {tally}")
}

fn blocks(rt: &HostRuntime) -> io::Result<()> {
    let mut file = File::open(rt, "blocks.rec")?;
    let tally = some_blocks(&mut file)?;
    println!(rt; "blocks {tally}")
}

fn main(rt: HostRuntime) -> io::Result<()> {
    rectangles(&rt)?;
    blocks(&rt)
}

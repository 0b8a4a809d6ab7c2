// Replays recorded samples of the reference and of real decoders, and prints how many records differ.
#![tactic(auto)]

ghost use Rattle.std.specs.Prelude.{◌*◌, ◌≤◌, IfOk};

use input::read_full;
use records::file::{Extent, Tally, replay};
use records::record::{NoRecord, Record};
use sample::restore_sample;
use std::fs::File;
use std::io;

// A record: its count, depth, row, ten numbers, 49 samples, the restored sample.
fn agrees(mut record: Record<'_>) -> Result<bool, NoRecord> {
    let [_count, depth, row] = record.numbers::<3>()?;
    let r = restore_sample(
        depth,
        row,
        record.signed()?,
        record.signed()?,
        record.signed()?,
        record.signed()?,
        record.signed()?,
        record.signed()?,
        record.signed()?,
        record.signed()?,
        record.signed()?,
        record.signed()?,
        record.bytes(98)?,
    );
    Ok(r == record.signed()?)
}

// The next records, as many as an array holds, so that a read takes them all.
fn some_samples(file: &mut File) -> io::Result<Tally>
    ensures { IfOk result (λ t. t.mismatches ≤ t.records × t.records ≤ 520) }
{
    let mut bytes = [0; 65520];
    let n = read_full(file, &mut bytes)?;
    let mut held = &bytes[..n];
    let mut record = [0; 126];
    replay(&mut held, Extent::Bytes(126), 520, &mut record, agrees)
}

// Four arrays hold a file; the count that is printed tells that there is no more.
fn all_samples(mut file: File) -> io::Result<Tally>
    ensures { IfOk result (λ t. t.mismatches ≤ t.records × t.records ≤ 2080) }
{
    let mut all = Tally::default();
    for _ in 0..4u32 {
        let some = some_samples(&mut file)?;
        all.records += some.records;
        all.mismatches += some.mismatches;
    }
    Ok(all)
}

// The words are printed once the file is open, before it is read.
fn samples(rt: &HostRuntime, path: &str, what: &str) -> io::Result<()> {
    let file = File::open(rt, path)?;
    print!(rt; "{what} ")?;
    println!(rt; "{}", all_samples(file)?)
}

// What the reference answered, and what real decoders' pictures hold.
fn main(rt: HostRuntime) -> io::Result<()> {
    samples(&rt, "samples.rec", "samples")?;
    samples(&rt, "decoders.samples", "samples of decoders")
}

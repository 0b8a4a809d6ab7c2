// Replays data/planes.rec: planes that the reference restored. A record is its entry count, then eight frame numbers, the units, the
// deblocked, the CDEF and the restored plane, each after its own count, and `changed`; entries are 16 bits, low byte first.
#![tactic(auto)]

use records::file::{Extent, replay};
use records::record::{NoRecord, Record, blank, signed};
use restoration::restore_plane;
use std::fs::File;
use std::io;

// What a call is lent; a record that asks for more does not agree.
#[derive(Drop)]
struct Room {
    units: [i32; 1024],
    deblocked: [i32; 6208],
    cdef: [i32; 6208],
    out: [i32; 6208],
    scratch: [i32; 65536],
}

// Whether the record's plane is what comes out. The planes after the first are as long as it, whatever their counts say.
fn agrees(mut record: Record<'_>, room: &mut Room) -> Result<bool, NoRecord> {
    let f = record.frame()?;
    let units = record.section(&mut room.units, signed)?;
    let deblocked = record.section(&mut room.deblocked, signed)?;
    let n = deblocked.len();
    record.size()?;
    let cdef = record.fill(n, &mut room.cdef, signed)?;
    record.size()?;
    let restored = record.entries(n)?;
    let changed = record.number()?;
    record.end()?;
    let out = blank(n, &mut room.out)?;
    let answer = restore_plane(f, units, deblocked, cdef, out, &mut room.scratch);
    Ok(answer.is_ok_and(|n| n == changed) && restored.same(out))
}

fn main(rt: HostRuntime) -> io::Result<()> {
    let mut file = File::open(&rt, "planes.rec")?;
    let mut bytes = [0; 65536];
    let mut room = Room {
        units: [0; 1024],
        deblocked: [0; 6208],
        cdef: [0; 6208],
        out: [0; 6208],
        scratch: [0; 65536],
    };
    let tally = replay(&mut file, Extent::Counted, 65535, &mut bytes, |record| {
        agrees(record, &mut room)
    })?;
    println!(rt; "planes {tally}")
}

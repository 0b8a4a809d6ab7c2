// The records of a file, each put to a check.
ghost use Rattle.std.specs.Prelude.{◌≡◌, ◌≤◌, ℕ, List, ◌++◌, length, IfOk, IfSome, OnErr};
ghost use Rattle.std.specs.Io.KnownBytes.{Consumes};
ghost use Rattle.records.specs.Skipped.{skipped};

use crate::record::{NoRecord, Record};
use input::read_full;
use std::io::Read;
use std::{fmt, io};

// How long a record is: as many entries as the one before it says, or always so many bytes.
#[derive(Clone, Copy)]
pub enum Extent {
    Counted,
    Bytes(usize),
}

// How many records are read, and how many of them do not agree.
#[derive(Clone, Copy, Default)]
pub struct Tally {
    pub records: u32,
    pub mismatches: u32,
}

impl fmt::Display for Tally {
    fn fmt<W: fmt::Write>(&self, f: &mut fmt::Formatter<W>) -> fmt::Result {
        let records = self.records;
        let mismatches = self.mismatches;
        write!(f, "{records} mismatches {mismatches}")
    }
}

// The entry count before a record; None where the file ends, as it does at a 0.
fn count<R: Read>(from: &mut R) -> io::Result<Option<u16>>
    ensures { IfOk result (λ o. IfSome o (λ _. (head : List ℕ) × Consumes (R.remaining from.old) (R.remaining from.new) head × (length head ≡ 2))) }
{
    let mut head = [0u8; 2];
    if read_full(from, &mut head)? < 2 {
        return Ok(None);
    }
    match u16::from_le_bytes(head) {
        0 => Ok(None),
        n => Ok(Some(n)),
    }
}

// The next `size` bytes; None where the file or the room has fewer.
fn whole<'a, R: Read>(
    from: &mut R,
    size: usize,
    room: &'a mut [u8],
) -> io::Result<Option<Record<'a>>>
    ensures { IfOk result (λ o. IfSome o (λ r. Consumes (R.remaining from.old) (R.remaining from.new) r.bytes.now × (length r.bytes.now ≡ size))) }
{
    if room.len() < size {
        return Ok(None);
    }
    let bytes = &mut room[..size];
    if read_full(from, bytes)? < size {
        return Ok(None);
    }
    Ok(Some(Record::new(bytes)))
}

// The next record, read to the start of the room; None where the file ends, or the room holds no such record.
pub fn next_record<'a, R: Read>(
    from: &mut R,
    extent: Extent,
    room: &'a mut [u8],
) -> io::Result<Option<Record<'a>>>
    ensures { IfOk result (λ o. IfSome o (λ r. (count : List ℕ) × Consumes (R.remaining from.old) (R.remaining from.new) (count ++ r.bytes.now) × (length count ≡ skipped extent))) }
{
    match extent {
        Extent::Bytes(size) => whole(from, size, room),
        Extent::Counted => match count(from)? {
            Some(n) => whole(from, 2 * usize::from(n), room),
            None => Ok(None),
        },
    }
}

// Puts a file's records to a check, at most so many; bytes that are no record of the kind do not agree.
pub fn replay<R: Read, F: FnMut(Record<'_>) -> Result<bool, NoRecord>>(
    from: &mut R,
    extent: Extent,
    most: u32,
    room: &mut [u8],
    mut agrees: F,
) -> io::Result<Tally>
    requires { F.IsAlwaysCallable agrees }
    ensures counted { IfOk result (λ t. t.mismatches ≤ t.records × t.records ≤ most) }
    ensures kept { OnErr result (length room.new ≡ length room.old) }
{
    let mut tally = Tally::default();
    for _ in 0..most {
        let Some(record) = next_record(from, extent, room)? else {
            break;
        };
        tally.records += 1;
        if agrees(record) != Ok(true) {
            tally.mismatches += 1;
        }
    }
    Ok(tally)
}

// Replays data/jobs.rec: jobs with what the reference, or document 01's number, answers. A record is its entry count, then the job's length
// in bytes, its bytes two an entry, the number, and where that is 0 plane, width, height, stripes, `changed`, the restored plane after its
// count, and the samples by which the in-place run differs; entries are 16 bits, low byte first.
#![tactic(auto)]

use records::file::{Extent, replay};
use records::record::{NoRecord, Record};
use standard::{JobRefusal, Report};
use std::fs::File;
use std::io;
use worked::run_job;

// Whether a done job's answer is what is left of the record.
fn is_report(mut record: Record<'_>, r: Report, out: &[i32]) -> Result<bool, NoRecord> {
    let numbers = record.numbers::<6>()?;
    let n = record.size()?;
    let rows = record.entries(n)?;
    let differs = record.number()?;
    record.end()?;
    let out = out.get(..n).ok_or(NoRecord::NoRoom)?;
    let same = numbers == [0, r.plane, r.width, r.height, r.stripes, r.changed];
    Ok(same && differs == r.differs && rows.same(out))
}

// The same of a refused job: the number and nothing after it.
fn is_number(mut record: Record<'_>, why: JobRefusal) -> Result<bool, NoRecord> {
    let number = record.number()?;
    record.end()?;
    Ok(number == u32::from(why))
}

// Whether the record's answer is what comes out.
fn agrees(mut record: Record<'_>) -> Result<bool, NoRecord> {
    let size = record.size()?;
    let job = record.bytes(size)?;
    let mut out = [-1; 1024];
    match run_job(job, &mut out) {
        Ok(report) => is_report(record, report, &out),
        Err(why) => is_number(record, why),
    }
}

fn main(rt: HostRuntime) -> io::Result<()> {
    let mut file = File::open(&rt, "jobs.rec")?;
    let mut bytes = [0; 65536];
    let tally = replay(&mut file, Extent::Counted, 10000000, &mut bytes, agrees)?;
    println!(rt; "jobs {tally}")
}

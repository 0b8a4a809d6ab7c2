// The reader of jobs: frame numbers, units and two planes out of bytes.
#![tactic(auto)]

pub mod entries; // entries.rt: one entry, and sections of entries
pub mod form; // form.rt: the extra results 17 and 18

ghost use Rattle.std.specs.Prelude.{◌≡◌};
ghost use Rattle.standard.specs.Answers.{of_job_read};
ghost use Rattle.standard.specs.Job.{job_of, open_answer, open_room};

use crate::entries::{TwosComplement, Unsigned, section};
use crate::form::form;
use standard::{JobRefusal, Sections};

// Reads a job: frame numbers and counts, and the entries of the other sections to the start of the room that is lent for each. Where it
// gives a number, all room is as it was.
pub fn read_job(
    bytes: &[u8],
    units: &mut [i32; 20],
    deblocked: &mut [i32; 1024],
    cdef: &mut [i32; 1024],
) -> Result<Sections, JobRefusal>
    ensures result_value { of_job_read result ≡ open_answer bytes.now }
    ensures units_after { units.new ≡ open_room bytes.now (job_of bytes.now).units units.old }
    ensures deblocked_after { deblocked.new ≡ open_room bytes.now (job_of bytes.now).deblocked deblocked.old }
    ensures cdef_after { cdef.new ≡ open_room bytes.now (job_of bytes.now).cdef cdef.old }
{
    let s = form(bytes)?;
    section::<TwosComplement>(units, bytes, 10, s.units);
    section::<Unsigned>(deblocked, bytes, 11 + s.units, s.deblocked);
    section::<Unsigned>(cdef, bytes, 12 + s.units + s.deblocked, s.cdef);
    Ok(s)
}

// One job worked: its plane restored whole, then once more in place, stripe by stripe, and the two compared.
#![tactic(auto)]

pub mod report; // report.rt: the numbers that are printed of a plane
pub mod stripes; // stripes.rt: the run in place

ghost use Rattle.std.specs.Prelude.{◌≡◌, length};
ghost use Rattle.standard.specs.Answers.{of_job_ran};
ghost use Rattle.standard.specs.Job.{run_answer, run_rows};
ghost use Rattle.standard.proofs.Job.{Bounded};
ghost use Rattle.worked.specs.Work.{job_with, work_answer, work_rows};

use crate::report::compared;
use crate::stripes::by_stripes;
use job::read_job;
use restoration::restore_plane;
use standard::{Frame, JobRefusal, Report};

// Works a job: its number, or what is printed of it, with the restored rows at the start of out. A refused job leaves out as it was.
pub fn run_job(bytes: &[u8], out: &mut [i32; 1024]) -> Result<Report, JobRefusal>
    ensures result_value { of_job_ran result ≡ run_answer bytes.now }
    ensures out_after { out.new ≡ run_rows bytes.now out.old }
{
    run_to(bytes, out)
}

fn run_to(bytes: &[u8], out: &mut [i32]) -> Result<Report, JobRefusal>
    requires { length out.old ≡ 1024 }
    ensures result_value { of_job_ran result ≡ run_answer bytes.now }
    ensures out_after { out.new ≡ run_rows bytes.now out.old }
{
    let mut units = [0i32; 20];
    let mut deblocked = [0i32; 1024];
    let mut cdef = [0i32; 1024];
    let s = read_job(bytes, &mut units, &mut deblocked, &mut cdef)?;
    work(
        s.frame,
        &units[0..s.units],
        &deblocked[0..s.deblocked],
        &mut cdef[0..s.cdef],
        &mut out[0..s.cdef],
    )
}

// A job's plane to out, and once more in place of its CDEF plane.
fn work(
    f: Frame,
    units: &[i32],
    deblocked: &[i32],
    cdef: &mut [i32],
    out: &mut [i32],
) -> Result<Report, JobRefusal>
    requires { Bounded (job_with f units.now deblocked.now cdef.old) × (length out.old ≡ length cdef.old) }
    ensures result_value { of_job_ran result ≡ work_answer (job_with f units.now deblocked.now cdef.old) }
    ensures out_after { out.new ≡ work_rows (job_with f units.now deblocked.now cdef.old) out.old }
{
    let mut scratch = [0i32; 6912];
    let changed = restore_plane(f, units, deblocked, cdef, out, &mut scratch)?;
    by_stripes(f, units, deblocked, cdef, &mut scratch);
    Ok(compared(f, changed, out, cdef))
}

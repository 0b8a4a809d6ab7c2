// The form of a job: whether the bytes are as many as the counts say, and within the job program's bounds.
ghost use Rattle.std.specs.Prelude.{◌≡◌, ◌≤◌, length};
ghost use Rattle.standard.specs.Answers.{of_job_read};
ghost use Rattle.standard.specs.Job.{frame_of, open_answer};
ghost use Rattle.job.specs.Form.{counted_answer, over_bounds};

use crate::entries::entry;
use standard::{Frame, JobRefusal, Sections};

// The eight entries of the frame.
fn frame_of(bytes: &[u8]) -> Frame
    requires { 18 ≤ length bytes.now }
    ensures { result ≡ frame_of bytes.now }
{
    Frame {
        plane: entry(bytes, 1),
        sub_x: entry(bytes, 2),
        sub_y: entry(bytes, 3),
        depth: entry(bytes, 4),
        frame_height: entry(bytes, 5),
        upscaled_width: entry(bytes, 6),
        unit_size: entry(bytes, 7),
        frame_type: entry(bytes, 8),
    }
}

// 17: each count is read only where the bytes reach it, and they end with the last section.
fn counted(bytes: &[u8]) -> Result<Sections, JobRefusal>
    requires { length bytes.now ≤ 4160 }
    ensures { of_job_read result ≡ counted_answer bytes.now }
{
    let n = bytes.len();
    if n < 24 {
        return Err(JobRefusal::NoJob);
    }
    if entry(bytes, 0) != 8 {
        return Err(JobRefusal::NoJob);
    }
    let u = entry(bytes, 9) as usize;
    if n < 24 + 2 * u {
        return Err(JobRefusal::NoJob);
    }
    let d = entry(bytes, 10 + u) as usize;
    if n < 24 + 2 * (u + d) {
        return Err(JobRefusal::NoJob);
    }
    let c = entry(bytes, 11 + u + d) as usize;
    if n != 24 + 2 * (u + d + c) {
        return Err(JobRefusal::NoJob);
    }
    Ok(Sections {
        frame: frame_of(bytes),
        units: u,
        deblocked: d,
        cdef: c,
    })
}

#[tactic(auto, unfolding(crate::specs::Form::over_bounds))]
fn over(s: Sections) -> bool
    ensures { result ≡ over_bounds s }
{
    8 < s.frame.upscaled_width
        || 128 < s.frame.frame_height
        || 20 < s.units
        || 1024 < s.deblocked
        || 1024 < s.cdef
}

// The extra results in their order: 18 for a longer input, 17, 18 over another bound.
pub fn form(bytes: &[u8]) -> Result<Sections, JobRefusal>
    ensures { of_job_read result ≡ open_answer bytes.now }
{
    if 4160 < bytes.len() {
        return Err(JobRefusal::OverBound);
    }
    let s = counted(bytes)?;
    if over(s) {
        return Err(JobRefusal::OverBound);
    }
    Ok(s)
}

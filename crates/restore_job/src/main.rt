// The job program: reads a job from standard input, restores its plane, whole and in place, and prints the number that it is refused
// with, or plane, width, height, stripes and changed samples, the restored rows, and by how many samples the in-place run differs.
#![tactic(auto)]

ghost use Rattle.std.specs.Prelude.{◌*◌, ◌≤◌, length};
ghost use Rattle.counted.specs.Whole.{Whole};

use input::read_full;
use standard::Report;
use std::io;
use worked::run_job;

// A row of samples as one line, a space before each but the first.
fn print_row(rt: &impl Print, row: &[i32]) -> io::Result<()> {
    for (x, sample) in row.iter().enumerate() {
        if x != 0 {
            print!(rt; " ")?;
        }
        print!(rt; "{sample}")?;
    }
    println!(rt)
}

// The numbers of a plane, its h rows of w samples, and how the run in place differs.
fn print_report(rt: &impl Print, r: Report, out: &[i32]) -> io::Result<()>
    requires { (r.height * r.width ≤ length out.now) × (r.height ≤ 128) × (r.width ≤ 8) × Whole out.now }
{
    println!(rt;
        "plane {} {} {} {} {}",
        r.plane, r.width, r.height, r.stripes, r.changed
    )?;
    let width = r.width as usize;
    for y in 0..r.height as usize {
        print_row(rt, &out[y * width..(y + 1) * width])?;
    }
    println!(rt; "in place differs {}", r.differs)
}

// One byte past the bound is asked for, so that a longer input is seen.
fn main(rt: HostRuntime) -> io::Result<()> {
    let mut bytes = [0u8; 4161];
    let mut out = [0i32; 1024];
    let n = read_full(&mut rt.reader(), &mut bytes)?;
    match run_job(&bytes[..n], &mut out) {
        Ok(report) => print_report(&rt, report, &out),
        Err(why) => println!(&rt; "refused {}", u32::from(why)),
    }
}

// Damage stays in its stripe: a small plane whose edge rows are captured, two stripes overwritten, all restored in an odd order with
// refused calls between; then each stripe against the undamaged plane.
#![tactic(auto)]

mod picture; // picture.rt: the planes, the units and the damage
mod figures; // figures.rt: counts and distances
mod calls; // calls.rt: the calls in their order

ghost use Rattle.std.specs.Prelude.{◌<◌};

use crate::calls::{Lent, number_of, run};
use crate::figures::{damage, differing, farthest};
use crate::picture::{SAMPLES, UNITS, cdef, damaged, deblocked, frame};
use edges::capture_edges;
use geometry::stripes::{stripe_start, stripe_stop};
use restoration::restore_plane;
use standard::Refusal;
use std::io;

// The answer of whole-plane restore, as columns.
fn tell(rt: &impl Print, answer: Result<u32, Refusal>) -> io::Result<()> {
    match answer {
        Ok(changed) => println!(rt; "{:>13}{changed:>13}", 0),
        Err(why) => println!(rt; "{:>13}", u32::from(why)),
    }
}

// What comes before any damage: the whole plane's answer, and the edge rows.
fn prepare(
    rt: &impl Print,
    whole: &mut [i32],
    edges: &mut [i32],
    scratch: &mut [i32],
) -> io::Result<()> {
    let deblocked = deblocked();
    let cdef = cdef();
    println!(rt;
        "12 columns, 264 rows, 8 bits; units from the top: Wiener, self-guided, none, Wiener\n"
    )?;
    println!(rt; "call                                               answer      changed")?;
    print!(rt; "{:<44}", "whole plane")?;
    tell(
        rt,
        restore_plane(frame(8), &UNITS, &deblocked, &cdef, whole, scratch),
    )?;
    let captured = number_of(capture_edges(frame(8), &deblocked, edges));
    println!(rt; "{:<44}{captured:>13}", "edge rows of the deblocked plane")?;
    println!(rt; "(samples of stripes 1 and 3 are overwritten with other legal ones)")
}

// Stripe s against the undamaged plane, as a line.
fn compared(rt: &impl Print, s: u32, mark: u8, plane: &[i32], whole: &[i32]) -> io::Result<()>
    requires { s < 5 }
{
    let from = 12 * stripe_start(0, s) as usize;
    let end = SAMPLES.min(12 * stripe_stop(0, s) as usize);
    let damage = damage(from, end);
    let differing = differing(plane, whole, from, end);
    print!(rt; "{s:>13}{mark:>13}{damage:>13}{differing:>13}")?;
    match farthest(plane, whole, from, end) {
        Some(far) => println!(rt; "{far:>13}"),
        None => println!(rt; "{:>13}", "-"),
    }
}

fn compare(rt: &impl Print, lent: &Lent, whole: &[i32]) -> io::Result<()> {
    println!(rt; "\n       stripe         mark  overwritten    differing     farthest")?;
    for s in 0..5u32 {
        compared(rt, s, lent.marks[s as usize], &lent.plane, whole)?;
    }
    Ok(())
}

fn legend(rt: &impl Print) -> io::Result<()> {
    println!(rt;
        "\nanswer: 0 done, else the number of the refusal; changed: samples that the call changed;"
    )?;
    println!(rt;
        "differing: samples other than the undamaged whole plane's; farthest: the most rows or"
    )?;
    println!(rt; "columns from a differing sample to the nearest overwritten one of its stripe")
}

fn main(rt: HostRuntime) -> io::Result<()> {
    let mut whole = [0; SAMPLES];
    let mut lent = Lent {
        plane: damaged(),
        edges: [0; 192],
        marks: [0; 5],
        scratch: [0; 8640],
        copy: [0; 768],
    };
    prepare(&rt, &mut whole, &mut lent.edges, &mut lent.scratch)?;
    run(&rt, &mut lent)?;
    compare(&rt, &lent, &whole)?;
    legend(&rt)
}

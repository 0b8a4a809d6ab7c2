// The calls of the run: stripes 3, 0, 4, 1, 2, and between them calls that are refused. Each call has a line.
use crate::figures::changed;
use crate::picture::{SAMPLES, UNITS, frame};
use in_place::restore_stripe;
use standard::Refusal;
use std::io;

// What is wrong with a call.
#[derive(Clone, Copy, PartialEq, Eq)]
enum Fault {
    Nothing,
    Mark,
    Scratch,
    EdgeRows,
    Units,
    Depth,
}

#[derive(Clone, Copy)]
struct Call {
    what: &'static str,
    stripe: u32,
    fault: Fault,
}

impl Call {
    fn new(what: &'static str, stripe: u32, fault: Fault) -> Call {
        Call {
            what,
            stripe,
            fault,
        }
    }
}

// What the calls are lent.
#[derive(Drop)]
pub struct Lent {
    pub plane: [i32; SAMPLES],
    pub edges: [i32; 192],
    pub marks: [u8; 5],
    pub scratch: [i32; 8640],
    pub copy: [i32; 768],
}

// The number of an answer, 0 where the stripe is restored.
pub fn number_of(answer: Result<(), Refusal>) -> u32 {
    answer.map_or_else(u32::from, |_| 0)
}

// The number of a call's answer.
fn answer(call: &Call, lent: &mut Lent) -> u32 {
    let f = frame(if call.fault == Fault::Depth { 9 } else { 8 });
    let units = if call.fault == Fault::Units { 30 } else { 40 };
    let edges = if call.fault == Fault::EdgeRows {
        144
    } else {
        192
    };
    let scratch = if call.fault == Fault::Scratch {
        8639
    } else {
        8640
    };
    let mut marks = if call.fault == Fault::Mark {
        [0, 0, 2, 0, 0]
    } else {
        lent.marks
    };
    let room = &mut lent.scratch[..];
    let answer = restore_stripe(
        f,
        call.stripe,
        &UNITS[..units],
        &lent.edges[..edges],
        &mut lent.plane,
        &mut marks,
        &mut room[..scratch],
        &mut lent.copy,
    );
    if call.fault != Fault::Mark {
        lent.marks = marks;
    }
    number_of(answer)
}

// A call and its line: what it is, its answer, and how many samples of the plane it changes.
fn shown(rt: &impl Print, call: &Call, lent: &mut Lent) -> io::Result<()> {
    let before = lent.plane;
    let what = call.what;
    let answer = answer(call, lent);
    let changed = changed(&lent.plane, &before);
    println!(rt; "{what:<44}{answer:>13}{changed:>13}")
}

// The calls, in their order.
pub fn run(rt: &impl Print, lent: &mut Lent) -> io::Result<()> {
    let calls = [
        Call::new("stripe 3", 3, Fault::Nothing),
        Call::new("stripe 3 again", 3, Fault::Nothing),
        Call::new("stripe 5, of 0 to 4", 5, Fault::Nothing),
        Call::new("stripe 0", 0, Fault::Nothing),
        Call::new("stripe 1, a mark is 2", 1, Fault::Mark),
        Call::new("stripe 1, scratch one number short", 1, Fault::Scratch),
        Call::new("stripe 4", 4, Fault::Nothing),
        Call::new(
            "stripe 1, edge rows of one boundary missing",
            1,
            Fault::EdgeRows,
        ),
        Call::new("stripe 1, one unit missing", 1, Fault::Units),
        Call::new("stripe 1", 1, Fault::Nothing),
        Call::new("stripe 2, depth 9", 2, Fault::Depth),
        Call::new("stripe 2", 2, Fault::Nothing),
    ];
    for call in &calls {
        shown(rt, call, lent)?;
    }
    Ok(())
}

// Replays data/edges.rec and data/stripes.rec: edge rows that the reference captured, and stripes that it restored in place in some order.
#![tactic(auto)]

mod captured; // captured.rt: edge rows against the capture
mod in_order; // in_order.rt: stripes against the in-place call

use crate::in_order::Room;
use records::file::{Extent, replay};
use std::fs::File;
use std::io;

fn edges(rt: &HostRuntime) -> io::Result<()> {
    let mut file = File::open(rt, "edges.rec")?;
    let mut bytes = [0; 65536];
    let mut deblocked = [0; 4096];
    let mut edges = [0; 1024];
    let tally = replay(&mut file, Extent::Counted, 65535, &mut bytes, |record| {
        captured::agrees(record, &mut deblocked, &mut edges)
    })?;
    println!(rt; "edges {tally}")
}

fn stripes(rt: &HostRuntime) -> io::Result<()> {
    let mut file = File::open(rt, "stripes.rec")?;
    let mut bytes = [0; 65536];
    let mut room = Room {
        units: [0; 256],
        edges: [0; 1024],
        plane: [0; 6208],
        marks: [0; 64],
        scratch: [0; 65536],
        copy: [0; 4096],
    };
    let tally = replay(&mut file, Extent::Counted, 65535, &mut bytes, |record| {
        in_order::agrees(record, &mut room)
    })?;
    println!(rt; "stripes {tally}")
}

fn main(rt: HostRuntime) -> io::Result<()> {
    edges(&rt)?;
    stripes(&rt)
}

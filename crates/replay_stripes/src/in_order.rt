// Records of stripes.rec: eight frame numbers, then the units, the edge rows, the plane before, the stripe numbers in the order done and
// the plane after, each after its own count.
use geometry::count;
use in_place::restore_stripe;
use records::record::{NoRecord, Record, signed};
use standard::Frame;

// What the calls are lent, with a mark for each of at most 64 stripes; a record that asks for more does not agree.
#[derive(Drop)]
pub struct Room {
    pub units: [i32; 256],
    pub edges: [i32; 1024],
    pub plane: [i32; 6208],
    pub marks: [u8; 64],
    pub scratch: [i32; 65536],
    pub copy: [i32; 4096],
}

// The stripes of a plane. Their count does not depend on the unit size, which is anything with frame type 0.
fn stripes_of(f: Frame) -> usize {
    let sized = Frame { unit_size: 64, ..f };
    count(sized).map_or(0, |c| c.stripes as usize)
}

// Whether each stripe of the record is restored in its order, and the plane after, whatever its count says, is what comes out.
pub fn agrees(mut record: Record<'_>, room: &mut Room) -> Result<bool, NoRecord> {
    let f = record.frame()?;
    let units = record.section(&mut room.units, signed)?;
    let edges = record.section(&mut room.edges, signed)?;
    let plane = record.section(&mut room.plane, signed)?;
    let n = record.size()?;
    if 64 < n {
        return Err(NoRecord::NoRoom);
    }
    let mut order = record.entries(n)?;
    record.size()?;
    let marks = &mut room.marks[..];
    let marks = marks.get_mut(..stripes_of(f)).ok_or(NoRecord::NoRoom)?;
    marks.fill(0);
    let (scratch, copy) = (&mut room.scratch, &mut room.copy);
    let done = order.all(|s| {
        restore_stripe(f, u32::from(s), units, edges, plane, marks, scratch, copy).is_ok()
    });
    Ok(done && record.same(plane))
}

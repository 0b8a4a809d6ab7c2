// Records of edges.rec: eight frame numbers, the deblocked plane and the edge rows, each after its own count.
use edges::capture_edges;
use records::record::{NoRecord, Record, blank, signed};

// Whether the record's edge rows are what comes out.
pub fn agrees(
    mut record: Record<'_>,
    deblocked: &mut [i32],
    edges: &mut [i32],
) -> Result<bool, NoRecord> {
    let f = record.frame()?;
    let deblocked = record.section(deblocked, signed)?;
    let n = record.size()?;
    let edges = blank(n, edges)?;
    Ok(capture_edges(f, deblocked, edges).is_ok() && record.same(edges))
}

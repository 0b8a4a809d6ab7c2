// Figures of the run: how many samples differ or are overwritten, and how far apart they are.
use crate::picture::overwritten;

// The samples in which two planes differ.
pub fn changed(a: &[i32], b: &[i32]) -> usize {
    a.iter().zip(b).filter(|(x, y)| *x != *y).count()
}

// The places from .. end at which two planes differ.
pub fn differing(a: &[i32], b: &[i32], from: usize, end: usize) -> usize {
    a.iter()
        .zip(b)
        .take(end)
        .skip(from)
        .filter(|(x, y)| *x != *y)
        .count()
}

// The overwritten places of from .. end.
pub fn damage(from: usize, end: usize) -> usize {
    (from..end).filter(|k| overwritten(*k)).count()
}

// From one place to another, in rows or columns, whichever is more.
fn gap(k: usize, j: usize) -> usize {
    (k / 12).abs_diff(j / 12).max((k % 12).abs_diff(j % 12))
}

// From place k to the nearest overwritten one of from .. end; None where there is none.
fn nearest(k: usize, from: usize, end: usize) -> Option<usize> {
    (from..end)
        .filter(|j| overwritten(*j))
        .map(|j| gap(k, j))
        .min()
}

// The farthest that a differing sample of from .. end is from the nearest overwritten one there; None where no sample differs.
pub fn farthest(a: &[i32], b: &[i32], from: usize, end: usize) -> Option<usize> {
    a.iter()
        .zip(b)
        .enumerate()
        .take(end)
        .skip(from)
        .filter(|(_, (x, y))| *x != *y)
        .filter_map(|(k, _)| nearest(k, from, end))
        .max()
}

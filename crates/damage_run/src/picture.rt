// What the run is made of: a plane of 12 columns and 264 rows of 8 bits, so five stripes and four unit rows. Places go row after row.
ghost use Rattle.std.specs.Prelude.{◌<◌};

use standard::Frame;
use std::array::from_fn;

// The samples of the plane.
pub const SAMPLES: usize = 3168;

// The units from the top, ten numbers each.
pub const UNITS: [i32; 40] = [
    // Wiener: three vertical, three horizontal coefficients.
    1, 3, -7, 15, 5, -11, 24, 0, 0, 0,
    // Self-guided: set and two weights last.
    2, 0, 0, 0, 0, 0, 0, 9, 31, 31,
    // None.
    0, 0, 0, 0, 0, 0, 0, 0, 0, 0,
    // Wiener.
    1, 2, -5, 30, -3, 4, 20, 0, 0, 0,
];

pub fn frame(depth: u32) -> Frame {
    Frame {
        plane: 0,
        sub_x: 0,
        sub_y: 0,
        depth,
        frame_height: 264,
        upscaled_width: 12,
        unit_size: 64,
        frame_type: 3,
    }
}

// The sample of the deblocked plane.
fn deblocked_at(k: usize) -> usize
    ensures { result < 240 }
{
    (k / 12 + 5 * (k % 12) + 3 * (k % 7)) % 240
}

// The sample of the CDEF plane, which is near it.
fn cdef_at(k: usize) -> usize
    ensures { result < 256 }
{
    deblocked_at(k) + 3 * (k % 5)
}

// In stripe 1 its first row, a sample in its middle and its last; in stripe 3 its first sample and its last row.
pub fn overwritten(k: usize) -> bool {
    matches!(
        (k / 12, k % 12),
        (56 | 247, _) | (90, 6) | (119, 11) | (184, 0)
    )
}

pub fn deblocked() -> [i32; SAMPLES] {
    from_fn(|k| deblocked_at(k) as i32)
}

pub fn cdef() -> [i32; SAMPLES] {
    from_fn(|k| cdef_at(k) as i32)
}

// The sample of the damaged CDEF plane: 255 less the sample is always another one.
fn damaged_at(k: usize) -> i32 {
    let s = cdef_at(k) as i32;
    if overwritten(k) { 255 - s } else { s }
}

// The CDEF plane, with samples of stripes 1 and 3 overwritten.
pub fn damaged() -> [i32; SAMPLES] {
    from_fn(damaged_at)
}

// The four rows of a boundary: two above it, two below, cut to the plane's last row.
ghost use Rattle.std.specs.Prelude.{◌≡◌, ◌+◌, ◌-◌, ◌*◌, ◌/◌, ◌%◌, ◌≤◌, ◌<◌, pos, length, get_or};
ghost use Rattle.standard.specs.Stripes as defined;
ghost use Rattle.standard.specs.Planes as planes;

use fetch::row_of;
use geometry::stripes::{stripe_start, stripes};
use runs::copy_run;

// The row of the plane that is row k of boundary s.
fn edge_row(sub_y: u32, h: usize, s: u32, k: usize) -> usize
    requires { (sub_y ≤ 1) × (1 ≤ s) × (s ≤ 65535) × (k ≤ 3) × (0 < h) }
    ensures { result ≡ planes.edge_row sub_y h s k }
{
    let b = stripe_start(sub_y, s) as usize;
    (b + k - 2).min(h - 1)
}

// Boundary after boundary, row after row.
pub fn capture_rows(edges: &mut [i32], deblocked: &[i32], sub_y: u32, h: usize, w: usize)
    requires sub_y_bound { (sub_y ≤ 1) × (0 < h) × (h ≤ 16384) × (0 < w) × (w ≤ 16384) }
    requires deblocked_len { (length deblocked.now ≡ h * w) × (length edges.old ≡ 4 * w * (defined.stripes sub_y h - 1)) }
    ensures { edges.new ≡ planes.captured_slice sub_y h w deblocked.now }
{
    let n = 4 * (stripes(sub_y, h as u32) - 1);
    for k in 0..n {
        let y = edge_row(sub_y, h, k / 4 + 1, (k % 4) as usize);
        copy_run(edges, (k as usize) * w, deblocked, y * w, w);
    }
}

// The two rows above stripe s: no samples where that boundary does not exist.
#[tactic(auto, unfolding(standard::specs::Planes::above))]
pub fn above(edges: &[i32], sub_y: u32, h: usize, w: usize, s: u32) -> &[i32]
    requires { (sub_y ≤ 1) × (0 < h) × (h ≤ 16384) × (w ≤ 16384) × (length edges.now ≡ 4 * w * (defined.stripes sub_y h - 1)) }
    ensures { result.now ≡ planes.above sub_y h w edges.now s }
{
    if s == 0 || stripes(sub_y, h as u32) <= s {
        return &edges[..0];
    }
    let a = 4 * w * ((s - 1) as usize);
    &edges[a..a + 2 * w]
}

// The two rows below stripe s: no samples where that boundary does not exist.
#[tactic(auto, using(crate::proofs::Laws::some_stripe), unfolding(standard::specs::Planes::below))]
pub fn below(edges: &[i32], sub_y: u32, h: usize, w: usize, s: u32) -> &[i32]
    requires { (sub_y ≤ 1) × (0 < h) × (h ≤ 16384) × (w ≤ 16384) × (length edges.now ≡ 4 * w * (defined.stripes sub_y h - 1)) }
    ensures { result.now ≡ planes.below sub_y h w edges.now s }
{
    if stripes(sub_y, h as u32) - 1 <= s {
        return &edges[..0];
    }
    let a = 4 * w * (s as usize) + 2 * w;
    &edges[a..a + 2 * w]
}

// Stripes of 64 luma rows, eight rows up: their rows, their count, the stripe of a row.
ghost use Rattle.std.specs.Prelude.{◌≡◌, ◌≤◌, ◌<◌};
ghost use Rattle.standard.specs.Stripes as defined;

// The stripe that a row lies in.
pub fn stripe_of(sub_y: u32, row: u32) -> u32
    requires { (sub_y ≤ 1) × (row ≤ 65535) }
    ensures { result ≡ defined.stripe_of sub_y row }
{
    ((row << sub_y) + 8) / 64
}

// The stripes that start in a plane of `height` rows.
pub fn stripes(sub_y: u32, height: u32) -> u32
    requires { (sub_y ≤ 1) × (0 < height) × (height ≤ 65535) }
    ensures { result ≡ defined.stripes sub_y height }
{
    stripe_of(sub_y, height - 1) + 1
}

// The first row of stripe s in the plane.
#[tactic(auto, unfolding(standard::specs::Stripes::stripe_start))]
pub fn stripe_start(sub_y: u32, s: u32) -> u32
    requires { (sub_y ≤ 1) × (s ≤ 65535) }
    ensures { result ≡ defined.stripe_start sub_y s }
{
    (64 * s).saturating_sub(8) >> sub_y
}

// The row after the last of stripe s, not cut to the plane.
pub fn stripe_stop(sub_y: u32, s: u32) -> u32
    requires { (sub_y ≤ 1) × (s ≤ 65535) }
    ensures { result ≡ defined.stripe_stop sub_y s }
{
    (64 * s + 56) >> sub_y
}

// StripeStartY: stripe 0 starts above the plane.
pub fn stripe_start_y(sub_y: u32, s: u32) -> i32
    requires { (sub_y ≤ 1) × (s ≤ 65535) }
    ensures { result ≡ defined.stripe_start_y_of sub_y s }
{
    let luma = 64 * s;
    (luma as i32 - 8) >> sub_y
}

// StripeEndY, the last row of the stripe, not cut to the plane.
pub fn stripe_end_y(sub_y: u32, s: u32) -> i32
    requires { (sub_y ≤ 1) × (s ≤ 65535) }
    ensures { result ≡ defined.stripe_end_y_of sub_y s }
{
    let start = stripe_start_y(sub_y, s);
    let rows = 64 >> sub_y;
    start + rows as i32 - 1
}

// Units along an extent, the unit of a stripe, of a column, and the column after a unit's last.
ghost use Rattle.std.specs.Prelude.{◌≡◌, ◌≤◌, ◌<◌};
ghost use Rattle.standard.specs.Stripes as defined;

// count_units_in_frame: a rest of half a unit or more is a unit of its own.
#[tactic(auto, unfolding(standard::specs::Stripes::units))]
pub fn units(extent: u32, size: u32) -> u32
    requires { (0 < size) × (size ≤ 256) × (extent ≤ 65535) }
    ensures { result ≡ defined.units extent size }
{
    ((extent + size / 2) / size).max(1)
}

// The unit that holds place x of an extent: the last one holds the rest.
#[tactic(auto, unfolding(standard::specs::Stripes::unit_col_of))]
pub fn unit_col(size: u32, width: u32, x: u32) -> u32
    requires { (0 < size) × (size ≤ 256) × (width ≤ 65535) }
    ensures { result ≡ defined.unit_col_of size width x }
{
    (x / size).min(units(width, size) - 1)
}

// The unit row of a stripe: that of luma row 64 s, though the stripe starts eight rows above it.
pub fn unit_row(sub_y: u32, size: u32, height: u32, s: u32) -> u32
    requires { (sub_y ≤ 1) × (s ≤ 65535) × (0 < size) × (size ≤ 256) × (height ≤ 65535) }
    ensures { result ≡ defined.unit_row_of sub_y size height s }
{
    let row = (64 * s) >> sub_y;
    unit_col(size, height, row)
}

// The column after the last of unit column c: the last one runs to the plane's edge.
pub fn right(size: u32, width: u32, c: u32) -> u32
    requires { (0 < size) × (size ≤ 256) × (width ≤ 65535) × (c ≤ 65535) }
    ensures { result ≡ defined.right size width c }
{
    if c + 1 == units(width, size) {
        width
    } else {
        (c + 1) * size
    }
}

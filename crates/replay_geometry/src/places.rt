// One record against the calls.
use records::record::{NoRecord, Record};
use standard::{Frame, Geometry};

// Plane, sub_x, sub_y, frame height, upscaled width, unit size. Depth and frame type are not looked at.
fn frame(record: &mut Record<'_>) -> Result<Frame, NoRecord> {
    let [plane, sub_x, sub_y, frame_height, upscaled_width, unit_size] = record.numbers::<6>()?;
    Ok(Frame {
        plane,
        sub_x,
        sub_y,
        depth: 8,
        frame_height,
        upscaled_width,
        unit_size,
        frame_type: 1,
    })
}

// Unit row, unit column, x, y, w, h, then stripe start, stripe end, last column, last row.
fn is_place(mut record: Record<'_>, g: Geometry) -> Result<bool, NoRecord> {
    let place = record.numbers::<6>()?;
    let ends = [
        record.signed()?,
        record.signed()?,
        record.signed()?,
        record.signed()?,
    ];
    Ok(
        place == [g.unit_row, g.unit_col, g.x, g.y, g.w, g.h]
            && ends
                == [
                    g.stripe_start_y,
                    g.stripe_end_y,
                    g.plane_end_x,
                    g.plane_end_y,
                ],
    )
}

// Unit rows, unit columns, stripes, rectangles.
fn is_counted(record: &mut Record<'_>, f: Frame) -> Result<bool, NoRecord> {
    let [unit_rows, unit_cols, stripes] = record.numbers::<3>()?;
    let rectangles = record.wide()?;
    match geometry::count(f) {
        Ok(c) => Ok(
            [c.unit_rows, c.unit_cols, c.stripes, c.rectangles]
                == [unit_rows, unit_cols, stripes, rectangles],
        ),
        Err(_) => Ok(false),
    }
}

// The index, then the rectangle.
fn is_placed(mut record: Record<'_>, f: Frame) -> Result<bool, NoRecord> {
    match geometry::rectangle(f, record.wide()?) {
        Ok(g) => is_place(record, g),
        Err(_) => Ok(false),
    }
}

// A record of 23 entries after its count.
pub(crate) fn is_rectangle(mut record: Record<'_>) -> Result<bool, NoRecord> {
    if record.number()? != 23 {
        return Ok(false);
    }
    let f = frame(&mut record)?;
    Ok(is_counted(&mut record, f)? && is_placed(record, f)?)
}

// Block row and column, then the block's place; 18 entries after the count.
pub(crate) fn is_block(mut record: Record<'_>) -> Result<bool, NoRecord> {
    if record.number()? != 18 {
        return Ok(false);
    }
    let f = frame(&mut record)?;
    let row = u32::from(record.entry()?);
    let col = u32::from(record.entry()?);
    match geometry::planes::tested(f) {
        Ok(d) => is_place(record, d.block(row, col)),
        Err(_) => Ok(false),
    }
}

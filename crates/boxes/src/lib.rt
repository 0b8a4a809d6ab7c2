// The box filter's arrays A and B, one row at a time, over a window that lies in a lent scratch.
#![tactic(auto)]

pub mod box_rows;
pub mod rows;
pub mod samples;
pub mod scale;
pub mod shares;
pub mod sums;
pub mod table;

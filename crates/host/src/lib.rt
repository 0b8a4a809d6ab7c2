// The C interface: each public call under its C name. An answer, an enum inside, becomes document 01's number and values in a C struct;
// nothing else is done here.
#![tactic(auto)]

pub mod sample_calls; // sample_calls.rt: cironetop_restore_sample
pub mod plane_calls; // plane_calls.rt: cironetop_restore_plane, cironetop_capture_edges
pub mod stripe_calls; // stripe_calls.rt: cironetop_restore_stripe
pub mod superres_calls; // superres_calls.rt: cironetop_upscale_plane
pub mod geometry_calls; // geometry_calls.rt: cironetop_count, cironetop_rectangle
pub mod answers; // answers.rt: answers as numbers

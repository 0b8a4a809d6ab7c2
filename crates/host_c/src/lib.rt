// The exports of the static library: each call of `host` under its C name, with the same clauses.
#![tactic(auto)]

mod sample_calls; // sample_calls.rt: cironetop_restore_sample
mod plane_calls; // plane_calls.rt: cironetop_restore_plane, cironetop_capture_edges
mod stripe_calls; // stripe_calls.rt: cironetop_restore_stripe
mod superres_calls; // superres_calls.rt: cironetop_upscale_plane
mod geometry_calls; // geometry_calls.rt: cironetop_count, cironetop_rectangle

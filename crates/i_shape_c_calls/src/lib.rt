//! The calls for C. Each calls a function of `i_shape_c`.
#![tactic(auto)]

mod calls;
mod offsets;
mod version;

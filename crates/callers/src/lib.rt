//! Callers of the library. Each is proved from the contracts of its public calls and from lemmas that the function or
//! its proof names.
#![tactic(auto)]

// These take points from anywhere: they test the safe range first, and then make one or more calls.
pub mod at_i64;
pub mod buffer;
pub mod chain;
pub mod first;
pub mod into;
pub mod names;
pub mod refusal;

// These are layers over the library, with a condition on the points or the resource.
pub mod consumer;
pub mod copies;
pub mod corners;
pub mod pipeline;
pub mod polygons;
pub mod store;

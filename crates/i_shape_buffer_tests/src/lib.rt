//! Tests of the flat buffers, and of the resources that lend paths.
#![tactic(auto)]

#[cfg(test)]
mod buffer;
#[cfg(test)]
mod generic_buffer;
#[cfg(test)]
mod resource;

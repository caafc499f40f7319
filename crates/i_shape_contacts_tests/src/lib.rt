//! Tests of contacts, and of polygons whose rings may touch.
#![tactic(auto)]

#[cfg(test)]
mod contacts;
#[cfg(test)]
mod touching;

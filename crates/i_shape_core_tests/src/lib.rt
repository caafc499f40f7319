//! Tests of one contour: its measures, its turns, its cleaners over a small grid, and the search for its least rotation.
#![tactic(auto)]

#[cfg(test)]
mod comparisons;
#[cfg(test)]
mod contour;
#[cfg(test)]
mod laws;
#[cfg(test)]
mod probe;
#[cfg(test)]
mod small_grid;

//! Tests of contours as users call them: worked ones, areas, and macros.
#![tactic(auto)]

#[cfg(test)]
mod area;
#[cfg(test)]
mod macros;
#[cfg(test)]
mod worked;

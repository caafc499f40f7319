//! Tests of the callers, of the cleaners by their one trait, of forms and of `Debug` texts.
#![tactic(auto)]

#[cfg(test)]
mod calling;
#[cfg(test)]
mod cleaners;
#[cfg(test)]
mod debug;
#[cfg(test)]
mod forms;

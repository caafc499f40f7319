//! Calls whose growths fail one by one. A test makes one call after another, and prints `NAME begins` before each and
//! `NAME done` or `NAME refused` after it; if setup runs out of memory, the test ends. If no growth fails, each call is
//! done. A call that fails leaves its argument unchanged. A cleaner that is used again after a failure returns what it
//! does without one. A call that can do without memory prints `NAME answered` either way.
#![tactic(auto)]

#[cfg(test)]
mod cleaners;
#[cfg(test)]
mod contacts;
#[cfg(test)]
mod flat_buffers;
#[cfg(test)]
mod flat_calls;
#[cfg(test)]
mod given;
#[cfg(test)]
mod measures;
#[cfg(test)]
mod program;
#[cfg(test)]
mod shapes;
#[cfg(test)]
mod spots;
#[cfg(test)]
mod told;
#[cfg(test)]
mod values;
#[cfg(test)]
mod written;

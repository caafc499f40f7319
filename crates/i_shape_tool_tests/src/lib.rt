//! Tests of the program's results and messages, over readers and writers in memory, and of shapes and lists, which it
//! cleans through a buffer.
#![tactic(auto)]

#[cfg(test)]
mod answered;
#[cfg(test)]
mod broken;
#[cfg(test)]
mod faulty;
#[cfg(test)]
mod given;
#[cfg(test)]
mod shapes;

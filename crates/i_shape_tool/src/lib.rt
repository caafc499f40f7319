//! The program: cleans and measures the contours of a text. Also cleans shapes through a flat buffer.
#![tactic(auto)]

mod answer;
mod buffers;
mod command;
mod compact;
mod decimal;
mod fault;
pub mod laws;
mod line;
mod number;
mod program;
mod show;
mod text;

pub use buffers::{clean_through_buffer, despike_through_buffer};
pub use command::Command;
pub use fault::ToolFault;
pub use program::{Complaint, serve};
pub use text::run;

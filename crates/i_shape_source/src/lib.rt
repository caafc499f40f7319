//! Borrowed paths of points: the resources that lend paths one by one, and the nested lists that are resources.
#![tactic(auto)]

pub mod float;
pub mod int;
pub mod iterators;

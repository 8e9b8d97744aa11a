// The rows of views, worked out on frame bytes.
#![tactic(auto)]

pub mod combination;
pub mod ends;
pub mod evaluation;
pub mod grouping;
pub mod reading;
pub mod selection;
pub mod sets;

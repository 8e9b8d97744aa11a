// Values and truths, and all signed machine arithmetic. No other crate looks inside a value.
#![tactic(auto)]

pub mod accumulator;
pub mod boolean;
pub mod datum;
pub mod domain;
pub mod integer;
pub mod operator;

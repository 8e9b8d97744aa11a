// From frames to a checked file.
#![tactic(auto)]

pub mod entries;
pub mod fields;
pub mod fixed;
pub mod plan;
pub mod state;
pub mod step;
pub mod view_bytes;
pub mod view_rules;

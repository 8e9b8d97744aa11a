// A checked file in memory: its packed frames, what is known of each relation, and what is read of them.
#![tactic(auto)]

pub mod frames;
pub mod items;
pub mod kind;
pub mod outline;
pub mod plan;
pub mod relation;
pub mod source;

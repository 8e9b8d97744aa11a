// Whether a database that stands in the work area is a case of a checked file.
#![tactic(auto)]

pub mod judgement;
pub mod needs;
pub mod relation;
pub mod validity;

// A checked file.
use super::outline::Outline;
use super::relation::Relation;
use text;

#[derive(Clone, Copy)]
pub struct Goal {
    pub view: u8,
    pub negative: bool,
}

// The packed frames of a file, what is known of each relation, the goal and the number of candidates.
#[derive(Drop)]
pub struct Plan {
    pub bytes: [u8; text::ROOM],
    pub relations: [Relation; 16],
    pub outline: Outline,
    pub goal: Goal,
    pub candidates: u64,
}

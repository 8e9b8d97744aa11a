// Where a file stands in memory.
ghost use Rattle.std.specs.Prelude.{◌≡◌};
ghost use Rattle.catalog.specs.FileIn.{TablesCounted};
ghost use Rattle.catalog.specs.Frames.{frame_in};

use super::outline::Outline;
use super::relation::Relation;
use super::{frames, outline};

// The packed bytes of its frames, what is known of each relation, and the outline.
#[derive(Clone, Copy)]
pub struct Source<'a> {
    pub bytes: &'a [u8],
    pub relations: &'a [Relation],
    pub outline: Outline,
}

impl<'a> Source<'a> {
    // The frame of a relation.
    // Refused: the first relation's; that of half its number.
    pub fn frame(&self, r: u8) -> &'a [u8]
        ensures { result.now ≡ frame_in self.now.bytes.now self.now.relations.now r }
    {
        frames::frame_of(self.bytes, self.relations, r)
    }

    // The tables' numbers of rows, each at its relation's place.
    // Refused: the views' among them; those of as many relations as there are keys.
    pub fn count_tables(&self, counts: &mut [u8])
        ensures { TablesCounted self.now.relations.now self.now.outline.tables counts.old counts.new }
    {
        outline::count_tables(self.relations, self.outline.tables, counts)
    }
}

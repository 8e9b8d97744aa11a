// What the evaluation of candidates needs of a file beside its relations, worked out once.
ghost use Rattle.catalog.specs.FileIn.{SomeRow, TablesCounted};

use super::relation;
use super::relation::Relation;

// Counts; `foreign` is the place of the first foreign key's frame, and `filled` says that some table has a row.
#[derive(Clone, Copy)]
pub struct Outline {
    pub tables: u8,
    pub keys: u8,
    pub relations: u8,
    pub foreign: usize,
    pub filled: bool,
}

// Whether some table has a row.
// Refused: always; whether the first table has one.
pub fn some_row(relations: &[Relation], tables: u8) -> bool
    ensures { SomeRow relations.now tables result }
{
    for t in 0..tables {
        if 0 < relation::bound_of(relations, t) {
            return true;
        }
    }
    false
}

// The tables' numbers of rows, each at its relation's place.
// Refused: the first table's number for each; the number of tables for each.
pub fn count_tables(relations: &[Relation], tables: u8, counts: &mut [u8])
    ensures { TablesCounted relations.now tables counts.old counts.new }
{
    for t in 0..tables {
        slice::put_item(counts, t as usize, relation::bound_of(relations, t));
    }
}

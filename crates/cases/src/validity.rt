// Whether a database is valid: primary keys and foreign keys. Its values lie in their columns' ranges as a candidate's do. Every answer is an
// equation on all inputs: nothing is open.
ghost use Rattle.std.specs.Prelude.{◌≡◌};
ghost use Rattle.catalog.specs.FileIn.{source_in};
ghost use Rattle.cases.specs.Validity.{table_in, differ_in, differs_from_earlier_in, key_in, keys_in, agrees_in, has_parent_in, foreign_key_in, foreign_keys_in, IsValid};

use catalog::frames::KeyParts;
use catalog::relation::Relation;
use catalog::source::Source;
use catalog::{frames, relation};

// A table in the work area: how many rows and columns it has, and its key mask.
#[derive(Clone, Copy)]
struct Table {
    number: u8,
    rows: u8,
    width: u8,
    mask: u8,
}

impl Table {
    fn of(relations: &[Relation], counts: &[u8], number: u8) -> Table
        ensures { result ≡ table_in relations.now counts.now number }
    {
        Table {
            number: number,
            rows: slice::item_at(counts, number as usize, 0),
            width: relation::width_of(relations, number),
            mask: relation::mask_of(relations, number),
        }
    }

    // Whether two rows differ in some column of the key. A loop: the mask is halved from column to column, since
    // the width is arbitrary and a shift by 8 or more would fail.
    fn differ(&self, work: &[i32], i: u8, j: u8) -> bool
        ensures { result ≡ differ_in work.now self.now.number i j self.now.width self.now.mask }
    {
        let table = self.number as usize;
        let mut left = self.mask;
        for c in 0..self.width {
            let x = store::cell(work, table, i as usize, c as usize);
            let y = store::cell(work, table, j as usize, c as usize);
            if left % 2 == 1 && x != y {
                return true;
            }
            left = left / 2;
        }
        false
    }

    // Whether row j differs from each row before it.
    fn differs_from_earlier(&self, work: &[i32], j: u8) -> bool
        ensures { result ≡ differs_from_earlier_in work.now self.now.number j self.now.width self.now.mask }
    {
        (0..j).all(|i| self.differ(work, i, j))
    }

    // Whether each two rows differ in some column of the key, if there is one.
    fn key_holds(&self, work: &[i32]) -> bool
        ensures { result ≡ key_in work.now self.now.number self.now.rows self.now.width self.now.mask }
    {
        self.mask == 0 || (0..self.rows).all(|j| self.differs_from_earlier(work, j))
    }
}

// Whether the key of each table holds.
// Refused: the first table's key for each; the first table's columns for each.
fn keys_hold(relations: &[Relation], counts: &[u8], work: &[i32], tables: u8) -> bool
    ensures { result ≡ keys_in relations.now counts.now work.now tables }
{
    (0..tables).all(|t| Table::of(relations, counts, t).key_holds(work))
}

// A foreign key: its frame, and the parts of it.
#[derive(Clone, Copy)]
struct Key<'a> {
    frame: &'a [u8],
    parts: KeyParts,
}

impl<'a> Key<'a> {
    // Whether row j of the parent agrees with row i of the child on all pairs of columns; false where the frame ends before a pair.
    // A loop: `next` runs on with the pairs, since of arbitrary parts the place of pair p could lie past the largest number.
    fn agrees(&self, work: &[i32], i: u8, j: u8) -> bool
        ensures { result ≡ agrees_in self.now.frame.now self.now.parts work.now i j }
    {
        let frame = self.frame;
        let key = self.parts;
        let mut next = key.pairs;
        for _p in 0..key.count {
            if frame.len() <= next {
                return false;
            }
            let a = slice::item_at(frame, next, 0) as usize;
            let b = slice::item_at(frame, next + 1, 0) as usize;
            let x = store::cell(work, key.child as usize, i as usize, a);
            let y = store::cell(work, key.parent as usize, j as usize, b);
            if x != y {
                return false;
            }
            next = next + 2;
        }
        true
    }

    // Whether one of the parent's rows agrees with row i of the child.
    fn has_parent(&self, work: &[i32], i: u8, rows: u8) -> bool
        ensures { result ≡ has_parent_in self.now.frame.now self.now.parts work.now rows i }
    {
        (0..rows).any(|j| self.agrees(work, i, j))
    }
}

// Whether each child row of the foreign key of this frame has a parent row.
fn foreign_key_holds(frame: &[u8], counts: &[u8], work: &[i32]) -> bool
    ensures { result ≡ foreign_key_in frame.now counts.now work.now }
{
    let parts = frames::key_parts(frame);
    let key = Key { frame, parts };
    let children = slice::item_at(counts, parts.child as usize, 0);
    let parents = slice::item_at(counts, parts.parent as usize, 0);
    (0..children).all(|i| key.has_parent(work, i, parents))
}

// Whether each of `keys` foreign keys holds; their frames stand at `at`, each behind its length. False where the bytes end before a frame.
// A loop: each frame tells where the next one stands.
// Refused: the first key alone; a frame's length left out of what is passed; keys behind the end of the bytes.
fn foreign_keys_hold(bytes: &[u8], at: usize, keys: u8, counts: &[u8], work: &[i32]) -> bool
    ensures { result ≡ foreign_keys_in bytes.now at keys counts.now work.now }
{
    let mut next = at;
    for _k in 0..keys {
        if bytes.len() <= next {
            return false;
        }
        let frame = frames::frame_at(bytes, next);
        if !foreign_key_holds(frame, counts, work) {
            return false;
        }
        next = next + 1 + frame.len();
    }
    true
}

// Whether each key and each foreign key holds: an equation on any input. What it means is said of a file and a database of it: whether the
// database is valid.
// Refused: primary keys alone; foreign keys alone.
pub fn is_valid(source: &Source, counts: &[u8], work: &[i32]) -> bool
    ensures { IsValid (source_in source.now) counts.now work.now result }
{
    keys_hold(source.relations, counts, work, source.outline.tables)
        && foreign_keys_hold(
            source.bytes,
            source.outline.foreign,
            source.outline.keys,
            counts,
            work,
        )
}

// What is known of each relation, a table or a view: its numbers of columns and rows, its key, the place of its frame and the ranges of its
// columns.
ghost use Rattle.std.specs.Prelude.{◌≡◌};
ghost use Rattle.value.specs.Machine.{column_of};
ghost use Rattle.catalog.specs.Relations.{width_at, bound_at, mask_at, start_at, range_at, column_at, no_relation, range_of, put_start};

use range::Range;
use value::domain::Domain;
use value::integer;

// A view has no key: its mask is 0.
#[derive(Clone, Copy)]
pub struct Relation {
    pub width: u8,
    pub bound: u8,
    pub mask: u8,
    pub start: usize,
    pub ranges: [Range; 8],
}

impl Relation {
    // A relation without columns and rows, which stands past the last one too.
    // Refused: one column; one row.
    pub fn none() -> Relation
        ensures { result ≡ no_relation }
    {
        Relation {
            width: 0,
            bound: 0,
            mask: 0,
            start: 0,
            ranges: [Range { lo: 0, hi: 0 }; 8],
        }
    }

    // The range of a column; 0 to 0 at or past the number of columns.
    // Refused: that of the first column; 0 to 1 past the columns.
    pub fn range(&self, c: u8) -> Range
        ensures { result ≡ range_of self.now c }
    {
        if self.width <= c {
            return Range { lo: 0, hi: 0 };
        }
        let ranges = &self.ranges;
        slice::item_at(ranges, c as usize, Range { lo: 0, hi: 0 })
    }
}

// The number of columns of a relation.
// Refused: the key mask; the row bound.
pub fn width_of(relations: &[Relation], r: u8) -> u8
    ensures { result ≡ width_at relations.now r }
{
    let at = r as usize;
    if at < relations.len() {
        relations[at].width
    } else {
        0
    }
}

// Its row bound.
// Refused: the number of columns; the key mask.
pub fn bound_of(relations: &[Relation], r: u8) -> u8
    ensures { result ≡ bound_at relations.now r }
{
    let at = r as usize;
    if at < relations.len() {
        relations[at].bound
    } else {
        0
    }
}

// Its key mask.
// Refused: the row bound; that of the first relation.
pub fn mask_of(relations: &[Relation], r: u8) -> u8
    ensures { result ≡ mask_at relations.now r }
{
    let at = r as usize;
    if at < relations.len() {
        relations[at].mask
    } else {
        0
    }
}

// The place of its frame, the frame's length first.
// Refused: that of the first relation; the key mask; its low byte alone; the key mask as its high byte.
pub(crate) fn start_of(relations: &[Relation], r: u8) -> usize
    ensures { result ≡ start_at relations.now r }
{
    let place = r as usize;
    if place < relations.len() {
        relations[place].start
    } else {
        0
    }
}

// The range of a column; 0 to 0 at or past the number of columns.
// Refused: 0 to 1 past the relations; that of the first relation; lo for hi.
pub fn range_at(relations: &[Relation], r: u8, c: u8) -> Range
    ensures { result ≡ range_at relations.now r c }
{
    let at = r as usize;
    if at < relations.len() {
        relations[at].range(c)
    } else {
        Range { lo: 0, hi: 0 }
    }
}

// The column of a table.
// Refused: hi for lo; that of the first column.
pub fn domain_of(relations: &[Relation], r: u8, c: u8) -> Domain
    ensures { column_of result ≡ column_at relations.now r c }
{
    let range = range_at(relations, r, c);
    Domain {
        lo: integer::narrow16(range.lo),
        hi: integer::narrow16(range.hi),
    }
}

// The frame of a relation stands at another place.
// Refused: at place 0; the first relation's; the low byte twice; the low byte as key mask.
pub fn put_start(relations: &mut [Relation], r: u8, start: usize)
    ensures { relations.new ≡ put_start relations.old r start }
{
    let at = r as usize;
    if at < relations.len() {
        relations[at].start = start;
    }
}

// The relation that a frame without fault adds, and the number of candidates.
ghost use Rattle.std.specs.Prelude.{◌≡◌, ◌+◌, ◌*◌, ◌≤◌, min};
ghost use Rattle.value.specs.Machine.{column_of};
ghost use Rattle.meaning.specs.Bounds.{set_bound};
ghost use Rattle.catalog.specs.Relations.{width_at, bound_at};
ghost use Rattle.checker.specs.Entries.{column_from, column_in, hull_at, joined_with, RangesBy, TableOf, SetOf};
ghost use Rattle.catalog.specs.Kinds.{operation_of};
ghost use Rattle.checker.specs.CandidateCount.{too_many, capped_product, columns_from, table_cells, CandidatesOf};

use catalog::frames::{COLUMNS, SetParts};
use catalog::kind::SetOperation;
use catalog::relation::Relation;
use catalog::{frames, relation};
use range::Range;
use slice::item_at;
use value::domain::Domain;
use value::integer;

// The largest number of candidates that a file may have, 2^24.
pub const CANDIDATE_LIMIT: u64 = 16777216;

// The first number that is too large: products are cut off there.
const TOO_MANY: u64 = CANDIDATE_LIMIT + 1;

// The column whose four bytes stand at a place.
fn domain_at(bytes: &[u8], at: usize) -> Domain
    requires { at ≤ 1024 }
    ensures { column_of result ≡ column_from bytes.now at }
{
    let lo = integer::from_bytes(item_at(bytes, at, 0), item_at(bytes, at + 1, 0));
    let hi = integer::from_bytes(item_at(bytes, at + 2, 0), item_at(bytes, at + 3, 0));
    Domain { lo: lo, hi: hi }
}

// Column c of a table's frame.
fn column_in(frame: &[u8], c: u8) -> Range
    ensures { result ≡ column_in frame.now c }
{
    let column = domain_at(frame, 4 * (c as usize) + COLUMNS);
    Range::column(column.lo, column.hi)
}

// The ranges of the first n columns, of at most eight.
fn ranges_by<F: Fn(u8) -> Range>(n: u8, range: F) -> [Range; 8]
    requires { F.IsAlwaysCallable range }
    ensures { RangesBy (F.post range) n result }
{
    let mut ranges = [Range { lo: 0, hi: 0 }; 8];
    for c in 0..n {
        slice::put_item(&mut ranges, c as usize, range(c));
    }
    ranges
}

// The table of a frame without fault.
// Refused: the number of columns as row bound; the first column's range for each.
pub(crate) fn table_of(frame: &[u8]) -> Relation
    ensures { TableOf frame.now result }
{
    let parts = frames::table_parts(frame);
    let ranges = ranges_by(parts.width, |c| column_in(frame, c));
    Relation {
        width: parts.width,
        bound: parts.rows,
        mask: parts.mask,
        start: 0, // its place comes when all frames are read
        ranges,
    }
}

// The row bound of a union or an intersection of relations with the row bounds a and b, at most 255.
fn joined_bound(operation: SetOperation, a: u8, b: u8) -> u8
    ensures { result ≡ min (set_bound (operation_of operation) a b) 255 }
{
    match operation {
        SetOperation::Union => a.saturating_add(b),
        SetOperation::Intersection => a.min(b),
    }
}

// The row bound of a union or an intersection of two relations, at most 255.
// Refused: the left's row bound twice; the right's twice.
pub(crate) fn set_bound(operation: SetOperation, relations: &[Relation], left: u8, right: u8) -> u8
    ensures { result ≡ min (set_bound (operation_of operation) (bound_at relations.now left) (bound_at relations.now right)) 255 }
{
    let a = relation::bound_of(relations, left);
    let b = relation::bound_of(relations, right);
    joined_bound(operation, a, b)
}

// Whose ranges join the left's in hulls: an intersection keeps the left's, and the hull of a range with itself is that range.
fn joined_with(operation: SetOperation, left: u8, right: u8) -> u8
    ensures { result ≡ joined_with (operation_of operation) left right }
{
    match operation {
        SetOperation::Union => right,
        SetOperation::Intersection => left,
    }
}

// The hull of a column of two relations.
fn hull_at(relations: &[Relation], left: u8, right: u8, c: u8) -> Range
    ensures { result ≡ hull_at relations.now left right c }
{
    relation::range_at(relations, left, c).hull(relation::range_at(relations, right, c))
}

// A set view: the columns of the narrower, for the fault of unequal widths is found elsewhere.
// Refused: the left's row bound twice; hulls for an intersection.
pub(crate) fn set_of(
    operation: SetOperation,
    operands: SetParts,
    relations: &[Relation],
) -> Relation
    ensures { SetOf (operation_of operation) operands.left operands.right relations.now result }
{
    let left = operands.left;
    let right = operands.right;
    let other = joined_with(operation, left, right);
    let width = relation::width_of(relations, left).min(relation::width_of(relations, other));
    let ranges = ranges_by(width, |c| hull_at(relations, left, other, c));
    Relation {
        width,
        bound: set_bound(operation, relations, left, right),
        mask: 0,
        start: 0,
        ranges,
    }
}

// The product, or TOO_MANY where it is larger. It saturates, so a product that is too large stays too large; an Option would need more laws.
fn capped(n: u64, m: u32) -> u64
    requires { n ≤ too_many }
    ensures { result ≡ min (n * m) too_many }
{
    let p = n * (m as u64);
    p.min(TOO_MANY)
}

// n times the sizes of the columns of a table.
fn times_row(relations: &[Relation], t: u8, n: u64) -> u64
    requires { n ≤ too_many }
    ensures { (result ≡ capped_product n (columns_from relations.now t 0 (width_at relations.now t))) × (result ≤ too_many) }
{
    let width = relation::width_of(relations, t);
    let mut p = n;
    for c in 0..width {
        p = capped(p, relation::domain_of(relations, t, c).size());
    }
    p
}

// n times the sizes of a table's cells.
fn times_table(relations: &[Relation], t: u8, n: u64) -> u64
    requires { n ≤ too_many }
    ensures { (result ≡ capped_product n (table_cells relations.now t)) × (result ≤ too_many) }
{
    let rows = relation::bound_of(relations, t);
    let mut p = n;
    for _ in 0..rows {
        p = times_row(relations, t, p);
    }
    p
}

// The number of candidates of a file's tables, the first relations, if it is not too large.
// Refused: 0 with no cells; the first table counted for each.
pub(crate) fn candidates_of(relations: &[Relation], tables: u8) -> Option<u64>
    ensures { CandidatesOf relations.now tables result }
{
    let mut p: u64 = 1;
    for t in 0..tables {
        p = times_table(relations, t, p);
    }
    if p <= CANDIDATE_LIMIT { Some(p) } else { None }
}

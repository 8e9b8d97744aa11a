// Relations in the lent work area. Only this crate knows how their rows lie.
#![tactic(auto)]

ghost use Rattle.std.specs.Prelude.{◌≡◌, IsTrue, ℕ, ◌≤◌, ◌<◌, length};
ghost use Rattle.value.specs.Machine.{value_of};
ghost use Rattle.meaning.specs.Evaluation.{missing};
ghost use Rattle.store.specs.Layout.{relation_limit, row_limit, column_limit, area, inside as inside_b, position as position_n, cell_in, put_cell};
ghost use Rattle.store.specs.Rows.{listed, put_cells, room as room_b, put_row, row_of, with_value};

use value::datum::Datum;

// The work area has a stretch for each relation: its rows, and 64 numbers kept free.
const RELATIONS: usize = 16;

const ROWS: usize = 64;

const COLUMNS: usize = 8;

const STRETCH: usize = ROWS * COLUMNS + 64;

const AREA: usize = RELATIONS * STRETCH;

// A row by value.
#[derive(Clone, Copy)]
pub struct Row {
    pub values: [Datum; 8],
}

// Refused: 1 in each column; 2.
pub fn empty_row() -> Row
    ensures { (w : ℕ) → row_of result w ≡ listed (λ _. missing) w }
{
    let zero = Datum::from_work(0);
    let values = [zero; 8];
    Row { values }
}

// The row with v at column c; past the last column the row as it is.
// Refused: only column 0 changes; column 7 does not.
pub fn with_value(row: Row, c: usize, v: Datum) -> Row
    ensures { (w : ℕ) → row_of result w ≡ with_value (row_of row w) c (value_of v) }
{
    if COLUMNS <= c {
        return row;
    }
    let mut values = row.values;
    values[c] = v;
    Row { values }
}

#[tactic(auto, unfolding(crate::specs::Strides::inside))]
fn inside(relation: usize, row: usize, column: usize) -> bool
    ensures told { result ≡ inside_b relation row column }
    ensures limits { IsTrue result → (relation < relation_limit) × (row < row_limit) × (column < column_limit) }
{
    relation < RELATIONS && (row < ROWS && column < COLUMNS)
}

#[tactic(auto, unfolding(crate::specs::Strides::position))]
fn position(relation: usize, row: usize, column: usize) -> usize
    requires { (relation < relation_limit) × (row < row_limit) × (column < column_limit) }
    ensures { result ≡ position_n relation row column }
{
    STRETCH * relation + (COLUMNS * row + column)
}

// A cell of the work area; 0 where there is none.
// Refused: that of relation 0; of column 0.
pub fn cell(work: &[i32], relation: usize, row: usize, column: usize) -> Datum
    ensures { value_of result ≡ cell_in work.now relation row column }
{
    if !inside(relation, row, column) {
        return Datum::from_work(0);
    }
    let at = position(relation, row, column);
    if work.len() <= at {
        return Datum::from_work(0);
    }
    Datum::from_work(work[at])
}

// One cell of the work area becomes v; nothing is written where there is none.
// Refused: that of relation 0; of column 0.
pub fn put_cell(work: &mut [i32], relation: usize, row: usize, column: usize, v: Datum)
    ensures { work.new ≡ put_cell work.old relation row column (value_of v) }
{
    if !inside(relation, row, column) {
        return;
    }
    let place = position(relation, row, column);
    if work.len() <= place {
        return;
    }
    work[place] = v.stored();
}

// The row's first cells go into a part that starts at its relation's place: the part's relation 0.
fn put_row(part: &mut [i32], at: usize, width: usize, row: Row)
    requires { width ≤ column_limit }
    ensures { part.new ≡ put_cells part.old 0 at width (row_of row width) }
{
    let values = row.values;
    for c in 0..width {
        put_cell(part, 0, at, c, values[c]);
    }
}

#[tactic(auto, unfolding(crate::specs::Strides::room))]
fn room(work: &[i32], relation: usize, at: usize, width: usize) -> bool
    ensures told { result ≡ room_b work.now relation at width }
    ensures limits { IsTrue result → (relation < relation_limit) × (at < row_limit) × (width ≤ column_limit) × (area ≤ length work.now) }
{
    relation < RELATIONS && (at < ROWS && (width <= COLUMNS && AREA <= work.len()))
}

// Row `at` of the relation becomes the row's first `width` values; nothing is written where the area has no room for them.
// Refused: relations 512 numbers apart; row 0 always.
pub fn put(work: &mut [i32], relation: usize, at: usize, width: usize, row: Row)
    ensures { work.new ≡ put_row work.old relation at width (row_of row width) }
{
    if !room(work, relation, at, width) {
        return;
    }
    let place = STRETCH * relation;
    put_row(&mut work[place..], at, width, row);
}

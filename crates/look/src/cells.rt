// The cells of the tables in the order of a candidate's digits.
ghost use Rattle.std.specs.Prelude.{◌≡◌, ◌≤◌, take};
ghost use Rattle.look.specs.Cells.{RowAdded, TableAdded, CellsOf};

use catalog::relation;
use catalog::relation::Relation;

#[derive(Clone, Copy)]
pub struct Cell {
    pub table: u8,
    pub row: u8,
    pub column: u8,
}

// A row's cells, behind n cells. The number of cells then.
fn add_row(table: u8, row: u8, columns: u8, n: u32, cells: &mut [Cell]) -> u32
    requires { n ≤ 33000000 }
    ensures { RowAdded table row columns n cells.old result cells.new }
{
    for column in 0..columns {
        let at = (n as usize) + (column as usize);
        slice::put_item(cells, at, Cell { table, row, column });
    }
    n + (columns as u32)
}

// A table's cells, behind n cells. The number of cells then.
fn add_table(table: u8, rows: u8, columns: u8, n: u32, cells: &mut [Cell]) -> u32
    requires { n ≤ 16600000 }
    ensures { TableAdded table rows columns n cells.old result cells.new }
{
    let mut all = n;
    for row in 0..rows {
        all = add_row(table, row, columns, all, cells);
    }
    all
}

// All cells, and their number. Relations that are of no file may say more cells than there is room for.
// Refused: the first table left out; columns for rows.
pub(crate) fn cells_of(relations: &[Relation], tables: u8, cells: &mut [Cell]) -> u32
    ensures { CellsOf relations.now tables cells.old result cells.new }
{
    let mut all: u32 = 0;
    for t in 0..tables {
        let rows = relation::bound_of(relations, t);
        let columns = relation::width_of(relations, t);
        all = add_table(t, rows, columns, all, cells);
    }
    all
}

// The first n of them.
// Refused: one less; one more.
pub(crate) fn first(cells: &[Cell], n: u32) -> &[Cell]
    ensures { result.now ≡ take n cells.now }
{
    let n = n as usize;
    if n < cells.len() { &cells[..n] } else { cells }
}

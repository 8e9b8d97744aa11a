// From candidate to candidate: the cells of the tables in the work area.
ghost use Rattle.look.specs.Moves.{places_in, DigitPut, TakesRow, CandidatePut, Moved};

use super::cells::Cell;
use catalog::relation;
use catalog::relation::Relation;
use store;
use store::Row;

// What is left of two candidate numbers before the digits that are done.
#[derive(Clone, Copy)]
struct Quotients {
    old: u64,
    new: u64,
}

// A row by value, and what is left of a candidate number before its digits.
#[derive(Clone, Copy)]
struct TakenRow {
    row: Row,
    left: u64,
}

// The cells of the tables, and the relations that say the column of each.
#[derive(Clone, Copy)]
pub(crate) struct Places<'a> {
    pub(crate) relations: &'a [Relation],
    pub(crate) cells: &'a [Cell],
}

impl<'a> Places<'a> {
    // A cell takes the last digit of the new quotient; both quotients go on without it.
    fn put_digit(&self, cell: Cell, q: Quotients, work: &mut [i32]) -> Quotients
        ensures { DigitPut self.now.relations.now cell q work.old result work.new }
    {
        let d = relation::domain_of(self.relations, cell.table, cell.column);
        let size = d.size() as u64;
        if size == 0 {
            return q;
        }
        let digit = (q.new % size) as u32;
        let relation = cell.table as usize;
        store::put_cell(
            work,
            relation,
            cell.row as usize,
            cell.column as usize,
            d.digit(digit),
        );
        Quotients {
            old: q.old / size,
            new: q.new / size,
        }
    }

    // The row of a table's first columns that the last digits of q give, from the last column back.
    fn take_row(&self, table: u8, width: u8, q: u64) -> TakenRow
        ensures { TakesRow self.now.relations.now table width q result }
    {
        let mut row = store::empty_row();
        let mut left = q;
        for c in (0..width).rev() {
            let d = relation::domain_of(self.relations, table, c);
            let size = d.size() as u64;
            if size == 0 {
                return TakenRow { row, left };
            }
            let digit = (left % size) as u32;
            row = store::with_value(row, c as usize, d.digit(digit));
            left = left / size;
        }
        TakenRow { row, left }
    }

    // The cells become those of candidate k, row by row from the last row back: the last cell tells the last row and its columns, and a turn
    // goes back by as many cells, so that the index is no counter. Cells that are of no file may end in less than a row, and it is not put.
    // Refused: those of candidate 0; rows of another relation.
    pub(crate) fn put_candidate(&self, k: u64, work: &mut [i32])
        ensures { CandidatePut (places_in self.now) k work.old work.new }
    {
        let mut left = k;
        let mut j = self.cells.len();
        while 0 < j {
            let cell = self.cells[j - 1];
            let width = cell.column.saturating_add(1);
            if j < (width as usize) {
                return;
            }
            let r = self.take_row(cell.table, width, left);
            store::put(
                work,
                cell.table as usize,
                cell.row as usize,
                width as usize,
                r.row,
            );
            left = r.left;
            j -= width as usize;
        }
    }

    // The cells go from candidate k to `next`: from the last cell back, up to where the leading digits are the same.
    // Refused: to candidate k; no cell where k and `next` differ.
    pub(crate) fn move_to(&self, k: u64, next: u64, work: &mut [i32])
        ensures { Moved (places_in self.now) k next work.old work.new }
    {
        let mut q = Quotients { old: k, new: next };
        for j in (0..self.cells.len()).rev() {
            if q.old == q.new {
                return;
            }
            q = self.put_digit(self.cells[j], q, work);
        }
    }
}

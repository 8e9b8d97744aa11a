// The rows of set views.
ghost use Rattle.std.specs.Prelude.{◌≡◌, ◌≤◌, ◌<◌};
ghost use Rattle.value.specs.Bag.{count};
ghost use Rattle.meaning.specs.Evaluation.{row_test};
ghost use Rattle.store.specs.Layout.{column_limit};
ghost use Rattle.store.specs.Rows.{row_in, rows_in, row_of};
ghost use Rattle.views.specs.Copies.{Copied, Union, Intersection};

use store;
use store::Row;
use value::boolean;

// The first rows of a relation.
#[derive(Clone, Copy)]
pub struct FirstRows {
    pub relation: u8,
    pub count: u8,
}

// The operands of a set view, and the left one's number of columns.
#[derive(Clone, Copy)]
pub struct Operands {
    pub left: FirstRows,
    pub right: FirstRows,
    pub width: u8,
}

// A row of a relation by value.
fn row_at(work: &[i32], relation: u8, i: u8, width: u8) -> Row
    ensures { width ≤ column_limit → row_of result width ≡ row_in work.now relation width i }
{
    let mut row = store::empty_row();
    for c in 0..width {
        let v = store::cell(work, relation as usize, i as usize, c as usize);
        row = store::with_value(row, c as usize, v);
    }
    row
}

// Whether two rows are the same.
fn same_rows(work: &[i32], a: u8, i: u8, b: u8, j: u8, width: u8) -> bool
    ensures { result ≡ row_test.same (row_in work.now a width i) (row_in work.now b width j) }
{
    (0..width).all(|c| {
        let x = store::cell(work, a as usize, i as usize, c as usize);
        let y = store::cell(work, b as usize, j as usize, c as usize);
        x == y
    })
}

impl FirstRows {
    // They go behind `at` rows of another relation.
    fn copy(self, work: &mut [i32], to: u8, at: u8, width: u8)
        ensures { Copied work.old self.relation self.count to at width work.new }
    {
        for i in 0..self.count {
            let row = row_at(work, self.relation, i, width);
            let place = (at as usize) + (i as usize);
            store::put(work, to as usize, place, width as usize, row);
        }
    }

    // How often row i of a relation is among them. A loop: by `filter` and `count` the candidates of `sets` take 2 in 100 instructions more.
    fn count_of(self, work: &[i32], relation: u8, i: u8, width: u8) -> u8
        ensures { result ≡ count row_test (row_in work.now relation width i) (rows_in work.now self.relation width self.count) }
    {
        let mut k: u8 = 0;
        for j in 0..self.count {
            let one = boolean::one_if(same_rows(work, relation, i, self.relation, j, width));
            k = k + one;
        }
        k
    }
}

impl Operands {
    // The left rows, and behind them the right ones. What the work area then holds is said of every input; which rows these are, where the
    // target is neither and has room for them, as a view of a file that was accepted is and has.
    // Refused: the right's rows for the left's; the right's rows over the left's.
    pub fn union(self, work: &mut [i32], to: u8)
        ensures { Union work.old self.left.relation self.left.count self.right.relation self.right.count to self.width work.new }
    {
        self.left.copy(work, to, 0, self.width);
        self.right.copy(work, to, self.left.count, self.width);
    }

    // The earliest of the left rows, each as often as in both, and their number, which is at most that of the left. Nothing is open, as of
    // `union`.
    // Refused: each row that the right has; a row once only, as in a set.
    pub fn intersection(self, work: &mut [i32], to: u8) -> u8
        ensures { Intersection work.old self.left.relation self.left.count self.right.relation self.right.count to self.width result work.new }
    {
        let left = self.left.relation;
        let width = self.width;
        let mut kept: u8 = 0;
        for i in 0..self.left.count {
            let earlier = FirstRows {
                count: i,
                ..self.left
            };
            let before = earlier.count_of(work, left, i, width);
            let there = self.right.count_of(work, left, i, width);
            if before < there {
                let row = row_at(work, left, i, width);
                store::put(work, to as usize, kept as usize, width as usize, row);
                kept += 1;
            }
        }
        kept
    }
}

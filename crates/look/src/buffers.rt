// The lent buffers after a look.
ghost use Rattle.std.specs.Prelude.{◌≡◌, ◌+◌, min, ◌≤◌, length};
ghost use Rattle.meaning.specs.Look.{zeros};
ghost use Rattle.look.specs.Buffers.{Shows};

use super::cells::Cell;
use store;

// The cells of the tables go to the front of the instance buffer.
// Refused: nothing written; the first cell in each place.
pub(crate) fn show(cells: &[Cell], work: &[i32], instance: &mut [i16])
    ensures { Shows cells.now (length cells.now) work.now instance.old instance.new }
{
    for j in 0..cells.len() {
        let cell = cells[j];
        let v = store::cell(
            work,
            cell.table as usize,
            cell.row as usize,
            cell.column as usize,
        );
        slice::put_item(instance, j, v.shown());
    }
}

// "After an accepted look the work area is all zero".
// Refused: 1 for 0; the first number left.
pub(crate) fn clear(work: &mut [i32])
    ensures { work.new ≡ zeros work.old }
{
    work.fill(0);
}

// "end = min(start + count, N)": the sum is never taken where it would be too large.
// Refused: the start; the start where N is due.
pub(crate) fn end_of(start: u64, count: u64, n: u64) -> u64
    ensures { result ≡ min (start + count) n }
{
    if n < start {
        return n;
    }
    if n - start < count { n } else { start + count }
}

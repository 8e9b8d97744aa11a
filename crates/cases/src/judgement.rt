// Whether the database whose tables stand in the work area is a case.
ghost use Rattle.catalog.specs.FileIn.{source_in};
ghost use Rattle.cases.specs.Judgement.{memory_from, SignNoted, RowsNoted, Evaluates, IsWanted, IsCase};

use super::needs::Needs;
use super::relation::Framed;
use super::validity;
use catalog::plan::Goal;
use catalog::relation::Relation;
use catalog::source::Source;
use value::boolean;

// Whether view v is negative, if it is asked.
// Refused: where it is not asked; by the first relation's flag.
fn note_sign(frame: &[u8], needs: &Needs, counts: &[u8], signs: &mut [u8], work: &mut [i32], v: u8)
    ensures { SignNoted frame.now needs.now
        (memory_from counts.now signs.old work.old) v signs.new work.new }
{
    if !slice::item_at(&needs.signs, v as usize, false) {
        return;
    }
    let framed = Framed {
        frame,
        counts,
        view: v,
    };
    let sign = framed.is_refuted(signs, work);
    slice::put_item(signs, v as usize, boolean::one_if(sign));
}

// The rows of view v, if they are needed, and their number.
// Refused: where they are not needed; the view's number for their number.
fn note_rows(
    frame: &[u8],
    relations: &[Relation],
    needs: &Needs,
    counts: &mut [u8],
    work: &mut [i32],
    v: u8,
)
    ensures { RowsNoted frame.now relations.now needs.now counts.old work.old v counts.new work.new }
{
    if !slice::item_at(&needs.rows, v as usize, false) {
        return;
    }
    let framed = Framed {
        frame,
        counts,
        view: v,
    };
    let n = framed.view_rows(relations, work);
    slice::put_item(counts, v as usize, n);
}

// The views whose rows are needed or whose sign is asked, from the first to the last. `counts` has the number of rows of each relation,
// at first of the tables; `signs` has 1 for a negative view, else 0. Which rows and signs there are is said of a file in memory and a database
// in the work area; which numbers may change, of every input. Nobody sees the rest: a plan is of a file, and what a search or a caller puts in
// the work area is a database of it. `counts`, `signs` and `work` are no struct: its slices could not be lent apart behind one `&mut`.
// Refused: the first frame for each; rows behind the last relation.
pub fn evaluate(
    source: &Source,
    needs: &Needs,
    counts: &mut [u8],
    signs: &mut [u8],
    work: &mut [i32],
)
    ensures { Evaluates (source_in source.now) needs.now
        (memory_from counts.old signs.old work.old)
        (memory_from counts.new signs.new work.new) }
{
    let outline = source.outline;
    for v in outline.tables..outline.relations {
        let frame = source.frame(v);
        note_sign(frame, needs, counts, signs, work, v);
        note_rows(frame, source.relations, needs, counts, work, v);
    }
}

// What is wanted of the goal: that it is negative, or that it has a row.
// Refused: its number of rows for its sign; a goal without rows.
pub fn wanted(goal: Goal, counts: &[u8], signs: &[u8]) -> bool
    ensures { IsWanted goal counts.now signs.now result }
{
    if goal.negative {
        return slice::item_at(signs, goal.view as usize, 0) == 1;
    }
    0 < slice::item_at(counts, goal.view as usize, 0)
}

// Whether the database in the work area is a case of the goal. Of any input: false where no table has a row or a key is broken, and nothing
// changes; else what `wanted` says of what `evaluate` leaves. That this is the case is said of a file in memory and a database of it.
// Refused: an empty database; a database that is not valid.
pub fn is_case(
    source: &Source,
    needs: &Needs,
    goal: Goal,
    counts: &mut [u8],
    signs: &mut [u8],
    work: &mut [i32],
) -> bool
    ensures { IsCase (source_in source.now) needs.now goal
        (memory_from counts.old signs.old work.old) result
        (memory_from counts.new signs.new work.new) }
{
    if !source.outline.filled {
        return false;
    }
    if !validity::is_valid(source, counts, work) {
        return false;
    }
    evaluate(source, needs, counts, signs, work);
    wanted(goal, counts, signs)
}

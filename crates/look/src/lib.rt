// A look at a rule file.
#![tactic(auto)]

pub mod buffers;
pub mod cells;
pub mod moves;
pub mod scan;

ghost use Rattle.std.specs.Prelude.{ℕ};
ghost use Rattle.look.specs.Scans.{search_in};
ghost use Rattle.look.specs.Looks.{LooksText, Concludes, Tells, Looked, Says, LooksAt};

use catalog::plan::Plan;
use catalog::source::Source;
use cells::Cell;
use checker::plan;
use scan::Search;
use text::refusal::{Reason, Refusal};

// The work area has at least this many numbers.
pub const AREA: usize = 9216;

// What stands for a cell where there is none.
const NO_CELL: Cell = Cell {
    table: 0,
    row: 0,
    column: 0,
};

// "case k", "no case" or "spent" with next.
#[derive(Clone, Copy)]
pub enum Answer {
    Case(u64),
    NoCase,
    Spent(u64),
}

// Without a case: no case at all where the search has come to the number of candidates.
fn concluded(end: u64, n: u64) -> Answer
    ensures { Concludes end n result }
{
    if end == n {
        return Answer::NoCase;
    }
    Answer::Spent(end)
}

// What a search tells: its case, whose cells are shown; else how far it has come.
fn told(search: &Search, n: u64, work: &mut [i32], instance: &mut [i16]) -> Answer
    ensures { Tells (search_in search.now) n work.old instance.old result work.new instance.new }
{
    let Some(k) = search.first(work) else {
        buffers::clear(work);
        return concluded(search.end, n);
    };
    buffers::show(search.cells, work, instance);
    buffers::clear(work);
    Answer::Case(k)
}

// A look at the plan of an accepted file.
fn looked(
    p: Plan,
    start: u64,
    count: u64,
    work: &mut [i32],
    instance: &mut [i16],
) -> Result<Answer, Refusal>
    ensures { Looked p start count work.old instance.old result work.new instance.new }
{
    let bytes = p.bytes;
    let relations = p.relations;
    let n = p.candidates;
    let mut all = [NO_CELL; 512];
    let number = cells::cells_of(&relations, p.outline.tables, &mut all);
    if instance.len() < (number as usize) {
        return Err(Reason::Instance.at(0));
    }
    if n < start {
        return Err(Reason::Start.at(0));
    }
    let end = buffers::end_of(start, count, n);
    let search = Search {
        source: Source {
            bytes: &bytes,
            relations: &relations,
            outline: p.outline,
        },
        cells: cells::first(&all, number),
        goal: p.goal,
        start,
        end,
    };
    Ok(told(&search, n, work, instance))
}

// A look at what the checker gives, or a caller with refusals of its own: 11 first, then the plan's own refusal, then 12 and 13. Which answer a
// plan that is of no legal file gets is left open but for 11: the checker gives no such plan. What the answer leaves in the buffers is said of
// every plan.
// Refused: every plan refused; 9,215 numbers as enough; 1 for each refusal of a plan; 11 at line 1; 13 for 12.
pub fn look_at<E: Copy + From<Refusal>>(
    plan: Result<Plan, E>,
    start: u64,
    count: u64,
    work: &mut [i32],
    instance: &mut [i16],
) -> Result<Answer, E>
    ensures { (says : E → ℕ × ℕ) → Says E.from_gives says → LooksAt says plan start count work.old instance.old result work.new instance.new }
{
    if work.len() < AREA {
        return Err(E::from(Reason::WorkArea.at(0)));
    }
    let answer = looked(plan?, start, count, work, instance)?;
    Ok(answer)
}

// A look: for every text, start, count and buffers, the answer and what the buffers then hold.
// Refused: a search from 0 for any start; start and count swapped.
pub fn look(
    text: &[u8],
    start: u64,
    count: u64,
    work: &mut [i32],
    instance: &mut [i16],
) -> Result<Answer, Refusal>
    ensures { LooksText text.now start count work.old instance.old result work.new instance.new }
{
    look_at(plan::check(text), start, count, work, instance)
}

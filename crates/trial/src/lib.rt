// For tests: one database of a text, evaluated.
#![tactic(auto)]

ghost use Rattle.language.specs.FileOf.{file_of};
ghost use Rattle.catalog.specs.FileIn.{source_in};
ghost use Rattle.trial.specs.Tried.{EveryRelation, Tried};

use cases::needs::Needs;
use cases::{judgement, needs};
use catalog::plan::Goal;
use catalog::source::Source;
use checker::plan;

// The work area and `counts` have at least this many entries.
const AREA: usize = 9216;

const RELATIONS: usize = 16;

// What is returned where they have fewer: refusal 11.
const SHORT: u32 = 11 * 65536;

// Whether the database is a case; then every relation is evaluated.
fn every_relation(source: &Source, goal: Goal, counts: &mut [u8], work: &mut [i32]) -> bool
    ensures { EveryRelation (source_in source.now) goal
        counts.old work.old result counts.new work.new }
{
    source.count_tables(counts);
    let needs = needs::needs_of(source, goal);
    let mut signs = [0u8; 16];
    let case = judgement::is_case(source, &needs, goal, counts, &mut signs, work);
    judgement::evaluate(source, &Needs::all(), counts, &mut signs, work);
    case
}

// The tables of the database stand in the work area, each row in its relation's stretch. For buffers that are too short and for a text that
// is refused, the number of the refusal in the upper 16 bits and the line in the lower; else 1 for a case and 0 for none. Then the work area
// has the rows of every relation, and `counts` their numbers.
// Refused: 2 for a case; 1 for none; 9,216 numbers as too few.
#[unsafe(no_mangle)]
pub extern "C" fn sakthveim_evaluate(text: &[u8], counts: &mut [u8], work: &mut [i32]) -> u32
    ensures { Tried (file_of text.now) counts.old work.old result counts.new work.new }
{
    if work.len() < AREA {
        return SHORT;
    }
    if counts.len() < RELATIONS {
        return SHORT;
    }
    let p = match plan::check(text) {
        Ok(plan) => plan,
        Err(refusal) => return refusal.packed(),
    };
    let bytes = p.bytes;
    let relations = p.relations;
    let source = Source {
        bytes: &bytes,
        relations: &relations,
        outline: p.outline,
    };
    if every_relation(&source, p.goal, counts, work) {
        1
    } else {
        0
    }
}

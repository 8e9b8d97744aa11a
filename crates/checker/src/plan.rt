// A text to the plan of its file, or to its refusal.
ghost use Rattle.std.specs.Prelude.{◌≡◌, ◌≤◌, length};
ghost use Rattle.language.specs.FileOf.{file_of};
ghost use Rattle.checker.specs.Plans.{Walks, start_from, frame_number, StartsPut, OutlineFrom, PlanFrom, Plans, PlansWhole};

use super::state::{Progress, Stage};
use super::{entries, step};
use catalog::outline::Outline;
use catalog::plan::{Goal, Plan};
use catalog::relation::Relation;
use catalog::{frames, outline, relation};
use text;
use text::refusal::{Reason, Refusal};

// The frames of packed bytes, in turn. The loop counts by hand, for a turn goes on by the length of a frame.
fn walk(packed: &[u8], relations: &mut [Relation]) -> Result<Progress, Refusal>
    requires { length packed.now ≤ 5462 }
    ensures { Walks packed.now relations.old result relations.new }
{
    let mut s = Progress::start();
    let mut at = 0;
    let mut line: u16 = 0;
    while at < packed.len() {
        line = line + 1;
        let frame = frames::frame_at(packed, at);
        s = match step::frame_step(frame, relations, s) {
            Ok(next) => next,
            Err(reason) => return Err(reason.at(line)),
        };
        at = at + 1 + frame.len();
    }
    Ok(s)
}

// Where the frame behind n frames begins, its length byte first.
fn place_behind(bytes: &[u8], n: u16) -> u32
    requires { n ≤ 300 }
    ensures { result ≡ start_from bytes.now 0 n }
{
    let mut at: u32 = 0;
    for _ in 0..n {
        at = at + (slice::item_at(bytes, at as usize, 0) as u32) + 1;
    }
    at
}

// The number of relation r's frame.
fn frame_number(tables: u8, keys: u8, r: u8) -> u16
    requires { r ≤ 16 }
    ensures { (result ≡ frame_number tables keys r) × (result ≤ 300) }
{
    if r < tables {
        return r as u16;
    }
    (r as u16) + (keys as u16)
}

// The place of each relation's frame is noted.
fn put_starts(bytes: &[u8], tables: u8, keys: u8, relations: &mut [Relation])
    ensures { StartsPut bytes.now tables keys 16 relations.old relations.new }
{
    for r in 0..16 {
        let start = place_behind(bytes, frame_number(tables, keys, r));
        relation::put_start(relations, r, start as usize);
    }
}

// What the evaluation needs beside the relations, from what was counted.
fn outline_from(bytes: &[u8], relations: &[Relation], s: Progress) -> Outline
    ensures { OutlineFrom bytes.now relations.now s result }
{
    let foreign = place_behind(bytes, s.tables as u16);
    let filled = outline::some_row(relations, s.tables);
    Outline {
        tables: s.tables,
        keys: s.keys,
        relations: s.relations,
        foreign: foreign as usize,
        filled: filled,
    }
}

// The plan of a file whose frames were walked without fault.
fn plan_from(
    bytes: [u8; text::ROOM],
    s: Progress,
    relations: [Relation; 16],
    candidates: u64,
) -> Plan
    ensures { PlanFrom bytes s relations candidates result }
{
    let outline = outline_from(&bytes, &relations, s);
    let mut located = relations;
    put_starts(&bytes, s.tables, s.keys, &mut located);
    let goal = Goal {
        view: s.goal,
        negative: s.negative,
    };
    Plan {
        bytes: bytes,
        relations: located,
        outline: outline,
        goal: goal,
        candidates: candidates,
    }
}

// The plan of a file whose frames were all walked without fault, or its refusal where it has no goal or too many candidates.
fn plan_whole(
    bytes: [u8; text::ROOM],
    s: Progress,
    relations: [Relation; 16],
) -> Result<Plan, Refusal>
    ensures { PlansWhole bytes s relations result }
{
    let Stage::Ended = s.stage else {
        return Err(Reason::Order.at(0));
    };
    let Some(n) = entries::candidates_of(&relations, s.tables) else {
        return Err(Reason::Candidates.at(0));
    };
    Ok(plan_from(bytes, s, relations, n))
}

// The plan of the file that a text means, or its refusal by 1 to 10 with its line.
// Refused: the refusal of a text without its line; a frame's refusal without its line.
pub fn check(text: &[u8]) -> Result<Plan, Refusal>
    ensures { Plans (file_of text.now) result }
{
    // (a `?` here would keep the frames twice more, and clear them at each call)
    let frames = match text::decode(text) {
        Ok(frames) => frames,
        Err(refusal) => return Err(refusal),
    };
    let bytes = frames.bytes;
    let used = frames.used;
    let mut relations = [Relation::none(); 16];
    let s = walk(&bytes[..used], &mut relations)?;
    plan_whole(bytes, s, relations)
}

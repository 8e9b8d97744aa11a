// One frame: its fault, or what the counts and the relations are with it.
ghost use Rattle.language.specs.Written.{set_kind};
ghost use Rattle.checker.specs.ViewFaults.{own_kind};
ghost use Rattle.catalog.specs.Kinds.{groups_rows, number_of, operation_of};
ghost use Rattle.checker.specs.Standing.{Turned, Stepped};

use super::state::Progress;
use super::{entries, fixed, view_bytes, view_rules};
use catalog::frames;
use catalog::kind::{Kind, SetOperation, ViewKind};
use catalog::relation::Relation;
use text::refusal::Reason;

// Refused: stored as the relation with the number of keys; as relation 0's.
fn table_step(frame: &[u8], relations: &mut [Relation], s: Progress) -> Result<Progress, Reason>
    ensures { Turned 1 frame.now s relations.old relations.new result }
{
    fixed::table_fault(frame)?;
    slice::put_item(relations, s.relations as usize, entries::table_of(frame));
    Ok(s.with_table())
}

fn key_step(frame: &[u8], relations: &[Relation], s: Progress) -> Result<Progress, Reason>
    ensures { Turned 2 frame.now s relations.now relations.now result }
{
    fixed::key_fault(frame, relations, s.tables)?;
    Ok(s.with_key())
}

// Refused: an aggregate view stored as relation 0's; a basic one.
#[tactic(auto, using(crate::proofs::KindLaws::view_done))]
fn view_step(
    kind: ViewKind,
    frame: &[u8],
    relations: &mut [Relation],
    s: Progress,
) -> Result<Progress, Reason>
    ensures { Turned (own_kind (groups_rows kind)) frame.now s relations.old relations.new result }
{
    view_bytes::bytes_fault(frame, relations, s.relations, kind)?;
    let view = view_rules::rules(frame, relations, kind)?;
    slice::put_item(relations, s.relations as usize, view);
    Ok(s.with_view())
}

fn set_step(
    operation: SetOperation,
    frame: &[u8],
    relations: &mut [Relation],
    s: Progress,
) -> Result<Progress, Reason>
    ensures { Turned (set_kind (operation_of operation)) frame.now s relations.old relations.new result }
{
    fixed::set_fault(frame, relations, s.tables, s.relations, operation)?;
    let joined = entries::set_of(operation, frames::set_parts(frame), relations);
    slice::put_item(relations, s.relations as usize, joined);
    Ok(s.with_view())
}

fn goal_step(frame: &[u8], relations: &[Relation], s: Progress) -> Result<Progress, Reason>
    ensures { Turned 7 frame.now s relations.now relations.now result }
{
    fixed::goal_fault(frame, s.tables, s.relations)?;
    Ok(s.with_goal(frames::goal_of(frame)))
}

// The frame of a kind whose turn has come.
fn body_step(
    kind: Kind,
    frame: &[u8],
    relations: &mut [Relation],
    s: Progress,
) -> Result<Progress, Reason>
    ensures { Turned (number_of kind) frame.now s relations.old relations.new result }
{
    match kind {
        Kind::Table => table_step(frame, relations, s),
        Kind::ForeignKey => key_step(frame, relations, s),
        Kind::View(view) => view_step(view, frame, relations, s),
        Kind::Set(operation) => set_step(operation, frame, relations, s),
        Kind::Goal => goal_step(frame, relations, s),
    }
}

// One frame: its fault, or the counts and the relations with what it adds. Where there is a fault no relation changes.
// Refused: 3 for a 17th relation or foreign key; every frame as a table's.
pub(crate) fn frame_step(
    frame: &[u8],
    relations: &mut [Relation],
    s: Progress,
) -> Result<Progress, Reason>
    ensures { Stepped frame.now s relations.old relations.new result }
{
    if frame.len() == 0 {
        return Err(Reason::Form);
    }
    let kind = s.turn(frame[0])?;
    body_step(kind, frame, relations, s)
}

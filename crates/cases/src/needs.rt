// The relations that a goal depends on: whose rows are needed, and of which it is asked whether they are negative.
ghost use Rattle.std.specs.Prelude.{◌≡◌, ◌<◌, length};
ghost use Rattle.catalog.specs.FileIn.{source_in};
ghost use Rattle.cases.specs.Needs.{no_needs, all_needs, goal_needs, with_goal, set_flags, behind_at, behind_to, named_in, NamesSet, NeedsRows, NeedsSigns, NeedsWith, NeedsOf};

use catalog::frames;
use catalog::plan::Goal;
use catalog::source::Source;

// Of each relation, whether its rows are needed, and whether it is asked if it is negative.
#[derive(Clone, Copy)]
pub struct Needs {
    pub rows: [bool; 16],
    pub signs: [bool; 16],
}

impl Needs {
    // Of no relation.
    // Refused: the rows of each; the sign of the first.
    pub fn none() -> Needs
        ensures { result ≡ no_needs }
    {
        Needs {
            rows: [false; 16],
            signs: [false; 16],
        }
    }

    // The rows and the sign of every relation.
    // Refused: of 15 relations; a flag of relation 16.
    pub fn all() -> Needs
        ensures { result ≡ all_needs }
    {
        Needs {
            rows: [true; 16],
            signs: [true; 16],
        }
    }

    // What a goal asks itself: its sign, or its rows.
    // Refused: the other flag; the first relation's rows.
    #[tactic(auto, unfolding(crate::specs::Needs::goal_needs, crate::specs::Needs::with_goal))]
    pub fn of_goal(goal: Goal) -> Needs
        ensures { result ≡ goal_needs goal }
    {
        Needs::none().with_goal(goal)
    }

    // The same beside flags that are set.
    // Refused: the other flag; the first relation's rows; no sign; the first relation's sign.
    fn with_goal(self, goal: Goal) -> Needs
        ensures { result ≡ with_goal goal self }
    {
        let mut needs = self;
        let at = goal.view as usize;
        if goal.negative {
            slice::put_item(&mut needs.signs, at, true);
        } else {
            slice::put_item(&mut needs.rows, at, true);
        }
        needs
    }
}

// The flags of the relations that are named.
fn set_names(names: &[u8], flags: &mut [bool])
    ensures { NamesSet names.now flags.old flags.new }
{
    for named in names {
        slice::put_item(flags, *named as usize, true);
    }
}

// The flag of the relation behind a byte 17 at place i, if it is before relation v.
fn set_behind(frame: &[u8], flags: &mut [bool], i: usize, v: u8)
    requires { i < length frame.now }
    ensures { flags.new ≡ set_flags (behind_at v frame.now i) flags.old }
{
    if slice::item_at(frame, i, 0) != 0x17 {
        return;
    }
    let named = slice::item_at(frame, i + 1, 0);
    if v <= named {
        return;
    }
    slice::put_item(flags, named as usize, true);
}

// The same at every place of a frame: the relations into which view v looks.
fn set_looked(frame: &[u8], flags: &mut [bool], v: u8)
    ensures { NamesSet (behind_to v frame.now (length frame.now)) flags.old flags.new }
{
    for i in 0..frame.len() {
        set_behind(frame, flags, i, v);
    }
}

// The flags of all relations that the frame of view v names.
fn set_named(frame: &[u8], flags: &mut [bool], v: u8)
    ensures { NamesSet (named_in v frame.now) flags.old flags.new }
{
    set_names(frames::names(frame), flags);
    set_looked(frame, flags, v);
}

// With the rows that view v needs: those of the relations that its frame names, if its own rows are needed or it is no set view and its sign
// is asked.
// The test is one of the frame's number, as it is in `with_rows`: a number of no kind, from 8 on, counts as one of a set view.
// Refused: rows that no sign needs; the flag of the sign for that of the rows.
fn need_rows(frame: &[u8], needs: Needs, v: u8) -> Needs
    ensures { NeedsRows frame.now needs v result }
{
    let needed = slice::item_at(&needs.rows, v as usize, false);
    let asked = slice::item_at(&needs.signs, v as usize, false);
    if !(needed | (asked & (slice::item_at(frame, 0, 0) < 5))) {
        return needs;
    }
    let mut all = needs;
    set_named(frame, &mut all.rows, v);
    all
}

// With the signs that view v asks: those of both operands, if it is a set view and its own is asked.
fn need_signs(frame: &[u8], needs: Needs, v: u8) -> Needs
    ensures { NeedsSigns frame.now needs v result }
{
    let asked = slice::item_at(&needs.signs, v as usize, false);
    if !(asked & (5 <= slice::item_at(frame, 0, 0))) {
        return needs;
    }
    let mut all = needs;
    set_names(frames::names(frame), &mut all.signs);
    all
}

// With what a goal depends on, from the last relation down, and what the relations depend on whose flags were set before: those of several goals
// by one call for each. Which flags these are is said of every input; that none is left out, of a file in memory.
// Refused: the goal alone; what the first relation names for each.
pub fn needs_with(source: &Source, needs: Needs, goal: Goal) -> Needs
    ensures { NeedsWith (source_in source.now) needs goal result }
{
    let outline = source.outline;
    let mut needs = needs.with_goal(goal);
    for v in (outline.tables..outline.relations).rev() {
        let frame = source.frame(v);
        needs = need_rows(frame, needs, v);
        needs = need_signs(frame, needs, v);
    }
    needs
}

// What a goal depends on.
// Refused: the goal alone; every relation.
pub fn needs_of(source: &Source, goal: Goal) -> Needs
    ensures { NeedsOf (source_in source.now) goal result }
{
    needs_with(source, Needs::none(), goal)
}

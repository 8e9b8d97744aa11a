// Frames in the packed bytes of a file, and the parts of each kind of frame.
ghost use Rattle.std.specs.Prelude.{◌≡◌, ◌+◌, ◌*◌, min, length, get_or, take, drop};
ghost use Rattle.catalog.specs.Kinds.{groups_rows};
ghost use Rattle.catalog.specs.Frames.{frame_at, frame_in, table_parts_in, key_parts_in, froms_in, names_in, parts_after, set_parts_in, goal_in};

use super::kind::ViewKind;
use super::plan::Goal;
use super::relation;
use super::relation::Relation;
use slice::item_at;

// Where the columns of a table's frame begin.
pub const COLUMNS: usize = 4;

// Where the pairs of a foreign key's frame begin.
const PAIRS: usize = 4;

// The kind of an aggregate view; the kinds of set views are above it.
const GROUPED: u8 = 4;

// Of a table: how many rows and columns it has, and its key mask.
#[derive(Clone, Copy)]
pub struct TableParts {
    pub rows: u8,
    pub width: u8,
    pub mask: u8,
}

// Of a foreign key: its tables, how many pairs of columns it has, and where these begin.
#[derive(Clone, Copy)]
pub struct KeyParts {
    pub child: u8,
    pub parent: u8,
    pub count: u8,
    pub pairs: usize,
}

// Of a set view: its operands.
#[derive(Clone, Copy)]
pub struct SetParts {
    pub left: u8,
    pub right: u8,
}

// Of a basic or an aggregate view: how many grouping columns and select expressions it has, and where its where condition begins. Behind
// that stand the grouping columns, having and the select expressions.
#[derive(Clone, Copy)]
pub struct Parts {
    pub groups: u8,
    pub width: u8,
    pub body: usize,
}

// At most n bytes from a place on.
fn part(bytes: &[u8], at: usize, n: u8) -> &[u8]
    ensures { result.now ≡ take n (drop at bytes.now) }
{
    let from = at.min(bytes.len());
    let to = (from + (n as usize)).min(bytes.len());
    &bytes[from..to]
}

// Two bytes, high byte first, 0 for each past the end.
// Refused: 255 for 256; the high byte twice.
pub fn word_at(frame: &[u8], at: usize) -> u16
    ensures { result ≡ get_or frame.now at 0 * 256 + get_or frame.now (at + 1) 0 }
{
    if frame.len() <= at {
        return 0;
    }
    u16::from_be_bytes([item_at(frame, at, 0), item_at(frame, at + 1, 0)])
}

// The frame whose length stands at a place; where the bytes end early, what there is of it.
// Refused: the length with it; without its first byte.
pub fn frame_at(bytes: &[u8], at: usize) -> &[u8]
    ensures { result.now ≡ frame_at bytes.now at }
{
    let size = item_at(bytes, at, 0);
    let before = at.min(bytes.len());
    part(bytes, before + 1, size)
}

// The frame of a relation.
// Refused: the first relation's; the second relation's.
pub fn frame_of<'a>(bytes: &'a [u8], relations: &[Relation], r: u8) -> &'a [u8]
    ensures { result.now ≡ frame_in bytes.now relations.now r }
{
    frame_at(bytes, relation::start_of(relations, r))
}

// The parts of a table's frame.
// Refused: the number of columns for that of rows; the kind for the key mask.
pub fn table_parts(frame: &[u8]) -> TableParts
    ensures { result ≡ table_parts_in frame.now }
{
    TableParts {
        rows: item_at(frame, 1, 0),
        width: item_at(frame, 2, 0),
        mask: item_at(frame, 3, 0),
    }
}

// The parts of a foreign key's frame.
// Refused: the parent as child; the pairs one byte too early.
pub fn key_parts(frame: &[u8]) -> KeyParts
    ensures { result ≡ key_parts_in frame.now }
{
    KeyParts {
        child: item_at(frame, 1, 0),
        parent: item_at(frame, 2, 0),
        count: item_at(frame, 3, 0),
        pairs: PAIRS,
    }
}

// The parts of a set view's frame.
// Refused: the right operand twice; the left one twice.
pub fn set_parts(frame: &[u8]) -> SetParts
    ensures { result ≡ set_parts_in frame.now }
{
    SetParts {
        left: item_at(frame, 1, 0),
        right: item_at(frame, 2, 0),
    }
}

// The goal of its frame.
// Refused: the signs swapped; the view by the sign's byte.
pub fn goal_of(frame: &[u8]) -> Goal
    ensures { result ≡ goal_in frame.now }
{
    Goal {
        view: item_at(frame, 1, 0),
        negative: item_at(frame, 2, 0) == 1,
    }
}

// The from list of a basic or an aggregate view's frame.
// Refused: its length with it; without its first item.
pub(crate) fn from_list(frame: &[u8]) -> &[u8]
    ensures { result.now ≡ froms_in frame.now }
{
    part(frame, 2, item_at(frame, 1, 0))
}

// The relations that a view's frame names.
// Refused: the kind for an operand; the first operand alone.
pub fn names(frame: &[u8]) -> &[u8]
    ensures { result.now ≡ names_in frame.now }
{
    if GROUPED < item_at(frame, 0, 0) {
        return part(frame, 1, 2);
    }
    from_list(frame)
}

// The parts of an aggregate view's frame, or of a basic view's.
// Refused: a grouping count of basic views; the where condition one byte too far.
pub fn parts_after(frame: &[u8], kind: ViewKind) -> Parts
    ensures { result ≡ parts_after (groups_rows kind) (get_or frame.now 1 0) frame.now }
{
    let items = item_at(frame, 1, 0) as usize;
    match kind {
        ViewKind::Basic => Parts {
            groups: 0,
            width: item_at(frame, items + 2, 0),
            body: items + 3,
        },
        ViewKind::Aggregate => Parts {
            groups: item_at(frame, items + 2, 0),
            width: item_at(frame, items + 3, 0),
            body: items + 4,
        },
    }
}

// The pass over the bytes of a basic or an aggregate view: the first fault of its parts in their order.
ghost use Rattle.std.specs.Prelude.{◌≡◌, ◌≤◌, length};
ghost use Rattle.language.specs.Reading.{byte_if, read_e};
ghost use Rattle.prefix.specs.Skipped.{skip_told, skipped, open_of};
ghost use Rattle.catalog.specs.Items.{relations_in, widths_in};
ghost use Rattle.language.specs.Frames.{repeated, place_field};
ghost use Rattle.catalog.specs.Kinds.{groups_rows};
ghost use Rattle.checker.specs.Faults.{fault_at, fault_told, under};
ghost use Rattle.checker.specs.ViewFaults.{froms_under, select_end, condition_select, where_groups, counted_select, counted_where, counted_groups, behind_froms, BytesFault, Times};

use crate::fields;
use catalog::items::from_items;
use catalog::kind::ViewKind;
use catalog::relation::Relation;
use prefix::{Reader, Setting};
use text::refusal::Reason;

// The n relations of a from list, each below `count`.
fn relations(frame: &[u8], n: u8, count: u8) -> Result<(), Reason>
    ensures { fault_told result ≡ fault_at frame.now 2 (repeated n (byte_if 6 (under count))) }
{
    fields::repeated(
        n,
        |i| fields::below(frame, 2 + (i as usize), Reason::Reference, count),
    )
}

// The from count and the relations.
fn from_list(frame: &[u8], count: u8) -> Result<(), Reason>
    ensures { fault_told result ≡ fault_at frame.now 1 (froms_under count) }
{
    let n = slice::item_at(frame, 1, 0);
    fields::between(frame, 1, Reason::Limit, 1, 3)?;
    relations(frame, n, count)
}

// Where n forms end that stand one behind the other.
fn repeated<F: Fn(usize) -> Result<usize, Reason>>(
    at: usize,
    n: u8,
    form: F,
) -> Result<usize, Reason>
    requires { F.IsAlwaysCallable form }
    ensures { Times (F.post form) at n result }
{
    let mut next = at;
    for _ in 0..n {
        next = form(next)?;
    }
    Ok(next)
}

// Where n expressions end.
fn expressions(reader: &Reader, at: usize, n: u8) -> Result<usize, Reason>
    requires { at ≤ length reader.now.frame.now }
    ensures { skip_told result ≡ skipped reader.now.frame.now at (repeated n (read_e (open_of reader.now.relations.now reader.now.setting))) }
{
    repeated(at, n, |place| reader.expression(place))
}

// Where n grouping columns end.
fn places(reader: &Reader, at: usize, n: u8) -> Result<usize, Reason>
    requires { at ≤ length reader.now.frame.now }
    ensures { skip_told result ≡ skipped reader.now.frame.now at (repeated n (place_field (widths_in reader.now.relations.now (relations_in reader.now.setting.items)))) }
{
    repeated(at, n, |place| reader.place(place))
}

// m select expressions, and nothing behind them.
fn select_end(reader: &Reader, at: usize, m: u8) -> Result<(), Reason>
    requires { at ≤ length reader.now.frame.now }
    ensures { fault_told result ≡ fault_at reader.now.frame.now at (select_end (open_of reader.now.relations.now reader.now.setting) m) }
{
    let next = expressions(reader, at, m)?;
    fields::ends_at(reader.frame, next)
}

// A condition, and then the select expressions.
fn condition_select(reader: &Reader, at: usize, m: u8) -> Result<(), Reason>
    ensures { fault_told result ≡ fault_at reader.now.frame.now at (condition_select (open_of reader.now.relations.now reader.now.setting) m) }
{
    let next = reader.condition(at)?;
    select_end(reader, next, m)
}

// A where condition, g grouping columns, and then having and the select expressions.
fn where_groups(reader: &Reader, at: usize, g: u8, m: u8) -> Result<(), Reason>
    ensures { fault_told result ≡ fault_at reader.now.frame.now at (where_groups (open_of reader.now.relations.now reader.now.setting) g m) }
{
    let next = reader.condition(at)?;
    let having = places(reader, next, g)?;
    condition_select(reader, having, m)
}

// The select count, and then a condition and so many select expressions.
fn counted_select(reader: &Reader, at: usize) -> Result<(), Reason>
    requires { at ≤ 65536 }
    ensures { fault_told result ≡ fault_at reader.now.frame.now at (counted_select (open_of reader.now.relations.now reader.now.setting)) }
{
    let m = slice::item_at(reader.frame, at, 0);
    fields::between(reader.frame, at, Reason::Limit, 1, 8)?;
    condition_select(reader, at + 1, m)
}

// The select count, and then the rest of an aggregate view with g grouping columns.
fn counted_where(reader: &Reader, at: usize, g: u8) -> Result<(), Reason>
    requires { at ≤ 65536 }
    ensures { fault_told result ≡ fault_at reader.now.frame.now at (counted_where (open_of reader.now.relations.now reader.now.setting) g) }
{
    let frame = reader.frame;
    let m = slice::item_at(frame, at, 0);
    fields::between(frame, at, Reason::Limit, 1, 8)?;
    where_groups(reader, at + 1, g, m)
}

// The grouping count, the select count and the rest of an aggregate view.
fn counted_groups(reader: &Reader, at: usize) -> Result<(), Reason>
    requires { at ≤ 65535 }
    ensures { fault_told result ≡ fault_at reader.now.frame.now at (counted_groups (open_of reader.now.relations.now reader.now.setting)) }
{
    let g = slice::item_at(reader.frame, at, 0);
    fields::between(reader.frame, at, Reason::Limit, 0, 4)?;
    counted_where(reader, at + 1, g)
}

// What stands behind the from list of an aggregate or of a basic view.
fn behind_froms(reader: &Reader, at: usize, kind: ViewKind) -> Result<(), Reason>
    requires { at ≤ 65535 }
    ensures { fault_told result ≡ fault_at reader.now.frame.now at (behind_froms (groups_rows kind) (open_of reader.now.relations.now reader.now.setting)) }
{
    match kind {
        ViewKind::Basic => counted_select(reader, at),
        ViewKind::Aggregate => counted_groups(reader, at),
    }
}

// The bytes of an aggregate or of a basic view, the relations before it being `count`.
// Refused: the from list behind the rest; the bytes of a basic view for an aggregate one.
pub(crate) fn bytes_fault(
    frame: &[u8],
    relations: &[Relation],
    count: u8,
    kind: ViewKind,
) -> Result<(), Reason>
    ensures { BytesFault (groups_rows kind) frame.now relations.now count (fault_told result) }
{
    let at = usize::from(slice::item_at(frame, 1, 0)) + 2;
    let setting = Setting {
        items: from_items(frame),
        earlier: count,
    };
    let reader = Reader {
        frame,
        relations,
        setting,
    };
    from_list(frame, count)?;
    behind_froms(&reader, at, kind)
}

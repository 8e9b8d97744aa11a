// The faults of the frames of fixed layout: tables, foreign keys, set views and the goal.
ghost use Rattle.std.specs.Prelude.{◌≡◌, ◌+◌, ◌^◌, ◌<◌, min, get_or};
ghost use Rattle.value.specs.Integer.{bytes_z};
ghost use Rattle.language.specs.Frames.{column_field, pair_field};
ghost use Rattle.catalog.specs.Frames.{columns_start};
ghost use Rattle.catalog.specs.Kinds.{operation_of};
ghost use Rattle.checker.specs.Faults.{fault_at, fault_told};
ghost use Rattle.checker.specs.FixedFaults.{columns_fault, table_head, table_columns, pairs_fault, parent_count, column_pairing, pairing, key_head, key_pairs, key_body};
ghost use Rattle.checker.specs.FixedFaults.{set_bytes, set_rules, TableFault, KeyFault, SetFault, GoalFault};

use super::{entries, fields};
use catalog::frames::COLUMNS;
use catalog::kind::SetOperation;
use catalog::relation;
use catalog::relation::Relation;
use text::refusal::Reason;
use value::{boolean, integer};

// ---- 01 table

// The number of key masks of n columns; more than 4 are refused before. This table is the definition itself, so a shift would say no more.
fn masks_of(n: u8) -> u8
    ensures { result ≡ 2 ^ min n 4 }
{
    match n {
        0 => 1,
        1 => 2,
        2 => 4,
        3 => 8,
        _ => 16,
    }
}

// Two bytes, high byte first.
fn number_at(frame: &[u8], at: usize) -> i16
    requires { at < 65540 }
    ensures { result ≡ bytes_z (get_or frame.now at 0) (get_or frame.now (at + 1) 0) }
{
    integer::from_bytes(
        slice::item_at(frame, at, 0),
        slice::item_at(frame, at + 1, 0),
    )
}

// The lo and hi of a column.
fn column_fault(frame: &[u8], at: usize) -> Result<(), Reason>
    requires { at < 65536 }
    ensures { fault_told result ≡ fault_at frame.now at column_field }
{
    if frame.len() < at + 4 {
        return Err(Reason::Form);
    }
    let lo = number_at(frame, at);
    let hi = number_at(frame, at + 2);
    if lo <= hi { Ok(()) } else { Err(Reason::Limit) }
}

// The lo and hi of each column.
fn columns_fault(frame: &[u8], n: u8) -> Result<(), Reason>
    ensures { fault_told result ≡ columns_fault frame.now columns_start n }
{
    fields::repeated(n, |i| column_fault(frame, COLUMNS + (i as usize) * 4))
}

// The numbers of rows and of columns, which is n, and the key mask.
fn table_head(frame: &[u8], n: u8) -> Result<(), Reason>
    ensures { fault_told result ≡ table_head frame.now n }
{
    fields::between(frame, 1, Reason::Limit, 0, 8)?;
    fields::between(frame, 2, Reason::Limit, 1, 4)?;
    fields::below(frame, 3, Reason::Limit, masks_of(n))
}

// The columns, and nothing behind them.
fn table_columns(frame: &[u8], n: u8) -> Result<(), Reason>
    ensures { fault_told result ≡ table_columns frame.now n }
{
    columns_fault(frame, n)?;
    fields::ends_at(frame, COLUMNS + (n as usize) * 4)
}

// The fault of a table's frame.
// Refused: as many columns as rows; the columns before the counts.
pub(crate) fn table_fault(frame: &[u8]) -> Result<(), Reason>
    ensures { TableFault frame.now (fault_told result) }
{
    let n = slice::item_at(frame, 2, 0);
    table_head(frame, n)?;
    table_columns(frame, n)
}

// ---- 02 foreign key

// A child column and a parent column, of tables with c and p columns.
fn pair_fault(frame: &[u8], at: usize, c: u8, p: u8) -> Result<(), Reason>
    requires { at < 65536 }
    ensures { fault_told result ≡ fault_at frame.now at (pair_field c p) }
{
    fields::below(frame, at, Reason::Reference, c)?;
    fields::below(frame, at + 1, Reason::Reference, p)
}

fn pairs_fault(frame: &[u8], c: u8, p: u8, n: u8) -> Result<(), Reason>
    ensures { fault_told result ≡ pairs_fault frame.now c p 4 n }
{
    fields::repeated(n, |i| pair_fault(frame, 4 + (i as usize) * 2, c, p))
}

// How often column i is the parent column of n pairs.
fn parents_of(frame: &[u8], i: u8, n: u8) -> u8
    ensures { result ≡ parent_count frame.now i 4 n }
{
    let mut count = 0;
    for k in 0..n {
        let parent = slice::item_at(frame, 5 + (k as usize) * 2, 0);
        count = count + boolean::one_if(parent == i);
    }
    count
}

// Column i is a parent column as often as the lowest bit says.
fn column_pairing(frame: &[u8], n: u8, i: u8, mask: u8) -> Result<(), Reason>
    ensures { fault_told result ≡ column_pairing frame.now n i mask }
{
    if parents_of(frame, i, n) == mask % 2 {
        Ok(())
    } else {
        Err(Reason::Reference)
    }
}

// Each of `width` columns is a parent column as often as it is in the key. The mask is halved, for a shift by i fails where a width, which any byte
// may be, is above 8.
fn pairing_fault(frame: &[u8], n: u8, width: u8, mask: u8) -> Result<(), Reason>
    ensures { fault_told result ≡ pairing frame.now n 0 width mask }
{
    let mut rest = mask;
    for i in 0..width {
        column_pairing(frame, n, i, rest)?;
        rest = rest / 2;
    }
    Ok(())
}

// The child, the parent and the number of pairs.
fn key_head(frame: &[u8], tables: u8) -> Result<(), Reason>
    ensures { fault_told result ≡ key_head frame.now tables }
{
    fields::below(frame, 1, Reason::Reference, tables)?;
    fields::below(frame, 2, Reason::Reference, tables)?;
    fields::between(frame, 3, Reason::Limit, 1, 4)
}

// The n pairs of columns of tables with c and p columns, and nothing behind them.
fn key_pairs(frame: &[u8], c: u8, p: u8, n: u8) -> Result<(), Reason>
    ensures { fault_told result ≡ key_pairs frame.now c p n }
{
    pairs_fault(frame, c, p, n)?;
    fields::ends_at(frame, 4 + (n as usize) * 2)
}

// The n pairs, and then the rule on the parent's key.
fn key_body(
    frame: &[u8],
    relations: &[Relation],
    child: u8,
    parent: u8,
    n: u8,
) -> Result<(), Reason>
    ensures { fault_told result ≡ key_body frame.now relations.now child parent n }
{
    let c = relation::width_of(relations, child);
    let p = relation::width_of(relations, parent);
    key_pairs(frame, c, p, n)?;
    pairing_fault(frame, n, p, relation::mask_of(relations, parent))
}

// The fault of a foreign key's frame.
// Refused: the parent as child; the pairs before the tables.
pub(crate) fn key_fault(frame: &[u8], relations: &[Relation], tables: u8) -> Result<(), Reason>
    ensures { KeyFault frame.now relations.now tables (fault_told result) }
{
    let child = slice::item_at(frame, 1, 0);
    let parent = slice::item_at(frame, 2, 0);
    let n = slice::item_at(frame, 3, 0);
    key_head(frame, tables)?;
    key_body(frame, relations, child, parent, n)
}

// ---- 05 union, 06 intersection

// Two views, and nothing behind them.
fn set_bytes(frame: &[u8], tables: u8, relations: u8) -> Result<(), Reason>
    ensures { fault_told result ≡ set_bytes frame.now tables relations }
{
    fields::from_below(frame, 1, Reason::Reference, tables, relations)?;
    fields::from_below(frame, 2, Reason::Reference, tables, relations)?;
    fields::ends_at(frame, 3)
}

// The rules on a set view of two relations.
fn set_rules(operation: SetOperation, relations: &[Relation], i: u8, j: u8) -> Result<(), Reason>
    ensures { fault_told result ≡ set_rules (operation_of operation) relations.now i j }
{
    if relation::width_of(relations, i) != relation::width_of(relations, j) {
        return Err(Reason::Reference);
    }
    if entries::set_bound(operation, relations, i, j) <= 64 {
        Ok(())
    } else {
        Err(Reason::RowBound)
    }
}

// The fault of the frame of a union or an intersection.
// Refused: the right operand as left; the rules before the bytes.
pub(crate) fn set_fault(
    frame: &[u8],
    relations: &[Relation],
    tables: u8,
    count: u8,
    operation: SetOperation,
) -> Result<(), Reason>
    ensures { SetFault frame.now relations.now tables count (operation_of operation) (fault_told result) }
{
    let i = slice::item_at(frame, 1, 0);
    let j = slice::item_at(frame, 2, 0);
    set_bytes(frame, tables, count)?;
    set_rules(operation, relations, i, j)
}

// ---- 07 goal

// The fault of the goal's frame.
// Refused: a sign of 2; the sign before the view.
pub(crate) fn goal_fault(frame: &[u8], tables: u8, count: u8) -> Result<(), Reason>
    ensures { GoalFault frame.now tables count (fault_told result) }
{
    fields::from_below(frame, 1, Reason::Reference, tables, count)?;
    fields::between(frame, 2, Reason::Limit, 0, 1)?;
    fields::ends_at(frame, 3)
}

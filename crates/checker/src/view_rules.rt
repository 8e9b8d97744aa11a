// The rules on the whole frame of a basic or an aggregate view, 7, 8 and 9, and the ranges of its columns.
ghost use Rattle.std.specs.Prelude.{◌≡◌, true, false, ◌&&◌, ◌≤◌, length, drop};
ghost use Rattle.catalog.specs.Items.{relations_in};
ghost use Rattle.bounds.specs.Walk.{is_within, TestsC};
ghost use Rattle.checker.specs.ViewRules.{factor_at, view_fault, plain_rule, ProductBound, Selects, Tail, OpeningOf, Rules, RulesFrom};
ghost use Rattle.checker.specs.Faults.{fault_told};
ghost use Rattle.catalog.specs.Kinds.{groups_rows};

use bounds::{Part, Rule, Scope, Tested};
use catalog::frames::Parts;
use catalog::items::{Items, from_items};
use catalog::kind::ViewKind;
use catalog::relation::Relation;
use catalog::{frames, relation};
use range::Range;
use text::refusal::Reason;

// What a view's frame begins with: its from items, its counts, its row bound, and what its where tells.
#[derive(Clone, Copy)]
struct Opening {
    items: Items,
    parts: Parts,
    bound: u32,
    filter: Tested,
}

// Of the select expressions: the ranges that fit, whether the rule on 07 is kept, and whether every range inside them fits 32 bits.
#[derive(Clone, Copy)]
struct Selected {
    ranges: [Range; 8],
    allowed: bool,
    within: bool,
}

// The row bound of from item i, 1 past the last.
fn factor(items: Items, relations: &[Relation], i: u8) -> u8
    ensures { result ≡ factor_at relations.now (relations_in items) i }
{
    if i < items.number {
        return relation::bound_of(relations, items.relation(i));
    }
    1
}

// The product of the row bounds of up to 3 from items.
fn product_bound(items: Items, relations: &[Relation]) -> u32
    ensures { ProductBound relations.now (relations_in items) result }
{
    let a = factor(items, relations, 0) as u32;
    let b = factor(items, relations, 1) as u32;
    let c = factor(items, relations, 2) as u32;
    a * b * c
}

// The first `count` select expressions from `start` on.
fn selects(scope: &Scope, start: usize, count: u8) -> Selected
    ensures { Selects scope.now.frame.now start count (relations_in scope.now.items) scope.now.relations.now scope.now.rule result }
{
    let mut ranges = [Range { lo: 0, hi: 0 }; 8];
    let mut allowed = true;
    let mut within = true;
    let mut at = start;
    for c in 0..count {
        let e = scope.expression(at);
        match e.range {
            Some(range) => slice::put_item(&mut ranges, c as usize, range),
            None => within = false,
        }
        allowed = allowed & e.allowed;
        at = e.next;
    }
    Selected {
        ranges,
        allowed,
        within,
    }
}

// The first rule that is broken.
fn rules_fault(allowed: bool, bound: u32, within: bool) -> Result<(), Reason>
    ensures { fault_told result ≡ view_fault allowed bound within }
{
    if !allowed {
        return Err(Reason::Aggregate);
    }
    if 64 < bound {
        return Err(Reason::RowBound);
    }
    if within { Ok(()) } else { Err(Reason::Range) }
}

// The answer for a view whose conditions are `head`, which `count` select expressions follow.
fn tail(scope: &Scope, head: Tested, count: u8) -> Result<Relation, Reason>
    ensures { Tail scope.now.frame.now head count (relations_in scope.now.items) scope.now.relations.now scope.now.rule result }
{
    let bound = scope.rule.bound;
    let s = selects(scope, head.next, count);
    rules_fault(head.allowed & s.allowed, bound, head.within & s.within)?;
    let ranges = s.ranges;
    Ok(Relation {
        width: count,
        bound: (bound % 256) as u8,
        mask: 0,
        start: 0,
        ranges,
    })
}

// The where of any view.
fn filtered(frame: &[u8], at: usize, items: Items, relations: &[Relation], bound: u32) -> Tested
    ensures { TestsC frame.now at (relations_in items) relations.now (plain_rule bound true) result }
{
    let scope = Scope {
        frame,
        items,
        relations,
        rule: Rule {
            bound,
            part: Part::Where,
        },
    };
    scope.condition(at)
}

// A place in the frame or at its end.
fn inside(frame: &[u8], at: usize) -> usize
    ensures { (result ≤ length frame.now) × (drop result frame.now ≡ drop at frame.now) }
{
    if at <= frame.len() { at } else { frame.len() }
}

// Both conditions of an aggregate view.
fn both(w: Tested, h: Tested) -> Tested
    ensures { result ≡ record { next = h.next; allowed = w.allowed && h.allowed; within = w.within && h.within } }
{
    Tested {
        next: h.next,
        allowed: w.allowed & h.allowed,
        within: w.within & h.within,
    }
}

// What the frame of an aggregate or of a basic view begins with.
fn opening_of(frame: &[u8], relations: &[Relation], kind: ViewKind) -> Opening
    ensures { OpeningOf (groups_rows kind) frame.now relations.now result }
{
    let items = from_items(frame);
    let parts = frames::parts_after(frame, kind);
    let bound = product_bound(items, relations);
    let filter = filtered(frame, parts.body, items, relations, bound);
    Opening {
        items,
        parts,
        bound,
        filter,
    }
}

// The rules on the whole frame of a basic view that begins so, and the view.
fn basic_rules(frame: &[u8], o: Opening, relations: &[Relation]) -> Result<Relation, Reason>
    ensures { RulesFrom false o frame.now relations.now result }
{
    let scope = Scope {
        frame,
        items: o.items,
        relations,
        rule: Rule {
            bound: o.bound,
            part: Part::Plain,
        },
    };
    tail(&scope, o.filter, o.parts.width)
}

// The same of an aggregate view.
fn grouped_rules(frame: &[u8], o: Opening, relations: &[Relation]) -> Result<Relation, Reason>
    ensures { RulesFrom true o frame.now relations.now result }
{
    let places = inside(frame, o.filter.next);
    let count = o.parts.groups;
    let rule = Rule {
        bound: o.bound,
        part: Part::Grouped { places, count },
    };
    let scope = Scope {
        frame,
        items: o.items,
        relations,
        rule,
    };
    let h = scope.condition(places + 2 * usize::from(count));
    tail(&scope, both(o.filter, h), o.parts.width)
}

// The rules on the whole frame of an aggregate or of a basic view, 7, 8 and 9, and the view. Of bytes that are no such frame the answer is
// open: the byte pass has refused them before.
// Refused: an aggregate view opened as a basic one; a basic view opened as an aggregate one.
pub(crate) fn rules(
    frame: &[u8],
    relations: &[Relation],
    kind: ViewKind,
) -> Result<Relation, Reason>
    ensures { Rules (groups_rows kind) frame.now relations.now result }
{
    let o = opening_of(frame, relations, kind);
    match kind {
        ViewKind::Basic => basic_rules(frame, o, relations),
        ViewKind::Aggregate => grouped_rules(frame, o, relations),
    }
}

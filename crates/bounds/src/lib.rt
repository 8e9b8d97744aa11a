// The rule on aggregates and the ranges of expressions, on frame bytes.
#![tactic(auto)]

ghost use Rattle.std.specs.Prelude.{◌≡◌, true, ◌&&◌, ◌+◌, ◌≤◌, length, get_or};
ghost use Rattle.value.specs.Integer.{bytes_z};
ghost use Rattle.value.specs.Machine.{operation_of, aggregate_of};
ghost use Rattle.range.specs.Ranges.{ranged, constant_of};
ghost use Rattle.meaning.specs.Bounds.{grouping_column};
ghost use Rattle.catalog.specs.Items.{relations_in};
ghost use Rattle.bounds.specs.Walk.{places_from, permitted_of, is_grouped, is_where, inside_of, where_of, item_range, column_sized, operated_r, rounded_r, hull_r, chosen_r, aggregated_r, sized, tested, SizesE, SizesTwo, TestsC};

use catalog::items::Items;
use catalog::relation::Relation;
use catalog::{frames, relation};
use range::Range;
use slice::item_at;
use value::integer;
use value::operator::{Aggregate, Operation};

// The part of a view that an expression stands in.
#[derive(Clone, Copy)]
pub enum Part {
    // A where condition.
    Where,
    // The select of a basic view, or what 07 aggregates.
    Plain,
    // Having and select of an aggregate view, whose grouping columns are `count` pairs of bytes (from item, column) at `places`.
    Grouped { places: usize, count: u8 },
}

// The row bound, and what may stand there.
#[derive(Clone, Copy)]
pub struct Rule {
    pub bound: u32,
    pub part: Part,
}

// Where an expression stands: in which frame, which from items are open, what is known of the relations, and the rule.
#[derive(Clone, Copy)]
pub struct Scope<'a> {
    pub frame: &'a [u8],
    pub items: Items,
    pub relations: &'a [Relation],
    pub rule: Rule,
}

// Of an expression: where it ends, whether the rule on 07 is kept, and its range if it and every range inside it fit 32 bits. That the rule is
// broken is refusal 7 and that a range does not fit is 9, and either may be without the other: so `allowed` stands beside the option.
#[derive(Clone, Copy)]
pub struct Sized {
    pub next: usize,
    pub allowed: bool,
    pub range: Option<Range>,
}

// Of a condition: where it ends, whether the rule on 07 is kept, and whether every range inside it fits 32 bits.
#[derive(Clone, Copy)]
pub struct Tested {
    pub next: usize,
    pub allowed: bool,
    pub within: bool,
}

// Of two expressions, one after the other.
#[derive(Clone, Copy)]
struct TwoSized {
    next: usize,
    allowed: bool,
    first: Option<Range>,
    second: Option<Range>,
}

// An answer in one line of an arm.
fn sizing(next: usize, allowed: bool, range: Option<Range>) -> Sized
    ensures { result ≡ sized next allowed range }
{
    Sized {
        next,
        allowed,
        range,
    }
}

// The same of a condition.
fn testing(next: usize, allowed: bool, within: bool) -> Tested
    ensures { result ≡ tested next allowed within }
{
    Tested {
        next,
        allowed,
        within,
    }
}

// A constant of two bytes.
fn constant(frame: &[u8], at: usize) -> Sized
    requires { at ≤ length frame.now }
    ensures { result ≡ sized (at + 2) true (ranged (constant_of (bytes_z (get_or frame.now at 0) (get_or frame.now (at + 1) 0)))) }
{
    let n = integer::from_bytes(item_at(frame, at, 0), item_at(frame, at + 1, 0));
    sizing(at + 2, true, Some(Range::constant(n)))
}

// Whether a column is one of `count` grouping columns, which begin at `places`.
fn grouping(frame: &[u8], places: usize, count: u8, item: u8, column: u8) -> bool
    requires { places ≤ length frame.now }
    ensures { result ≡ grouping_column (places_from frame.now places count) item column }
{
    for k in 0..count {
        let at = places + 2 * usize::from(k);
        if (item_at(frame, at, 0) == item) & (item_at(frame, at + 1, 0) == column) {
            return true;
        }
    }
    false
}

// A range inside that does not fit stays one.
fn operated(operation: Operation, first: Option<Range>, second: Option<Range>) -> Option<Range>
    ensures { result ≡ operated_r (operation_of operation) first second }
{
    first?.operated(operation, second?)
}

// The same of a rounding.
fn rounded(m: u16, range: Option<Range>) -> Option<Range>
    ensures { result ≡ rounded_r m range }
{
    range?.rounded(m)
}

// The values of both.
fn hull(first: Option<Range>, second: Option<Range>) -> Option<Range>
    ensures { result ≡ hull_r first second }
{
    Some(first?.hull(second?))
}

// The first or the second; a range in the test counts too.
#[tactic(auto, unfolding(crate::specs::Walk::chosen_r))]
fn chosen(within: bool, first: Option<Range>, second: Option<Range>) -> Option<Range>
    ensures { result ≡ chosen_r within first second }
{
    if within { hull(first, second) } else { None }
}

// The same of an aggregate.
fn aggregated(kind: Aggregate, bound: u32, range: Option<Range>) -> Option<Range>
    ensures { result ≡ aggregated_r (aggregate_of kind) bound range }
{
    range?.aggregated(kind, bound)
}

impl Rule {
    // Inside 07: any column, and no other 07.
    fn inside(self) -> Rule
        ensures { result ≡ inside_of self }
    {
        Rule {
            bound: self.bound,
            part: Part::Plain,
        }
    }

    // Inside 17: as in a where condition.
    fn in_where(self) -> Rule
        ensures { result ≡ where_of self }
    {
        Rule {
            bound: self.bound,
            part: Part::Where,
        }
    }

    // Whether 07 may stand there.
    fn aggregates(self) -> bool
        ensures { result ≡ is_grouped self.part }
    {
        matches!(self.part, Part::Grouped { .. })
    }

    // Whether a column may stand there outside 07. Past the end of the frame every byte is 0, wherever that is.
    fn permits(self, frame: &[u8], item: u8, column: u8) -> bool
        ensures { result ≡ (permitted_of frame.now self).columns item column }
    {
        match self.part {
            Part::Grouped { places, count } => {
                grouping(frame, places.min(frame.len()), count, item, column)
            }
            Part::Where | Part::Plain => true,
        }
    }

    // 17, which may stand only in a where condition, from the condition behind it.
    // Refused: 17 allowed anywhere.
    fn existing(self, test: Tested) -> Tested
        ensures { result ≡ tested test.next (is_where self.part && test.allowed) test.within }
    {
        let allowed = matches!(self.part, Part::Where);
        testing(test.next, allowed & test.allowed, test.within)
    }
}

impl Scope<'_> {
    // The range of a column of a from item.
    fn range_of(&self, item: u8, column: u8) -> Option<Range>
        ensures { result ≡ ranged (item_range self.now.relations.now (relations_in self.now.items) item column) }
    {
        if self.items.number <= item {
            return Some(Range { lo: 0, hi: 0 });
        }
        let relation = self.items.relation(item);
        Some(relation::range_at(self.relations, relation, column))
    }

    // The column that two bytes name.
    fn column(&self, at: usize) -> Sized
        requires { at ≤ length self.now.frame.now }
        ensures { result ≡ column_sized self.now.frame.now at (relations_in self.now.items) self.now.relations.now self.now.rule }
    {
        let item = item_at(self.frame, at, 0);
        let number = item_at(self.frame, at + 1, 0);
        let allowed = self.rule.permits(self.frame, item, number);
        sizing(at + 2, allowed, self.range_of(item, number))
    }

    // Two expressions, one after the other.
    #[cycle(condition_expression_two)]
    fn two(&self, at: usize) -> TwoSized
        ensures { SizesTwo self.now.frame.now at (relations_in self.now.items) self.now.relations.now self.now.rule result }
    {
        let a = self.expression(at);
        let b = self.expression(a.next);
        TwoSized {
            next: b.next,
            allowed: a.allowed & b.allowed,
            first: a.range,
            second: b.range,
        }
    }

    // Bytes that begin with no expression are not allowed and fit no range; what those give that break off inside one is open, as the
    // checker reads every frame to its end first.
    // Refused: the operands of a difference swapped; the token for the kind of an aggregate.
    #[cycle(condition_expression_two)]
    pub fn expression(&self, at: usize) -> Sized
        ensures { SizesE self.now.frame.now at (relations_in self.now.items) self.now.relations.now self.now.rule result }
    {
        if self.frame.len() <= at {
            return sizing(at, false, None);
        }
        let token = self.frame[at];
        let body = at + 1;
        match token {
            0x00 => constant(self.frame, body),
            0x01 => self.column(body),
            0x02..=0x04 => {
                let p = self.two(body);
                let operation = Operation::from(token - 0x02);
                sizing(p.next, p.allowed, operated(operation, p.first, p.second))
            }
            0x05 => {
                let a = self.expression(body + 2);
                let m = frames::word_at(self.frame, body);
                sizing(a.next, a.allowed, rounded(m, a.range))
            }
            0x06 => {
                let c = self.condition(body);
                let p = self.two(c.next);
                let range = chosen(c.within, p.first, p.second);
                sizing(p.next, c.allowed & p.allowed, range)
            }
            0x07 => {
                let inner = Scope {
                    rule: self.rule.inside(),
                    ..*self
                };
                let a = inner.expression(body + 1);
                let kind = Aggregate::from(item_at(self.frame, body, 0));
                let range = aggregated(kind, self.rule.bound, a.range);
                sizing(a.next, self.rule.aggregates() & a.allowed, range)
            }
            _ => sizing(at, false, None),
        }
    }

    // The same of a condition.
    // Refused: the range of a second operand lost; the end of the first of two conditions; the condition behind 17 with no item opened.
    #[cycle(condition_expression_two)]
    pub fn condition(&self, at: usize) -> Tested
        ensures { TestsC self.now.frame.now at (relations_in self.now.items) self.now.relations.now self.now.rule result }
    {
        if self.frame.len() <= at {
            return testing(at, false, false);
        }
        let token = self.frame[at];
        let body = at + 1;
        match token {
            0x10 => testing(body, true, true),
            0x11..=0x13 => {
                let p = self.two(body);
                testing(p.next, p.allowed, p.first.is_some() & p.second.is_some())
            }
            0x14 => self.condition(body),
            0x15..=0x16 => {
                let c = self.condition(body);
                let d = self.condition(c.next);
                testing(d.next, c.allowed & d.allowed, c.within & d.within)
            }
            0x17 => {
                let inner = Scope {
                    items: self.items.opened(item_at(self.frame, body, 0)),
                    rule: self.rule.in_where(),
                    ..*self
                };
                let c = inner.condition(body + 1);
                self.rule.existing(c)
            }
            _ => testing(at, false, false),
        }
    }
}

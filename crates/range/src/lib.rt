// Ranges: what the values of an expression can be, worked out from the file alone.
#![tactic(auto)]

ghost use Rattle.std.specs.Prelude.{◌≡◌};
ghost use Rattle.value.specs.Integer.{min_z, max_z};
ghost use Rattle.value.specs.Value.{Operation as operation_t, apply_z};
ghost use Rattle.value.specs.Machine.{operation_of, aggregate_of};
ghost use Rattle.range.specs.Ranges.{constant_of, range_from, hull_of, operated_of, rounded_of, scaled_of, count_of, aggregated_of, fitted, ranged_told};

use value::integer;
use value::operator::{Aggregate, Operation};

// The whole numbers from lo to hi.
#[derive(Clone, Copy)]
pub struct Range {
    pub lo: i32,
    pub hi: i32,
}

// The results at x and each end of b, the lesser first.
fn results(operation: Operation, x: i32, b: Range) -> (i64, i64)
    ensures lesser { result.0 ≡ min_z (apply_z (operation_of operation) x b.lo) (apply_z (operation_of operation) x b.hi) }
    ensures greater { result.1 ≡ max_z (apply_z (operation_of operation) x b.lo) (apply_z (operation_of operation) x b.hi) }
{
    let p = integer::operate(operation, x, b.lo);
    let q = integer::operate(operation, x, b.hi);
    (p.min(q), p.max(q))
}

// A range of 64 bits that 32 bits do not hold is `None`.
impl Range {
    // The ends of 32 bits.
    pub const LOW: i32 = i32::MIN;

    pub const HIGH: i32 = i32::MAX;

    // Refused: 0; up to 0.
    pub fn constant(x: i16) -> Range
        ensures { result ≡ constant_of x }
    {
        let n = i32::from(x);
        Range { lo: n, hi: n }
    }

    // A column of a table.
    // Refused: hi for lo; lo for hi.
    pub fn column(lo: i16, hi: i16) -> Range
        ensures { result ≡ range_from lo hi }
    {
        Range {
            lo: i32::from(lo),
            hi: i32::from(hi),
        }
    }

    // The range from lo to hi, if 32 bits hold both.
    // Refused: from -2^31 + 1; lo for hi.
    fn checked(lo: i64, hi: i64) -> Option<Range>
        ensures { ranged_told result ≡ fitted (range_from lo hi) }
    {
        let lo = i32::try_from(lo).ok()?;
        let hi = i32::try_from(hi).ok()?;
        Some(Range { lo, hi })
    }

    // The values of both.
    // Refused: the lo of self; the hi of other.
    pub fn hull(self, other: Range) -> Range
        ensures { result ≡ hull_of self other }
    {
        Range {
            lo: self.lo.min(other.lo),
            hi: self.hi.max(other.hi),
        }
    }

    // The least and the greatest of the results at the ends.
    // Refused: the least at the lo of self; the greatest at the lo of self.
    pub fn operated(self, operation: Operation, other: Range) -> Option<Range>
        ensures { ranged_told result ≡ fitted (operated_of (operation_of operation) self other) }
    {
        let p = results(operation, self.lo, other);
        let q = results(operation, self.hi, other);
        Range::checked(p.0.min(q.0), p.1.max(q.1))
    }

    // Refused: the product; of self and self.
    pub fn sum(self, other: Range) -> Option<Range>
        ensures { ranged_told result ≡ fitted (operated_of operation_t.sum self other) }
    {
        self.operated(Operation::Sum, other)
    }

    // Refused: the sum; of self and self.
    pub fn difference(self, other: Range) -> Option<Range>
        ensures { ranged_told result ≡ fitted (operated_of operation_t.difference self other) }
    {
        self.operated(Operation::Difference, other)
    }

    // Refused: the difference; of self and self.
    pub fn product(self, other: Range) -> Option<Range>
        ensures { ranged_told result ≡ fitted (operated_of operation_t.product self other) }
    {
        self.operated(Operation::Product, other)
    }

    // Both ends rounded to multiples of m.
    // Refused: lo for hi; by 1.
    pub fn rounded(self, m: u16) -> Option<Range>
        ensures { ranged_told result ≡ fitted (rounded_of m self) }
    {
        Range::checked(integer::round(self.lo, m), integer::round(self.hi, m))
    }

    // The sums of at most as many values as the row bound says.
    // Refused: hi for lo; by 1.
    fn scaled(self, bound: u32) -> Option<Range>
        ensures { ranged_told result ≡ fitted (scaled_of bound self) }
    {
        let lo = integer::times(bound, self.lo.min(0));
        let hi = integer::times(bound, self.hi.max(0));
        Range::checked(lo, hi)
    }

    // The numbers of rows up to the row bound.
    // Refused: one row too many; from 1.
    fn count(bound: u32) -> Option<Range>
        ensures { ranged_told result ≡ fitted (count_of bound) }
    {
        Range::checked(0, i64::from(bound))
    }

    // Self is the range of the argument.
    // Refused: no rows; one row.
    pub fn aggregated(self, kind: Aggregate, bound: u32) -> Option<Range>
        ensures { ranged_told result ≡ fitted (aggregated_of (aggregate_of kind) bound self) }
    {
        match kind {
            Aggregate::Count => Range::count(bound),
            Aggregate::Sum => self.scaled(bound),
            Aggregate::Minimum | Aggregate::Maximum => Some(self),
        }
    }
}

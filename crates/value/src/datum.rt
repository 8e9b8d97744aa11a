// A value by value. Only this crate reads its field.
ghost use Rattle.std.specs.Prelude.{◌≡◌};
ghost use Rattle.value.specs.Integer.{bytes_z};
ghost use Rattle.value.specs.Value.{Value, apply as apply_v, round, compare as compare_v, value_test, narrowed, weight as weight_v, stored as stored_v, shown as shown_v};
ghost use Rattle.value.specs.Machine.{value_of, truth_of, operation_of, comparison_of, aggregate_of};

use super::boolean::Boolean;
use super::integer;
use super::operator::{Aggregate, Comparison, Operation};

// Equal are the same cells, which grouping, set views and keys go by; `same` says so of the values.
#[derive(Clone, Copy, PartialEq, Eq)]
pub struct Datum {
    n: i32,
}

impl Datum {
    // The value of a cell of the work area.
    // Refused: 0; 1.
    #[tactic(auto, unfolding(crate::specs::Machine::value_of))]
    pub fn from_work(n: i32) -> Datum
        ensures { value_of result ≡ Value.number n }
    {
        Datum { n }
    }

    // The cell of the work area that stands for the value.
    // Refused: 0; 1.
    #[tactic(auto, unfolding(crate::specs::Machine::value_of, crate::specs::Value::stored))]
    pub fn stored(self) -> i32
        ensures { result ≡ stored_v (value_of self) }
    {
        self.n
    }

    // The value of a cell of the instance buffer.
    // Refused: 0; 1.
    #[tactic(auto, unfolding(crate::specs::Machine::value_of))]
    fn from_instance(n: i16) -> Datum
        ensures { value_of result ≡ Value.number n }
    {
        Datum { n: i32::from(n) }
    }

    // The cell of the instance buffer that stands for the value; 0 where 16 bits do not hold it.
    // Refused: the cell of 0; of 1.
    #[tactic(auto, unfolding(crate::specs::Machine::value_of, crate::specs::Value::shown))]
    pub fn shown(self) -> i16
        ensures { result ≡ shown_v (value_of self) }
    {
        integer::narrow16(self.n)
    }

    // A constant of two bytes, high byte first.
    // Refused: low byte first; the high byte twice.
    pub fn from_bytes(high: u8, low: u8) -> Datum
        ensures { value_of result ≡ Value.number (bytes_z high low) }
    {
        Datum::from_instance(integer::from_bytes(high, low))
    }

    // The exact result where 32 bits hold it, else 0.
    // Refused: the operands swapped; self twice.
    #[tactic(auto, unfolding(crate::specs::Machine::value_of, crate::specs::Value::apply, crate::specs::Value::narrowed))]
    pub fn applied(self, operation: Operation, other: Datum) -> Datum
        ensures { value_of result ≡ narrowed (apply_v (operation_of operation) (value_of self) (value_of other)) }
    {
        Datum {
            n: integer::narrow(integer::operate(operation, self.n, other.n)),
        }
    }

    // The nearest multiple of m where 32 bits hold it, else 0.
    // Refused: by 1; by 2.
    #[tactic(auto, unfolding(crate::specs::Machine::value_of, crate::specs::Value::round, crate::specs::Value::narrowed))]
    pub fn rounded(self, m: u16) -> Datum
        ensures { value_of result ≡ narrowed (round m (value_of self)) }
    {
        Datum {
            n: integer::narrow(integer::round(self.n, m)),
        }
    }

    // Refused: the operands swapped; self twice.
    #[tactic(auto, unfolding(crate::specs::Machine::value_of, crate::specs::Value::compare))]
    pub fn compared(self, comparison: Comparison, other: Datum) -> Boolean
        ensures { truth_of result ≡ compare_v (comparison_of comparison) (value_of self) (value_of other) }
    {
        Boolean::from(integer::compare(comparison, self.n, other.n))
    }

    // The same cell, as `==` says it.
    // Refused: self with self; other with other.
    #[tactic(auto, unfolding(crate::specs::Machine::value_of, crate::specs::Value::same_value))]
    pub fn same(self, other: Datum) -> bool
        ensures { result ≡ value_test.same (value_of self) (value_of other) }
    {
        self == other
    }

    // What the value counts for in an aggregate of that kind.
    // Refused: 0 for a member; sum for count.
    #[tactic(auto, unfolding(crate::specs::Machine::value_of, crate::specs::Value::weight))]
    pub(crate) fn weight(self, kind: Aggregate) -> i32
        ensures { result ≡ weight_v (aggregate_of kind) (value_of self) }
    {
        match kind {
            Aggregate::Count => 1,
            _ => self.n,
        }
    }
}

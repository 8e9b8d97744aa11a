// A running aggregate by value, with the kind that it is of.
ghost use Rattle.std.specs.Prelude.{◌≡◌};
ghost use Rattle.value.specs.Value.{start as start_t, more as more_t, finish as finish_t, narrowed_tally};
ghost use Rattle.value.specs.Machine.{value_of, tally_of, kind_of, aggregate_of};

use super::datum::Datum;
use super::integer;
use super::operator::Aggregate;

// What the values so far come to, if there are any. A caller sees none apart from a total of 0, and may begin from a total.
#[derive(Clone, Copy)]
pub struct Accumulator {
    pub kind: Aggregate,
    pub total: Option<i32>,
}

impl Accumulator {
    // Refused: count from 1; sum from 0.
    #[tactic(auto, unfolding(crate::specs::Machine::tally_of, crate::specs::Machine::kind_of, crate::specs::Value::start))]
    pub fn start(kind: Aggregate) -> Accumulator
        ensures { (tally_of result ≡ start_t (aggregate_of kind)) × (kind_of result ≡ aggregate_of kind) }
    {
        let total = match kind {
            Aggregate::Count => Some(0),
            _ => None,
        };
        Accumulator { kind, total }
    }

    // One value more; what no longer fits 32 bits becomes 0.
    // Refused: the first value lost; the total twice.
    #[tactic(auto, unfolding(crate::specs::Machine::kind_of))]
    pub fn more(self, value: Datum) -> Accumulator
        ensures { (tally_of result ≡ narrowed_tally (more_t (kind_of self) (value_of value) (tally_of self))) × (kind_of result ≡ kind_of self) }
    {
        self.more_by(self.kind, value)
    }

    // The same by a kind that need not be its own, which stays.
    // Refused: the first value lost; the total twice.
    pub fn more_by(self, kind: Aggregate, value: Datum) -> Accumulator
        ensures { (tally_of result ≡ narrowed_tally (more_t (aggregate_of kind) (value_of value) (tally_of self))) × (kind_of result ≡ kind_of self) }
    {
        let n = value.weight(kind);
        let total = match self.total {
            None => n,
            Some(t) => integer::combined(kind, t, n),
        };
        Accumulator {
            kind: self.kind,
            total: Some(total),
        }
    }

    // Refused: 1 of nothing; the total lost.
    #[tactic(auto, unfolding(crate::specs::Machine::tally_of, crate::specs::Value::finish))]
    pub fn finish(self) -> Datum
        ensures { value_of result ≡ finish_t (tally_of self) }
    {
        Datum::from_work(self.total.unwrap_or(0))
    }
}

// What a condition answers. No `bool`: the paper has three truths, and the third would stand here beside these two.
ghost use Rattle.std.specs.Prelude.{◌≡◌, ◌≤◌};
ghost use Rattle.value.specs.Bag.{tick};
ghost use Rattle.value.specs.Value.{sure as sure_t, negate, connect, holds as holds_t};
ghost use Rattle.value.specs.Machine.{truth_of, connective_of};

use super::operator::Connective;

#[derive(Clone, Copy, PartialEq, Eq)]
pub enum Boolean {
    True,
    False,
}

// Refused: true for false; false for true.
impl From<bool> for Boolean {
    ghost from_gives = { λ b truth. truth_of truth ≡ sure_t b };

    #[tactic(auto, unfolding(crate::specs::Machine::truth_of, crate::specs::Value::sure))]
    fn from(b: bool) -> Boolean {
        if b { Boolean::True } else { Boolean::False }
    }
}

impl Boolean {
    // Refused: true stays; false stays.
    #[tactic(auto, unfolding(crate::specs::Machine::truth_of, crate::specs::Value::negate))]
    pub fn negated(self) -> Boolean
        ensures { truth_of result ≡ negate (truth_of self) }
    {
        match self {
            Boolean::True => Boolean::False,
            Boolean::False => Boolean::True,
        }
    }

    // Refused: and for or; and that answers self.
    #[tactic(auto, unfolding(crate::specs::Machine::truth_of, crate::specs::Value::connect))]
    pub fn connected(self, connective: Connective, other: Boolean) -> Boolean
        ensures { truth_of result ≡ connect (connective_of connective) (truth_of self) (truth_of other) }
    {
        match connective {
            Connective::And => match self {
                Boolean::True => other,
                Boolean::False => Boolean::False,
            },
            Connective::Or => match self {
                Boolean::True => Boolean::True,
                Boolean::False => other,
            },
        }
    }

    // Refused: false holds; true does not.
    #[tactic(auto, unfolding(crate::specs::Machine::truth_of, crate::specs::Value::holds))]
    pub fn holds(self) -> bool
        ensures { result ≡ holds_t (truth_of self) }
    {
        matches!(self, Boolean::True)
    }
}

// 1 for true, 0 for false: what a test adds to a count. A function of its own, since its contract is over `tick`, by which bags are counted.
// Refused: 1 for false; 0 for true.
pub fn one_if(b: bool) -> u8
    ensures { (result ≡ tick b 0) × (result ≤ 1) }
{
    u8::from(b)
}

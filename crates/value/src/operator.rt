// The kinds of operators, each numbered from 0 as its tokens stand in document 01.
ghost use Rattle.std.specs.Prelude.{◌≡◌};
ghost use Rattle.value.specs.Value.{operation_at, comparison_at, connective_at, aggregate_at};
ghost use Rattle.value.specs.Machine.{operation_of, comparison_of, connective_of, aggregate_of};

#[derive(Clone, Copy, PartialEq, Eq)]
pub enum Operation {
    Sum,
    Difference,
    Product,
}

#[derive(Clone, Copy, PartialEq, Eq)]
pub enum Comparison {
    Equal,
    Less,
    LessOrEqual,
}

#[derive(Clone, Copy, PartialEq, Eq)]
pub enum Connective {
    And,
    Or,
}

#[derive(Clone, Copy, PartialEq, Eq)]
pub enum Aggregate {
    Count,
    Sum,
    Minimum,
    Maximum,
}

// A number past the last kind stands for the last.
// Refused: the sum for 1; the difference past the last.
impl From<u8> for Operation {
    ghost from_gives = { λ kind operation. operation_of operation ≡ operation_at kind };

    fn from(kind: u8) -> Operation {
        match kind {
            0 => Operation::Sum,
            1 => Operation::Difference,
            _ => Operation::Product,
        }
    }
}

// Refused: less or equal for 1; less past the last.
impl From<u8> for Comparison {
    ghost from_gives = { λ kind comparison. comparison_of comparison ≡ comparison_at kind };

    fn from(kind: u8) -> Comparison {
        match kind {
            0 => Comparison::Equal,
            1 => Comparison::Less,
            _ => Comparison::LessOrEqual,
        }
    }
}

// Refused: or for 0; and past the last.
impl From<u8> for Connective {
    ghost from_gives = { λ kind connective. connective_of connective ≡ connective_at kind };

    fn from(kind: u8) -> Connective {
        match kind {
            0 => Connective::And,
            _ => Connective::Or,
        }
    }
}

// Refused: the sum for 0; the minimum past the last.
impl From<u8> for Aggregate {
    ghost from_gives = { λ kind aggregate. aggregate_of aggregate ≡ aggregate_at kind };

    fn from(kind: u8) -> Aggregate {
        match kind {
            0 => Aggregate::Count,
            1 => Aggregate::Sum,
            2 => Aggregate::Minimum,
            _ => Aggregate::Maximum,
        }
    }
}

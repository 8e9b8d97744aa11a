// The domain of a column of a table: its lo and hi, and its values as digits.
ghost use Rattle.std.specs.Prelude.{◌≡◌, ◌≤◌};
ghost use Rattle.value.specs.Value.{size as size_c, digit as digit_c, narrowed};
ghost use Rattle.value.specs.Machine.{value_of, column_of};

use super::datum::Datum;
use super::integer;

#[derive(Clone, Copy)]
pub struct Domain {
    pub lo: i16,
    pub hi: i16,
}

impl Domain {
    // How many digits the column has; a blank beside 65,536 values would be the last of 65,537.
    // Refused: one digit only; one digit too few.
    #[tactic(auto, unfolding(crate::specs::Machine::column_of, crate::specs::Value::size))]
    pub fn size(self) -> u32
        ensures { (result ≡ size_c (column_of self)) × (result ≤ 65537) }
    {
        u32::from(self.hi.abs_diff(self.lo)) + 1
    }

    // The value of digit n where 32 bits hold it, else 0.
    // Refused: from hi; digit 0 always.
    #[tactic(auto, unfolding(crate::specs::Machine::column_of, crate::specs::Value::digit, crate::specs::Value::narrowed))]
    pub fn digit(self, n: u32) -> Datum
        ensures { value_of result ≡ narrowed (digit_c (column_of self) n) }
    {
        Datum::from_work(integer::narrow(integer::offset(self.lo, n)))
    }
}

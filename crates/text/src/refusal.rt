// A refusal: which condition a text, a file or a call meets, and the line.
ghost use Rattle.std.specs.Prelude.{◌≡◌};
ghost use Rattle.text.specs.Refusals.{number_of, numbers_of, packed_refusal};

// The conditions of a refusal, by their numbers: a text's size and its lines; of a frame its kind's place in the order, its form, a field's limits,
// what it refers to, the rule on aggregates, its row bound and its ranges; the number of candidates; and of a call the work area, the instance
// buffer and the start.
#[derive(Clone, Copy, PartialEq, Eq)]
pub enum Reason {
    Size = 1,
    Line,
    Order,
    Form,
    Limit,
    Reference,
    Aggregate,
    RowBound,
    Range,
    Candidates,
    WorkArea,
    Instance,
    Start,
}

impl Reason {
    // The number that the caller sees.
    // Refused: one less; 1 for each.
    pub fn number(self) -> u8
        ensures { result ≡ number_of self }
    {
        self as u8
    }

    // The refusal for this reason at a line.
    // Refused: line 0; a line next to it.
    pub fn at(self, line: u16) -> Refusal
        ensures { result ≡ record { reason = self; line = line } }
    {
        Refusal {
            reason: self,
            line: line,
        }
    }
}

// Refused: 3 for each; one more.
impl From<Reason> for u8 {
    ghost from_gives = { λ reason n. n ≡ number_of reason };

    fn from(reason: Reason) -> u8 {
        reason.number()
    }
}

// Line 0 stands where no line is said.
#[derive(Clone, Copy, PartialEq, Eq)]
pub struct Refusal {
    pub reason: Reason,
    pub line: u16,
}

impl Refusal {
    // The number and the line in one word, as the C interface gives them.
    // Refused: the line left out; 65535 for 65536.
    pub fn packed(self) -> u32
        ensures { result ≡ packed_refusal self }
    {
        (self.reason.number() as u32) * 65536 + (self.line as u32)
    }
}

// The number and the line, for a caller with refusals of its own.
// Refused: a number one less; line 0.
impl From<Refusal> for (u8, u16) {
    ghost from_gives = { λ refusal numbers. numbers ≡ numbers_of refusal };

    fn from(refusal: Refusal) -> (u8, u16) {
        (refusal.reason.number(), refusal.line)
    }
}

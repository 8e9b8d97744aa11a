// The kinds of frames.
ghost use Rattle.std.specs.Prelude.{◌≡◌};
ghost use Rattle.catalog.specs.Kinds.{kind_at};

// A view over a from list: with its own rows, or with a row for each group.
#[derive(Clone, Copy, PartialEq, Eq)]
pub enum ViewKind {
    Basic,
    Aggregate,
}

#[derive(Clone, Copy, PartialEq, Eq)]
pub enum SetOperation {
    Union,
    Intersection,
}

#[derive(Clone, Copy, PartialEq, Eq)]
pub enum Kind {
    Table,
    ForeignKey,
    View(ViewKind),
    Set(SetOperation),
    Goal,
}

impl Kind {
    // The kind of the frames that begin with this number, if there is one.
    // Refused: a table for 0; a union for an intersection.
    pub fn from_number(number: u8) -> Option<Kind>
        ensures { result ≡ kind_at number }
    {
        match number {
            1 => Some(Kind::Table),
            2 => Some(Kind::ForeignKey),
            3 => Some(Kind::View(ViewKind::Basic)),
            4 => Some(Kind::View(ViewKind::Aggregate)),
            5 => Some(Kind::Set(SetOperation::Union)),
            6 => Some(Kind::Set(SetOperation::Intersection)),
            7 => Some(Kind::Goal),
            _ => None,
        }
    }
}

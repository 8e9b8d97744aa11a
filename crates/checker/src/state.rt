// What the checker has counted so far, the stage of the order, and the goal.
ghost use Rattle.std.specs.Prelude.{◌≡◌, Ok, Some};
ghost use Rattle.catalog.specs.Kinds.{kind_at, number_of};
ghost use Rattle.language.specs.Draft.{stage_of};
ghost use Rattle.checker.specs.Faults.{fault_told};
ghost use Rattle.checker.specs.Standing.{stage_number, at_stage, start_progress, room_for, turn_fault, with_table, with_key, with_view, with_goal};

use catalog::kind::Kind;
use catalog::plan::Goal;
use text::refusal::Reason;

// The stages of the order; behind the goal no frame has one.
#[derive(Clone, Copy)]
pub enum Stage {
    Tables = 1,
    Keys,
    Views,
    Goal,
    Ended,
}

impl Stage {
    // Where a kind stands in the order.
    fn of(kind: Kind) -> Stage
        ensures { stage_number result ≡ stage_of (number_of kind) }
    {
        match kind {
            Kind::Table => Stage::Tables,
            Kind::ForeignKey => Stage::Keys,
            Kind::View(_) | Kind::Set(_) => Stage::Views,
            Kind::Goal => Stage::Goal,
        }
    }

    // Its place in the order.
    fn number(self) -> u8
        ensures { result ≡ stage_number self }
    {
        self as u8
    }
}

#[derive(Clone, Copy)]
pub struct Progress {
    pub tables: u8,
    pub relations: u8,
    pub keys: u8,
    pub stage: Stage,
    pub goal: u8,
    pub negative: bool,
}

impl Progress {
    // Before the first frame.
    // Refused: a table counted; the stage of foreign keys.
    pub fn start() -> Progress
        ensures { result ≡ start_progress }
    {
        Progress {
            tables: 0,
            relations: 0,
            keys: 0,
            stage: Stage::Tables,
            goal: 0,
            negative: false,
        }
    }

    // Whether there is room for an item of a stage.
    fn has_room(self, stage: Stage) -> bool
        ensures { result ≡ room_for self (stage_number stage) }
    {
        match stage {
            Stage::Keys => self.keys < 16,
            Stage::Goal => true,
            _ => self.relations < 16,
        }
    }

    // The kind of a frame that begins with a number, if it may come: 3 for a kind unknown or out of order, 5 for a 17th relation or foreign key.
    // Refused: 5 for 3; a 17th relation kept.
    pub(crate) fn turn(self, number: u8) -> Result<Kind, Reason>
        ensures { (fault_told result ≡ turn_fault self number) × ((kind : Kind) → result ≡ Ok kind → kind_at number ≡ Some kind) }
    {
        let order = Reason::Order;
        let Some(kind) = Kind::from_number(number) else {
            return Err(order);
        };
        let stage = Stage::of(kind);
        if stage.number() < self.stage.number() {
            return Err(order);
        }
        if self.has_room(stage) {
            Ok(kind)
        } else {
            Err(Reason::Limit)
        }
    }

    fn in_stage(self, stage: Stage) -> Progress
        ensures { result ≡ at_stage self stage }
    {
        Progress {
            stage: stage,
            ..self
        }
    }

    // One more table.
    // Refused: the keys counted as tables; the stage of foreign keys.
    pub(crate) fn with_table(self) -> Progress
        ensures { result ≡ with_table self }
    {
        Progress {
            tables: self.tables.saturating_add(1),
            relations: self.relations.saturating_add(1),
            ..self.in_stage(Stage::Tables)
        }
    }

    // One more foreign key.
    // Refused: the tables counted as keys; the stage of tables.
    pub(crate) fn with_key(self) -> Progress
        ensures { result ≡ with_key self }
    {
        Progress {
            keys: self.keys.saturating_add(1),
            ..self.in_stage(Stage::Keys)
        }
    }

    // One more view.
    // Refused: the tables counted as relations; the stage of the goal.
    pub(crate) fn with_view(self) -> Progress
        ensures { result ≡ with_view self }
    {
        let relations = self.relations.saturating_add(1);
        Progress {
            relations: relations,
            ..self.in_stage(Stage::Views)
        }
    }

    // The goal.
    // Refused: the sign left out; a frame may follow.
    pub(crate) fn with_goal(self, goal: Goal) -> Progress
        ensures { result ≡ with_goal self goal }
    {
        Progress {
            goal: goal.view,
            negative: goal.negative,
            ..self.in_stage(Stage::Ended)
        }
    }
}

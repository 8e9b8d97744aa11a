// The first case of a span of candidates.
ghost use Rattle.std.specs.Prelude.{◌≡◌};
ghost use Rattle.cases.specs.Judgement.{memory_from};
ghost use Rattle.look.specs.Moves.{places_in};
ghost use Rattle.look.specs.Scans.{search_in, places_of, Scans, Searched};

use super::cells::Cell;
use super::moves::Places;
use cases::needs::Needs;
use cases::{judgement, needs};
use catalog::plan::Goal;
use catalog::source::Source;

// A file and the cells of its tables, its goal, and the candidates from `start` on and before `end`.
#[derive(Clone, Copy)]
pub(crate) struct Search<'a> {
    pub(crate) source: Source<'a>,
    pub(crate) cells: &'a [Cell],
    pub(crate) goal: Goal,
    pub(crate) start: u64,
    pub(crate) end: u64,
}

impl<'a> Search<'a> {
    // Where the cells of its candidates stand.
    fn places(&self) -> Places<'a>
        ensures { places_in result ≡ places_of (search_in self.now) }
    {
        Places {
            relations: self.source.relations,
            cells: self.cells,
        }
    }

    // The first case, if there is one. The cells of the first candidate stand in the work area, and those of the case then.
    fn scan(
        &self,
        needs: &Needs,
        counts: &mut [u8],
        signs: &mut [u8],
        work: &mut [i32],
    ) -> Option<u64>
        ensures { Scans (search_in self.now) needs.now
            (memory_from counts.old signs.old work.old) result
            (memory_from counts.new signs.new work.new) }
    {
        let places = self.places();
        for k in self.start..self.end {
            if judgement::is_case(&self.source, needs, self.goal, counts, signs, work) {
                return Some(k);
            }
            places.move_to(k, k + 1, work);
        }
        None
    }

    // The same, where nothing is set up yet.
    // Refused: the cells of candidate 0 for any start; signs for 15 relations.
    pub(crate) fn first(&self, work: &mut [i32]) -> Option<u64>
        ensures { Searched (search_in self.now) work.old result work.new }
    {
        let mut counts = [0u8; 16];
        self.source.count_tables(&mut counts);
        self.places().put_candidate(self.start, work);
        let needs = needs::needs_of(&self.source, self.goal);
        let mut signs = [0u8; 16];
        self.scan(&needs, &mut counts, &mut signs, work)
    }
}

// The from items that are open where an expression stands: the relation of each.
ghost use Rattle.std.specs.Prelude.{◌≡◌, min, get_or};
ghost use Rattle.catalog.specs.Frames.{froms_in};
ghost use Rattle.catalog.specs.Items.{bytes_at, relations_in, items_of, widths_in, six_with, opened_items};

use crate::relation::Relation;
use crate::{frames, relation};
use slice::item_at;

// Of the six places the first `number` count.
#[derive(Clone, Copy)]
pub struct Items {
    pub relations: [u8; 6],
    pub number: u8,
}

// The first six names, 0 past the last.
fn six_of(names: &[u8]) -> [u8; 6]
    ensures { result ≡ bytes_at names.now 0 6 }
{
    // One item is the most frequent.
    if names.len() < 2 {
        return [item_at(names, 0, 0), 0, 0, 0, 0, 0];
    }
    [
        item_at(names, 0, 0),
        item_at(names, 1, 0),
        item_at(names, 2, 0),
        item_at(names, 3, 0),
        item_at(names, 4, 0),
        item_at(names, 5, 0),
    ]
}

// The from items of a basic or an aggregate view's frame, of which the first six count.
// Refused: as many as the frame has bytes; the bytes of the frame.
pub fn from_items(frame: &[u8]) -> Items
    ensures { result ≡ items_of (froms_in frame.now) }
{
    let list = frames::from_list(frame);
    Items {
        relations: six_of(list),
        number: list.len().min(6) as u8,
    }
}

// Six bytes with another at place n.
// Refused: 0 for the byte; the place for the byte.
pub fn six_with(bytes: [u8; 6], n: u8, x: u8) -> [u8; 6]
    ensures { result ≡ six_with bytes n x }
{
    let mut six = bytes;
    if n < 6 {
        six[n as usize] = x;
    }
    six
}

impl Items {
    // The relation of an item, 0 past the last.
    // Refused: that of the first item; that of the second item.
    pub fn relation(self, i: u8) -> u8
        ensures { result ≡ get_or (relations_in self) i 0 }
    {
        if self.number <= i {
            return 0;
        }
        let relations = self.relations;
        item_at(&relations, i as usize, 0)
    }

    // The number of columns of an item, 0 past the last.
    // Refused: that of the first item; that of the second item.
    pub fn width(self, relations: &[Relation], i: u8) -> u8
        ensures { result ≡ get_or (widths_in relations.now (relations_in self)) i 0 }
    {
        if self.number <= i {
            return 0;
        }
        relation::width_of(relations, self.relation(i))
    }

    // The items with one more, the row of a relation; six stay as they are.
    // Refused: five stay as they are; the number as it was.
    pub fn opened(self, relation: u8) -> Items
        ensures { result ≡ opened_items self relation }
    {
        let number = self.number;
        if 6 <= number {
            return self;
        }
        let old = self.relations;
        Items {
            relations: six_with(old, number, relation),
            number: number + 1,
        }
    }
}

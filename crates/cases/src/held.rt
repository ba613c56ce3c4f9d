// Lock rows as one value, so that a case can go on from them in several ways: the rows in their array, and how many they are.
ghost use Rattle.std.specs.Prelude.{◌≤◌};

use chains::leads_back;
use locks::cells::*;
use locks::rows::{Part, Row, Standing};
use std::array;

const ROWS: usize = 32;

#[derive(Clone, Copy)]
pub(crate) struct Held {
    cells: Cells,
    used: usize,
}

impl Held {
    pub(crate) fn new() -> Held {
        Held {
            cells: [0; WORDS],
            used: 0,
        }
    }

    pub(crate) fn count(&self) -> usize
        ensures { result ≤ 32 }
    {
        self.used.min(ROWS)
    }

    // A full table has no place for the row and keeps its rows.
    pub(crate) fn with(mut self, r: Row) -> Held {
        let n = self.count();
        if n < ROWS {
            append(&mut self.cells, n, Cell::from(r));
            self.used = n + 1;
        }
        self
    }

    pub(crate) fn stands(&self, r: Row) -> Standing {
        stands(&self.cells, self.count(), Cell::from(r))
    }

    pub(crate) fn has_twin(&self, r: Row) -> bool {
        has_twin(&self.cells, self.count(), Cell::from(r))
    }

    pub(crate) fn is_waiting(&self, owner: u16) -> bool {
        is_waiting(&self.cells, self.count(), u64::from(owner))
    }

    // With the new row r behind the others, a chain leads from it back to its owner.
    pub(crate) fn closes(mut self, r: Row) -> bool {
        let n = self.count();
        append(&mut self.cells, n, Cell::from(r));
        leads_back(&self.cells, n)
    }

    fn without(mut self, r: Row, part: Part) -> Held {
        let n = self.count();
        self.used = take_out(&mut self.cells, n, Cell::from(r), part);
        self
    }

    pub(crate) fn without_twin(self, r: Row) -> Held {
        self.without(r, Part::Twin)
    }

    pub(crate) fn without_owner(self, owner: u16) -> Held {
        self.without(owned(owner), Part::All)
    }

    pub(crate) fn without_waiting(self, owner: u16) -> Held {
        self.without(owned(owner), Part::Waiting)
    }

    // The row at each place, also at those that are free.
    pub(crate) fn rows(&self) -> [Row; ROWS] {
        array::from_fn(|i| Row::from(cell_at(&self.cells, i)))
    }
}

fn owned(owner: u16) -> Row {
    Row {
        owner,
        shared: false,
        len: 0,
        bytes: [0; 16],
    }
}

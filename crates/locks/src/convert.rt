// A row as the numbers of its cell, and back.
ghost use Rattle.std.specs.Prelude.{◌≡◌, true, ◌<◌};
ghost use Rattle.locks.specs.Words.{fit_row};
ghost use Rattle.locks.specs.Cells.{Tells, four, row_in};

use crate::cells::{Cell, SHARED};
use crate::rows::Row;
use crate::words::words_of;

impl From<Row> for Cell {
    ghost from_gives = { λ r c. fit_row r ≡ true → Tells c r };

    fn from(r: Row) -> Cell {
        let words = words_of(r.bytes);
        let len = u64::from(r.len);
        Cell {
            owner: u64::from(r.owner),
            kind: if r.shared { len + SHARED } else { len },
            low: words.low,
            high: words.high,
        }
    }
}

// An owner past 16 bits loses what is above them.
impl From<Cell> for Row {
    ghost from_gives = { λ c r. c.owner < 65536 → r ≡ row_in (four c) };

    fn from(c: Cell) -> Row {
        let mut bytes = [0; 16];
        bytes[..8].copy_from_slice(&c.low.to_le_bytes());
        bytes[8..].copy_from_slice(&c.high.to_le_bytes());
        Row {
            owner: (c.owner % 65536) as u16,
            shared: SHARED <= c.kind,
            len: (c.kind % SHARED) as u8,
            bytes,
        }
    }
}

// One field of a state, changed or looked at by hand, so that a story can hold a state that no event leads to.
use crate::reading::{Line, low_byte, low_half};
use rules::state::State;

// Fields of a process, then of the state, then of a row.
#[derive(Clone, Copy)]
enum Field {
    Pid,
    Priority,
    Pending,
    Reaction,
    Trap,
    Sleep,
    Seconds,
    Wake,
    Left,
    Alarm,
    UserEffective,
    UserLogin,
    UserProgram,
    GroupEffective,
    GroupLogin,
    GroupProgram,
    Live,
    Used,
    Next,
    Owner,
    Shared,
    Len,
    Byte,
}

// A number that stands for no field.
#[derive(Clone, Copy)]
struct NoField;

impl TryFrom<u32> for Field {
    type Error = NoField;

    fn try_from(number: u32) -> Result<Field, NoField> {
        Ok(match number {
            0 => Field::Pid,
            1 => Field::Priority,
            2 => Field::Pending,
            3 => Field::Reaction,
            4 => Field::Trap,
            5 => Field::Sleep,
            6 => Field::Seconds,
            7 => Field::Wake,
            8 => Field::Left,
            9 => Field::Alarm,
            10 => Field::UserEffective,
            11 => Field::UserLogin,
            12 => Field::UserProgram,
            13 => Field::GroupEffective,
            14 => Field::GroupLogin,
            15 => Field::GroupProgram,
            20 => Field::Live,
            21 => Field::Used,
            22 => Field::Next,
            30 => Field::Owner,
            31 => Field::Shared,
            32 => Field::Len,
            33 => Field::Byte,
            _ => return Err(NoField),
        })
    }
}

// ! field place part value: what stands in the field of the process or the row at the place. Part tells which reaction, trap or byte.
pub(crate) fn poke(s: &mut State, line: &[u8]) {
    let mut line = Line::new(line);
    let Ok(field) = Field::try_from(line.number(10)) else {
        return;
    };
    let place = line.number(10) as usize;
    let part = line.number(10) as usize;
    let value = line.number(10);
    let p = place % 16;
    let r = place % 32;
    match field {
        Field::Pid => s.procs[p].pid = low_half(value),
        Field::Priority => s.procs[p].priority = value,
        Field::Pending => s.procs[p].signals.pending = low_byte(value),
        Field::Reaction => s.procs[p].signals.reactions[part % 7] = value,
        Field::Trap => s.procs[p].signals.traps[part % 7] = value,
        Field::Sleep => s.procs[p].rest.sleep = low_byte(value),
        Field::Seconds => s.procs[p].rest.seconds = value,
        Field::Wake => s.procs[p].rest.wake = low_byte(value),
        Field::Left => s.procs[p].rest.left = value,
        Field::Alarm => s.procs[p].alarm = value,
        Field::UserEffective => s.procs[p].user.effective = low_half(value),
        Field::UserLogin => s.procs[p].user.login = low_half(value),
        Field::UserProgram => s.procs[p].user.program = low_half(value),
        Field::GroupEffective => s.procs[p].group.effective = low_half(value),
        Field::GroupLogin => s.procs[p].group.login = low_half(value),
        Field::GroupProgram => s.procs[p].group.program = low_half(value),
        Field::Live => s.live = value as usize,
        Field::Used => s.table.used = value as usize,
        Field::Next => s.next = value,
        Field::Owner => s.table.rows[r].owner = low_half(value),
        Field::Shared => s.table.rows[r].shared = value != 0,
        Field::Len => s.table.rows[r].len = low_byte(value),
        Field::Byte => s.table.rows[r].bytes[part % 16] = low_byte(value),
    }
}

// ? field place part: what the process at the place has there, of the fields that no event shows of a sleeper.
pub(crate) fn peek(s: &State, line: &[u8]) -> u32 {
    let mut line = Line::new(line);
    let Ok(field) = Field::try_from(line.number(10)) else {
        return 0;
    };
    let p = &s.procs[line.number(10) as usize % 16];
    match field {
        Field::Sleep => u32::from(p.rest.sleep),
        Field::Seconds => p.rest.seconds,
        Field::Wake => u32::from(p.rest.wake),
        Field::Left => p.rest.left,
        Field::Alarm => p.alarm,
        _ => 0,
    }
}

// What the cases write.
use crate::held::Held;
use locks::rows::{Row, Standing};
use std::io;

pub(crate) fn say(rt: &impl Print, line: &str) -> io::Result<()> {
    println!(rt; "{line}")
}

// A zero byte is written \0, any other as it is: a Display could not, since it writes text alone.
pub(crate) fn quote(rt: &impl Print, s: &[u8]) -> io::Result<()> {
    print!(rt; "\"")?;
    for x in s {
        match x {
            0 => print!(rt; "\\0")?,
            _ => rt.write_all(&[*x])?,
        }
    }
    print!(rt; "\"")
}

// What comes of the request r, as the calls' checks go.
pub(crate) fn answer(rt: &impl Print, t: &Held, r: Row) -> io::Result<()> {
    if t.has_twin(r) {
        say(rt, ": has its row already")
    } else if t.stands(r) != Standing::Waits {
        say(rt, ": held")
    } else if t.closes(r) {
        say(rt, ": deadlock")
    } else {
        say(rt, ": waits")
    }
}

// A row that stands behind the table t.
fn show_row(rt: &impl Print, t: &Held, r: Row) -> io::Result<()> {
    let owner = r.owner;
    let kind = if r.shared { "shared" } else { "unshared" };
    print!(rt; "  {owner} {kind} ")?;
    quote(rt, &r.bytes[..usize::from(r.len).min(16)])?;
    if t.stands(r) == Standing::Waits {
        say(rt, " waits")
    } else {
        say(rt, " held")
    }
}

// The rows, each shown behind those ahead of it.
pub(crate) fn show(rt: &impl Print, t: &Held) -> io::Result<()> {
    let mut ahead = Held::new();
    for r in &t.rows()[..t.count()] {
        show_row(rt, &ahead, *r)?;
        ahead = ahead.with(*r);
    }
    Ok(())
}

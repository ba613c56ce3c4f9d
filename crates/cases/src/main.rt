// Runs situations whose answers were derived by hand from the rules; the file `stdout` beside `src` has those answers.
#![tactic(auto)]

mod hand;
mod held;
mod reading;
mod stories;
mod tables;
mod text;

use std::io;

fn main(rt: HostRuntime) -> io::Result<()> {
    tables::sequences(&rt)?;
    tables::kinds(&rt)?;
    tables::rows_go(&rt)?;
    tables::rings(&rt)?;
    tables::ways_back(&rt)?;
    tables::sharing(&rt)?;
    tables::full(&rt)?;
    stories::play_all(&rt)
}

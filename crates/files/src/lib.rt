// Files and standard input, as the programs read them, and what they say of a failure.
#![tactic(auto)]

ghost use Rattle.std.specs.Prelude.{◌<◌, length, take, IfOk};
ghost use Rattle.std.specs.Io.KnownBytes.{Consumes, IsAtEnd};
ghost use Rattle.files.specs.Counts.{IsPrefixLen};

use std::io::Read;
use std::rt::Files;
use std::{fs, io};

// Reads into buf until it is full or the input ends, and answers how many bytes of it were read.
pub fn fill<R: Read>(input: &mut R, buf: &mut [u8]) -> io::Result<usize>
    ensures count { IfOk result (λ n. IsPrefixLen n buf.new) }
    ensures bytes { IfOk result (λ n. Consumes (R.remaining input.old) (R.remaining input.new) (take n buf.new)) }
    ensures whole { IfOk result (λ n. n < length buf.new → IsAtEnd (R.remaining input.new)) }
{
    // std's read_to_end takes a Vec, and the project has no heap; its read_exact fails where the input ends first.
    let mut done = 0;
    while done < buf.len() {
        let n = input.read(&mut buf[done..])?;
        if n == 0 {
            break;
        }
        done += n;
    }
    Ok(done)
}

// The library opens paths in UTF-8 alone: a file by another name cannot be read.
fn fill_from_file<F: Files>(rt: &F, path: &[u8], buf: &mut [u8]) -> io::Result<usize>
    ensures { IfOk result (λ n. IsPrefixLen n buf.new) }
{
    let Ok(name) = str::from_utf8(path) else {
        return Ok(0);
    };
    fill(&mut fs::open(rt, name)?, buf)
}

// Puts a file at the start of buf, and answers how many bytes of it are there: all of them, or buf's length where the file has as many or more.
// "A file that cannot be read counts as empty": also one that cannot be read to its end.
pub fn load<F: Files>(rt: &F, path: &[u8], buf: &mut [u8]) -> usize
    ensures { IsPrefixLen result buf.new }
{
    fill_from_file(rt, path, buf).unwrap_or(0)
}

// Says on standard error what has failed, if something has: its name, a colon and the system's words.
pub fn tell_failure(rt: &impl Eprint, name: &str, done: io::Result<()>) {
    if let Err(e) = done {
        let _ = eprintln!(rt; "{name}: {e}");
    }
}

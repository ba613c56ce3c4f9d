// Writes the key of the file `paper` to the file `key`, or prints why there is none.
#![tactic(auto)]

use papers::layout::Refusal;
use std::fs;
use std::rt::Files;

// Makes the file `key` anew.
fn save(rt: &(impl Files + Eprint), key: &[u8]) {
    files::tell_failure(rt, "key", fs::write(rt, "key", key));
}

// Prints the line of a refusal.
fn report(rt: &(impl Print + Eprint), r: Refusal) {
    let mut out = [0u8; 64];
    let n = line::refused(r, &mut out);
    files::tell_failure(rt, "standard output", rt.write_all(&out[..n]));
}

// Makes the key in `space`, and saves it or says why there is none.
fn make_key(rt: &(impl Files + Print + Eprint), paper: &[u8], space: &mut [u8]) {
    match marker::key(paper, space) {
        Ok(n) => save(rt, &space[..n]),
        Err(r) => report(rt, r),
    }
}

fn main(rt: HostRuntime) {
    // 65,536 bytes each: above the longest paper (21,036), so that a longer file stays too long, and above the longest key (16,006).
    let mut paper = [0u8; 65536];
    let n = files::load(&rt, b"paper", &mut paper);
    let mut space = [0u8; 65536];
    make_key(&rt, &paper[..n], &mut space);
}

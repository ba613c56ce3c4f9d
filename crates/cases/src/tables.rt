// Tables of lock rows.
use crate::held::Held;
use crate::reading::sequence;
use crate::text::{answer, quote, say, show};
use locks::rows::Row;
use std::io;

// The first 16 bytes of s are the sequence.
fn row(owner: u16, shared: bool, s: &[u8]) -> Row {
    Row {
        owner,
        shared,
        len: s.len().min(16) as u8,
        bytes: sequence(s),
    }
}

// 3 asks for x behind 2's y, both unshared.
fn behind(rt: &impl Print, x: &[u8], y: &[u8]) -> io::Result<()> {
    let t = Held::new().with(row(2, false, y));
    quote(rt, x)?;
    print!(rt; " behind ")?;
    quote(rt, y)?;
    answer(rt, &t, row(3, false, x))
}

pub(crate) fn sequences(rt: &impl Print) -> io::Result<()> {
    say(rt, "Sequences: 3 asks behind 2, both unshared")?;
    behind(rt, b"AB", b"ABC")?;
    behind(rt, b"ABC", b"AB")?;
    behind(rt, b"A", b"A\0")?;
    behind(rt, b"A\0", b"A")?;
    behind(rt, b"AB", b"AC")?;
    behind(rt, b"AB", b"AB")?;
    behind(rt, b"A", b"A")?;
    behind(rt, b"A", b"B")?;
    behind(rt, b"0123456789ABCDEF", b"0123456789ABCDEF")?;
    behind(rt, b"0123456789ABCDEF", b"0123456789ABCDEG")?;
    behind(rt, b"0123456789ABCDE", b"0123456789ABCDEF")
}

fn asks(rt: &impl Print, t: &Held, r: Row, who: &str) -> io::Result<()> {
    print!(rt; "{who}")?;
    answer(rt, t, r)
}

pub(crate) fn kinds(rt: &impl Print) -> io::Result<()> {
    say(rt, "Kinds: requests for P")?;
    let s = Held::new().with(row(2, true, b"P"));
    asks(rt, &s, row(3, true, b"P"), "shared behind shared")?;
    asks(rt, &s, row(3, false, b"P"), "unshared behind shared")?;
    asks(
        rt,
        &s,
        row(2, false, b"P"),
        "unshared behind one's own shared",
    )?;
    behind_waiter(rt, s.with(row(3, false, b"P")))
}

// 2 holds P shared, 3 waits for it unshared.
fn behind_waiter(rt: &impl Print, w: Held) -> io::Result<()> {
    let p = row(4, true, b"P");
    asks(rt, &w, p, "shared behind shared and an unshared waiter")?;
    asks(rt, &w, row(4, true, b"Q"), "another sequence")?;
    say(rt, "The waiter's row goes")?;
    asks(rt, &w.without_waiting(3), p, "shared behind shared")?;
    say(rt, "2 ends")?;
    asks(rt, &w.without_owner(2), p, "shared behind unshared")
}

pub(crate) fn rows_go(rt: &impl Print) -> io::Result<()> {
    say(rt, "2 and 3 ask shared, 4 unshared, 5 shared; 4 holds Q")?;
    let t = Held::new()
        .with(row(2, true, b"P"))
        .with(row(3, true, b"P"))
        .with(row(4, false, b"Q"))
        .with(row(4, false, b"P"))
        .with(row(5, true, b"P"));
    show(rt, &t)?;
    say(rt, "2 unlocks")?;
    three_left(rt, t.without_twin(row(2, false, b"P")))
}

// 3 holds P shared, 4 holds Q and waits for P, 5 waits for P.
fn three_left(rt: &impl Print, t: Held) -> io::Result<()> {
    show(rt, &t)?;
    say(rt, "3 unlocks PQ, which it does not have")?;
    show(rt, &t.without_twin(row(3, true, b"PQ")))?;
    say(rt, "a trap takes 4's waiting row")?;
    show(rt, &t.without_waiting(4))?;
    say(rt, "3 ends")?;
    two_left(rt, t.without_owner(3))
}

// 4 holds Q and P, 5 waits for P.
fn two_left(rt: &impl Print, t: Held) -> io::Result<()> {
    show(rt, &t)?;
    say(rt, "waiting rows of 4, of 5")?;
    let four = u8::from(t.is_waiting(4));
    let five = u8::from(t.is_waiting(5));
    println!(rt; "{four} {five}")?;
    say(rt, "4 ends")?;
    show(rt, &t.without_owner(4))
}

fn one(owner: u8, x: u8) -> Row {
    row(u16::from(owner), false, &[x])
}

// Each of 1 to n holds the sequence of its own number, and each but n waits for the next one's.
fn line(n: u8) -> Held {
    let mut t = Held::new().with(one(1, 1));
    for p in 1..n {
        let next = p + 1;
        t = t.with(one(next, next)).with(one(p, next));
    }
    t
}

fn ring(rt: &impl Print, m: u8, n: u8) -> io::Result<()> {
    print!(rt; "1 to {n} in a line, the last asks of the first")?;
    answer(rt, &line(n), one(n, 1))?;
    print!(rt; "1 to {m} in a line, another asks of the first")?;
    answer(rt, &line(m), one(n, 1))
}

pub(crate) fn rings(rt: &impl Print) -> io::Result<()> {
    say(
        rt,
        "Rings, and chains that do not return: each in the line waits for the next",
    )?;
    for m in 1..16 {
        ring(rt, m, m + 1)?;
    }
    Ok(())
}

pub(crate) fn ways_back(rt: &impl Print) -> io::Result<()> {
    say(rt, "Ways back: 2 holds x, 3 holds y, 2 waits for y")?;
    let t = Held::new()
        .with(one(2, b'x'))
        .with(one(3, b'y'))
        .with(one(2, b'y'));
    asks(rt, &t, one(3, b'x'), "3 asks x")?;
    asks(rt, &t, one(4, b'x'), "4 asks x")?;
    ring_there(rt, t.with(one(3, b'x')))?;
    neighbours(rt)
}

fn ring_there(rt: &impl Print, t: Held) -> io::Result<()> {
    say(rt, "3 waits for x, a ring that no paper reaches; 5 holds z")?;
    let r = t.with(one(5, b'z'));
    asks(rt, &r, one(4, b'x'), "4 asks x")?;
    asks(rt, &r, one(2, b'z'), "2 asks z")
}

fn neighbours(rt: &impl Print) -> io::Result<()> {
    say(rt, "4 holds x, 2 waits for x, 3 holds y")?;
    let t = Held::new()
        .with(one(4, b'x'))
        .with(one(2, b'x'))
        .with(one(3, b'y'));
    asks(rt, &t, one(3, b'x'), "3 asks x")?;
    say(rt, "3 waits for x too")?;
    asks(rt, &t.with(one(3, b'x')), one(4, b'y'), "4 asks y")
}

// 2 and 3 share P, 4 holds y.
fn sharers() -> Held {
    Held::new()
        .with(row(2, true, b"P"))
        .with(row(3, true, b"P"))
        .with(one(4, b'y'))
}

pub(crate) fn sharing(rt: &impl Print) -> io::Result<()> {
    say(rt, "2 and 3 share P, 4 holds y")?;
    let t = sharers();
    let p = row(4, false, b"P");
    asks(rt, &t, p, "4 asks P")?;
    asks(rt, &t.with(one(2, b'y')), p, "4 asks P, 2 waits for y")?;
    asks(rt, &t.with(one(3, b'y')), p, "4 asks P, 3 waits for y")?;
    behind_sharers(rt, t.with(p))
}

fn behind_sharers(rt: &impl Print, t: Held) -> io::Result<()> {
    say(rt, "4 waits for P, 5 holds z and waits for P shared")?;
    let w = t.with(one(5, b'z')).with(row(5, true, b"P"));
    asks(rt, &w, one(2, b'z'), "2 asks z")?;
    asks(rt, &w, one(6, b'z'), "6 asks z")
}

fn count(rt: &impl Print, t: &Held) -> io::Result<()> {
    let n = t.count();
    println!(rt; "{n} rows")
}

pub(crate) fn full(rt: &impl Print) -> io::Result<()> {
    say(rt, "1 to 16 in a line, and 1 holds another sequence")?;
    let t = line(16).with(one(1, 99));
    count(rt, &t)?;
    asks(rt, &t, one(16, 1), "the last asks of the first")?;
    asks(rt, &t, one(16, 98), "the last asks what is free")?;
    say(rt, "A row more has no place")?;
    count(rt, &t.with(one(16, 98)))?;
    say(rt, "1 ends")?;
    let u = t.without_owner(1);
    count(rt, &u)?;
    asks(rt, &u, one(16, 1), "the last asks what the first held")?;
    asks(rt, &u, one(16, 2), "the last asks of the second")
}

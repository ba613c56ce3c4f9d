// The calls that touch their caller alone, take and the wake report. The caller is the process at place i.
ghost use Rattle.std.specs.Prelude.{◌≡◌, ◌+◌, ◌*◌, ◌<◌, ◌≤◌, eqb, get_or};
ghost use Rattle.rules.specs.Signals.{taken};
ghost use Rattle.rules.specs.Calls.{set_prior, set_signal, do_sleep, own_call};
ghost use Rattle.rules.specs.Step.{reported};
ghost use Rattle.rules.specs.declared.state.Event.{Event};
ghost use Rattle.rules.specs.declared.calls.OwnCall.TheVariants.{Alarm, Pause};
ghost use Rattle.places.specs.Places.{PLACE, PLACES, USER, PENDING};
ghost use Rattle.places.specs.Settled.{Does, Asks, told};
ghost use Rattle.calls.specs.Own.{field_at, get_id_at, set_id_at, wrong_ids, wrong_signal};

use numbers::in_priority;
use places::answers::*;
use places::fields::*;
use rules::calls::*;
use rules::outcome::*;
use std::mem;

// In 32-bit two's complement, the first of the negative numbers.
const NEGATIVE: u32 = 2147483648;

// The registers of an event that a call may read.
#[derive(Clone, Copy)]
pub struct Registers {
    pub d1: u32,
    pub d2: u32,
    pub d3: u32,
    pub a0: u32,
}

// The user ids or the group ids, by the field of the first.
#[derive(Clone, Copy)]
enum IdKind {
    User = USER as isize,
    Group = GROUP as isize,
}

// The field of the id of that code.
fn field(ids: IdKind, code: u32) -> usize
    requires { code ≤ 2 }
    ensures { result ≡ field_at ids code }
{
    ids as usize + code as usize
}

fn get_id(m: &Numbers, i: usize, ids: IdKind, d2: u32) -> Result<Reply, Refusal>
    requires { i < PLACES }
    ensures { (e : Event) → e.d2 ≡ d2 → Does (λ p. get_id_at ids p e) m.now i (told result) m.now }
{
    if 2 < d2 {
        return Err(Refusal::Badcall);
    }
    Ok(plain(AnswerKind::Done, of(m, i, field(ids, d2)), 0))
}

fn bad_ids(d1: u32, d2: u32, d3: u32) -> bool
    ensures { result ≡ wrong_ids d1 d2 d3 }
{
    2 < d1 || 3 < d2 || (d2 == 3 && 65535 < d3)
}

fn set_id(
    m: &mut Numbers,
    i: usize,
    ids: IdKind,
    d1: u32,
    d2: u32,
    d3: u32,
) -> Result<Reply, Refusal>
    requires { i < PLACES }
    ensures { (e : Event) → e.d1 ≡ d1 → e.d2 ≡ d2 → e.d3 ≡ d3 → Does (λ p. set_id_at ids p e) m.old i (told result) m.new }
{
    if bad_ids(d1, d2, d3) {
        return Err(Refusal::Badcall);
    }
    if d2 == 3 && of(m, i, USER) != 0 {
        return Err(Refusal::Priv);
    }
    let id = if d2 == 3 {
        d3
    } else {
        of(m, i, field(ids, d2))
    };
    set(m, i, field(ids, d1), id);
    Ok(plain(AnswerKind::Done, 0, 0))
}

fn set_prior(m: &mut Numbers, i: usize, d3: u32) -> Result<Reply, Refusal>
    requires { i < PLACES }
    ensures { (e : Event) → e.d3 ≡ d3 → Does (λ p. set_prior p e) m.old i (told result) m.new }
{
    if !in_priority(d3) {
        return Err(Refusal::Badcall);
    }
    if NEGATIVE <= d3 && of(m, i, USER) != 0 {
        return Err(Refusal::Priv);
    }
    set(m, i, PRIORITY, d3);
    Ok(plain(AnswerKind::Done, 0, 0))
}

// Signal 3 is kill, which takes no reaction.
fn bad_signal(d2: u32) -> bool
    ensures { result ≡ wrong_signal d2 }
{
    !matches!(d2, 1 | 2 | 4..=7)
}

fn set_signal(m: &mut Numbers, i: usize, d2: u32, a0: u32) -> Result<Reply, Refusal>
    requires { i < PLACES }
    ensures { (e : Event) → e.d2 ≡ d2 → e.a0 ≡ a0 → Does (λ p. set_signal p e) m.old i (told result) m.new }
{
    if bad_signal(d2) || of(m, i, PID) == 1 {
        return Err(Refusal::Badcall);
    }
    let k = (d2 - 1) as usize;
    let old = of(m, i, REACTIONS + k);
    set(m, i, REACTIONS + k, a0);
    Ok(plain(AnswerKind::Done, 0, old))
}

fn do_sleep(m: &mut Numbers, i: usize, d3: u32) -> Reply
    requires { i < PLACES }
    ensures { (e : Event) → e.d3 ≡ d3 → Does (λ p. do_sleep p e) m.old i result m.new }
{
    if d3 == 0 {
        return plain(AnswerKind::Done, 0, 0);
    }
    set(m, i, SLEEP, FOR_TIME);
    set(m, i, SECONDS, d3);
    plain(AnswerKind::NowAsleep, 0, 0)
}

fn set_alarm(m: &mut Numbers, i: usize, d3: u32) -> Reply
    requires { i < PLACES }
    ensures { (e : Event) → e.d3 ≡ d3 → Does (λ p. own_call Alarm p e) m.old i result m.new }
{
    set(m, i, ALARM, d3);
    plain(AnswerKind::Done, 0, 0)
}

fn do_pause(m: &mut Numbers, i: usize) -> Reply
    requires { i < PLACES }
    ensures { (e : Event) → Does (λ p. own_call Pause p e) m.old i result m.new }
{
    set(m, i, SLEEP, FOR_SIGNAL);
    set(m, i, SECONDS, 0);
    plain(AnswerKind::NowAsleep, 0, 0)
}

pub fn own_call(m: &mut Numbers, i: usize, c: OwnCall, r: Registers) -> Result<Reply, Refusal>
    requires { i < PLACES }
    ensures { (e : Event) → Asks e r.d1 r.d2 r.d3 r.a0 → Does (λ p. own_call c p e) m.old i (told result) m.new }
{
    match c {
        OwnCall::GetUser => get_id(m, i, IdKind::User, r.d2),
        OwnCall::SetUser => set_id(m, i, IdKind::User, r.d1, r.d2, r.d3),
        OwnCall::GetGroup => get_id(m, i, IdKind::Group, r.d2),
        OwnCall::SetGroup => set_id(m, i, IdKind::Group, r.d1, r.d2, r.d3),
        OwnCall::GetPrior => Ok(plain(AnswerKind::Done, of(m, i, PRIORITY), 0)),
        OwnCall::SetPrior => set_prior(m, i, r.d3),
        OwnCall::GetProc => Ok(plain(AnswerKind::Done, of(m, i, PID), 0)),
        OwnCall::Signal => set_signal(m, i, r.d2, r.a0),
        OwnCall::Sleep => Ok(do_sleep(m, i, r.d3)),
        OwnCall::Alarm => Ok(set_alarm(m, i, r.d3)),
        OwnCall::Pause => Ok(do_pause(m, i)),
    }
}

// The lowest pending signal is handed out, with its address.
pub fn take(m: &mut Numbers, i: usize) -> Reply
    requires { (i < PLACES) × (get_or m.old (i * PLACE + PENDING) 0 < 256) }
    ensures { Does taken m.old i result m.new }
{
    let pending = of(m, i, PENDING) as u8;
    if pending == 0 {
        return plain(AnswerKind::Done, 0, 0);
    }
    let z = pending.trailing_zeros();
    let k = z as usize;
    // The eighth bit has no trap.
    let a = if k < 7 {
        mem::take(&mut m[i * PLACE + (TRAPS + k)])
    } else {
        0
    };
    set(m, i, PENDING, (pending ^ (1u8 << k)) as u32);
    plain(AnswerKind::Done, z + 1, a)
}

pub fn report(m: &Numbers, i: usize) -> Reply
    requires { i < PLACES }
    ensures { Does reported m.now i result m.now }
{
    plain(AnswerKind::Done, of(m, i, LEFT), of(m, i, WAKE))
}

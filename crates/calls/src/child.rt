// The child that fshell makes. The parent is the process at place i.
ghost use Rattle.std.specs.Prelude.{◌≡◌, List, ℕ, ◌≤◌, ◌<◌, get_or};
ghost use Rattle.locks.specs.Lists.{bit};
ghost use Rattle.rules.specs.Calls.{child_reaction, do_fshell};
ghost use Rattle.rules.specs.declared.state.Event.{Event};
ghost use Rattle.places.specs.Places.{PLACE, PLACES, USER, REACTIONS, LIVE, NEXT, Housed, Calls, caller, machine};
ghost use Rattle.locks.specs.Pieces.{stores};
ghost use Rattle.calls.specs.Making.{run, id_in, reaction_in};
ghost use Rattle.places.specs.Settled.{Settled, told};

use places::answers::*;
use places::fields::*;
use rules::outcome::*;

// The next PID when all are used.
const SPENT: u32 = 65536;

// Kill among the reactions.
const KILL: usize = 2;

fn bit_of(i: usize, n: u32) -> bool
    requires { i < 16 }
    ensures { result ≡ bit i n }
{
    (n >> i) % 2 == 1
}

#[tactic(auto, unfolding(rules::specs::Calls::child_reaction))]
fn child_reaction(d1: u32, d2: u32, k: usize, a: u32) -> u32
    requires { k < 16 }
    ensures { result ≡ child_reaction d1 d2 k a }
{
    if bit_of(k, d1) {
        if bit_of(k, d2) { IGNORE } else { ABORT }
    } else {
        if a == IGNORE { IGNORE } else { ABORT }
    }
}

// The parent's ids and priority, which stand together, for the child at place j.
fn put_ids(m: &mut Numbers, j: usize, i: usize)
    requires { (i < j) × (j < PLACES) }
    ensures { m.new ≡ stores PLACE m.old j (run USER (id_in m.old i) 7) }
{
    let ids = i * PLACE + USER;
    m.copy_within(ids..ids + 7, j * PLACE + USER);
}

// The child's reactions; kill is always abort.
fn put_reactions(m: &mut Numbers, j: usize, i: usize, d1: u32, d2: u32)
    requires { (i < j) × (j < PLACES) }
    ensures { m.new ≡ stores PLACE m.old j (run REACTIONS (reaction_in d1 d2 m.old i) 7) }
{
    for k in 0..7 {
        let r = if k == KILL {
            ABORT
        } else {
            child_reaction(d1, d2, k, of(m, i, REACTIONS + k))
        };
        set(m, j, REACTIONS + k, r);
    }
}

// The child comes behind the live, where all is zero.
pub fn fshell(m: &mut Numbers, i: usize, d1: u32, d2: u32) -> Result<Reply, Refusal>
    requires { Housed m.old × (i < get_or m.old LIVE 0) × (get_or m.old NEXT 0 ≤ 65536) }
    ensures { (e : Event) (t : List ℕ) → e.d1 ≡ d1 → e.d2 ≡ d2 → Calls m.old t i → Settled (machine m.old t) (do_fshell (caller m.old t i) e (machine m.old t)) (told result) m.new t }
{
    if 255 < d1 || 255 < d2 {
        return Err(Refusal::Badcall);
    }
    let j = m[LIVE] as usize;
    let pid = m[NEXT];
    if j == PLACES || pid == SPENT {
        return Err(Refusal::Nomemory);
    }
    m[LIVE] += 1;
    m[NEXT] = pid + 1;
    set(m, j, PID, pid);
    put_ids(m, j, i);
    put_reactions(m, j, i, d1, d2);
    Ok(plain(AnswerKind::Done, pid, 0))
}

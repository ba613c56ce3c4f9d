// The events of a paper.
ghost use Rattle.std.specs.Prelude.{◌≡◌, ◌+◌, ◌*◌};
ghost use Rattle.papers.specs.Events.{sequence_of, event_at};

use crate::bytes::*;
use crate::entries::entry_at;
use rules::state::Event;

// Sequence n of a paper, counted from 1; zeros for none.
fn sequence(p: &[u8], n: u16) -> [u8; 16]
    ensures { result ≡ sequence_of p.now n }
{
    if n == 0 {
        return [0; 16];
    }
    let from = number(p, 8) as u32;
    bytes_at(p, from + 16 * ((n - 1) as u32))
}

// Event i of a paper, counted from 0.
pub fn event(p: &[u8], i: u16) -> Event
    ensures { result ≡ event_at p.now (12 + 20 * i) }
{
    let e = entry_at(p, 12 + 20 * (i as u32));
    Event {
        kind: e.kind,
        call: e.call,
        caller: e.caller,
        d0: e.d0,
        d1: e.d1,
        d2: e.d2,
        d3: e.d3,
        a0: e.a0,
        named: e.sequence != 0,
        seq: sequence(p, e.sequence),
    }
}

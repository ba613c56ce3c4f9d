// The whole state.
ghost use Rattle.std.specs.Prelude.{◌≡◌, ◌&&◌, ◌≤◌, leb, length};
ghost use Rattle.locks.specs.Lists.{all, between};
ghost use Rattle.locks.specs.Rows.{zero_row, sound_row, apart};
ghost use Rattle.rules.specs.State.{pids};
ghost use Rattle.rules.specs.Sound.{pids_fit, zero_process, sound_process, sound};

use crate::process::*;
use crate::rows::*;
use locks::rows::*;
use rules::state::*;
use std::array::from_fn;

pub fn pids_of(s: State) -> [u16; 16]
    ensures { result ≡ pids s.procs }
{
    from_fn(|i| s.procs[i].pid)
}

fn pids_fit(ns: &[u16], next: u32) -> bool
    ensures { result ≡ pids_fit ns.now next }
{
    if ns.first() != Some(&1) {
        return false;
    }
    let mut low: u32 = 1;
    for n in ns {
        if u32::from(*n) < low {
            return false;
        }
        low = u32::from(*n) + 1;
    }
    low <= next && next <= 65536
}

// Document 01: "Counts of processes and rows .. lie in the ranges above".
fn counts_fit(live: usize, used: usize) -> bool
    ensures { result ≡ (between 1 16 live && leb used 32) }
{
    (1..=16).contains(&live) && used <= 32
}

fn are_unused(procs: &[Process], rows: &[Row]) -> bool
    ensures { result ≡ (all zero_process procs.now && all zero_row rows.now) }
{
    procs.iter().all(zero_process) && rows.iter().all(zero_row)
}

// `ns` are the PIDs of the live.
fn are_sound(rows: &[Row], procs: &[Process], ns: &[u16]) -> bool
    requires { length rows.now ≤ 32 }
    ensures { result ≡ (all (sound_row ns.now) rows.now && apart rows.now && all (sound_process rows.now) procs.now) }
{
    let Some(waiters) = waiters_of(rows, ns) else {
        return false;
    };
    procs
        .iter()
        .all(|p| sound_process(p, waiters.count_of(p.pid)))
}

pub fn is_sound(s: State) -> bool
    ensures { result ≡ sound s }
{
    if !counts_fit(s.live, s.table.used) {
        return false;
    }
    let ns = pids_of(s);
    let ns = &ns[..s.live];
    let (live, unused) = s.procs.split_at(s.live);
    let (rows, unused_rows) = s.table.rows.split_at(s.table.used);
    pids_fit(ns, s.next) && are_unused(unused, unused_rows) && are_sound(rows, live, ns)
}

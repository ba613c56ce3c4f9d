// A process ends: its rows go, and those behind it move up.
ghost use Rattle.std.specs.Prelude.{◌≡◌, not, ◌≤◌, get_or};
ghost use Rattle.locks.specs.Lists.{keep};
ghost use Rattle.locks.specs.declared.rows.Row.{Row};
ghost use Rattle.locks.specs.declared.rows.Part.TheVariants.{Twin};
ghost use Rattle.rules.specs.State.{has, rows_left};
ghost use Rattle.rules.specs.Signals.{ends};
ghost use Rattle.locks.specs.Cells.{staying};
ghost use Rattle.signals.specs.Moved.{Moved};
ghost use Rattle.places.specs.Places.{USED, NEXT, Procs, Housed, procs_in};
ghost use Rattle.places.specs.Settled.{Show, Whole, shown};

use locking::release;
use locks::cells::Cell;
use locks::rows::Part;
use places::arrays::Arrays;
use places::fields::*;

// The process of that PID goes, and those behind it move up; how many stay. What lies behind them is as it was.
fn move_up(m: &mut Numbers, pid: u32) -> usize
    requires { Housed m.old }
    ensures { Moved pid m.old m.new result }
{
    // Where the next one that stays goes: behind i as soon as one has gone.
    let mut k = 0;
    for i in 0..m[LIVE] as usize {
        if of(m, i, PID) != pid {
            if k < i {
                m.copy_within(i * PLACE..(i + 1) * PLACE, k * PLACE);
            }
            k += 1;
        }
    }
    k
}

fn remove(m: &mut Numbers, pid: u32)
    requires { Housed m.old }
    ensures { Procs m.new (keep (λ p. not (has pid p)) (procs_in m.old)) (get_or m.old USED 0) (get_or m.old NEXT 0) }
{
    let live = m[LIVE] as usize;
    let k = move_up(m, pid);
    m[k * PLACE..live * PLACE].fill(0);
    m[LIVE] = k as u32;
}

// The rows of that part of the owner's go, and who waits no longer wakes.
pub(crate) fn lose_rows(arrays: &mut Arrays, pid: u32, part: Part)
    requires { Whole arrays.old × (part ≡ Twin → ⊥) }
    ensures { (r : Row) → r.owner ≡ pid → Show arrays.new (rows_left (staying part r (shown arrays.old).rows) (shown arrays.old)) }
{
    let c = Cell {
        owner: pid as u64,
        ..Cell::default()
    };
    release(arrays, c, part);
}

pub(crate) fn end_process(arrays: &mut Arrays, pid: u32)
    requires { Whole arrays.old }
    ensures { Show arrays.new (ends pid (shown arrays.old)) }
{
    lose_rows(arrays, pid, Part::All);
    remove(&mut arrays.numbers, pid);
}

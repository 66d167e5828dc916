// The step and the push over a script that is lent as entries. Both answer for any record and any lent lengths. Their loops read one entry at a time and leave everything else to
// crate `step`.
#![tactic(auto)]

ghost use Rattle.std.specs.Prelude.{◌≡◌, length};
ghost use Rattle.board.specs.Steps.{new_refused, new_call, new_bank};
ghost use Rattle.script.specs.Entries.{entries_at};
ghost use Rattle.step.specs.Step.{ran, finished_of, pushed_of};
ghost use Rattle.board_entries.specs.Entries.{spot_in, stored_at};

use board::{Done, made};
use records::Action;
use script::{Entry, look};
use state::Board;
use step::{Stepped, begun, finished, front_place, placed, pushed, turned};

// A new board at `hz`, with empty queue and script, whose memory it leaves alone; the banks are zeroed.
pub fn new(hz: u64, queue: &[u8], script: &[Entry], icfg: &mut [u32], icfg1: &mut [u32]) -> Done
    ensures { (result ≡ new_call hz (length queue.now) (length script.now) (length icfg.old) (length icfg1.old))
        × (icfg.new ≡ new_bank (new_refused hz (length queue.now) (length script.now) (length icfg.old) (length icfg1.old)) icfg.old)
        × (icfg1.new ≡ new_bank (new_refused hz (length queue.now) (length script.now) (length icfg.old) (length icfg1.old)) icfg1.old) }
{
    let f = look(script, 0);
    made(hz, queue.len(), f.len, icfg, icfg1)
}

// Advances by `cycles` and hands out what came due; actions that came due are applied, and written to `out` as records with the times that the script gave.
pub fn advance(b: Board, cycles: u64, queue: &mut [u8], script: &[Entry], out: &mut [u8]) -> Stepped
    ensures { (result ≡ finished_of (ran b cycles (entries_at script.now) (length script.now) queue.old out.old).0)
        × (queue.new ≡ (ran b cycles (entries_at script.now) (length script.now) queue.old out.old).1.0)
        × (out.new ≡ (ran b cycles (entries_at script.now) (length script.now) queue.old out.old).1.1) }
{
    let f = look(script, front_place(b));
    let mut g = begun(b, cycles, f, queue, out);
    while g.on {
        g = turned(g, script[g.place], queue, out);
    }
    finished(g)
}

// An entry onto the script. STATE also where entries wait and the lent front's time is not the record's: record and memory were not handed on together.
pub fn push(b: Board, script: &mut [Entry], time: u64, action: Action) -> Done
    ensures { (result ≡ pushed_of (spot_in b script.old time)) × (script.new ≡ stored_at (spot_in b script.old time) script.old (record { at = time; action = action })) }
{
    let f = look(script, front_place(b));
    let s = placed(b, f, time);
    if s.ok {
        script[s.place] = Entry { at: time, action };
    }
    pushed(s)
}

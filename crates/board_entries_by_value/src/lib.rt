// The calls of `board_entries` for whoever holds the script by value: each lends its own copy of the script and answers as the call does.
#![tactic(auto)]

ghost use Rattle.std.specs.Prelude.{◌≡◌, length};
ghost use Rattle.board.specs.Steps.{new_refused, new_call, new_bank};
ghost use Rattle.board_entries.specs.Entries.{spot_in, stored_at};
ghost use Rattle.script.specs.Entries.{entries_at};
ghost use Rattle.step.specs.Step.{ran, finished_of, pushed_of};

use board::Done;
use records::Action;
use script::{Entry, SCRIPT_LEN};
use state::Board;
use step::Stepped;

// What a push answers, and the script after it.
#[derive(Clone, Copy)]
pub struct Held {
    pub pushing: Done,
    pub script: [Entry; SCRIPT_LEN],
}

pub fn new_in(
    hz: u64,
    queue: &[u8],
    script: [Entry; SCRIPT_LEN],
    icfg: &mut [u32],
    icfg1: &mut [u32],
) -> Done
    ensures { (result ≡ new_call hz (length queue.now) (length script) (length icfg.old) (length icfg1.old))
        × (icfg.new ≡ new_bank (new_refused hz (length queue.now) (length script) (length icfg.old) (length icfg1.old)) icfg.old)
        × (icfg1.new ≡ new_bank (new_refused hz (length queue.now) (length script) (length icfg.old) (length icfg1.old)) icfg1.old) }
{
    board_entries::new(hz, queue, &script, icfg, icfg1)
}

pub fn advance_in(
    b: Board,
    cycles: u64,
    queue: &mut [u8],
    script: [Entry; SCRIPT_LEN],
    out: &mut [u8],
) -> Stepped
    ensures { (result ≡ finished_of (ran b cycles (entries_at script) (length script) queue.old out.old).0)
        × (queue.new ≡ (ran b cycles (entries_at script) (length script) queue.old out.old).1.0)
        × (out.new ≡ (ran b cycles (entries_at script) (length script) queue.old out.old).1.1) }
{
    board_entries::advance(b, cycles, queue, &script, out)
}

fn with_script(p: Done, script: [Entry; SCRIPT_LEN]) -> Held
    ensures { (result.pushing ≡ p) × (result.script ≡ script) }
{
    Held { pushing: p, script }
}

pub fn push_in(b: Board, script: [Entry; SCRIPT_LEN], time: u64, action: Action) -> Held
    ensures { (result.pushing ≡ pushed_of (spot_in b script time)) × (result.script ≡ stored_at (spot_in b script time) script (record { at = time; action = action })) }
{
    let mut s = script;
    let p = board_entries::push(b, &mut s, time, action);
    with_script(p, s)
}

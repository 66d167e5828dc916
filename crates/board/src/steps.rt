// The calls that make a board, act on it and reset it.
ghost use Rattle.std.specs.Prelude.{◌≡◌, ◌≤◌, ◌<◌, ◌^◌, length};
ghost use Rattle.state.specs.State.{board_new};
ghost use Rattle.board_guard.specs.Answers.{turned_of};
ghost use Rattle.board.specs.Steps.{rate_refused, new_refused, new_call, new_bank, apply_call, apply_queue, reset_call, reset_first, reset_second};

use base::{CLOCK, COUNT, COUNT_MAX, SIZE, STATE};
use board_guard::{Done, banks, broken, size, turned_away};
use records::Action;
use script::SCRIPT_LEN;
use state::Board;
use step::zero;
use uart::QUEUE_LEN;

const RATE_MIN: u64 = base::RATE_MIN as u64;

const RATE_MAX: u64 = base::RATE_MAX as u64;

// ---- making a board

#[tactic(auto, unfolding(crate::specs::Steps::rate_refused))]
fn rate(hz: u64) -> u32
    ensures { result ≡ rate_refused hz }
{
    if hz < RATE_MIN {
        return CLOCK;
    }
    if RATE_MAX < hz {
        return CLOCK;
    }
    0
}

#[tactic(auto, unfolding(crate::specs::Steps::new_refused))]
fn new_refused(hz: u64, queue: usize, script: usize, first: usize, second: usize) -> u32
    ensures { result ≡ new_refused hz queue script first second }
{
    if rate(hz) != 0 {
        return CLOCK;
    }
    if queue != QUEUE_LEN {
        return SIZE;
    }
    if script != SCRIPT_LEN {
        return SIZE;
    }
    size(first, second)
}

fn fresh(hz: u32, n: u32) -> Done
    ensures { result ≡ turned_of (board_new hz) n }
{
    Done {
        board: Board::new(hz),
        refused: n,
    }
}

// A new board, told the lengths of queue and script, whose memory it leaves alone. A refused one has the rate 0 and is not whole.
#[tactic(auto, unfolding(crate::specs::Steps::new_call))]
pub fn made(hz: u64, queue: usize, script: usize, icfg: &mut [u32], icfg1: &mut [u32]) -> Done
    ensures value { result ≡ new_call hz queue script (length icfg.old) (length icfg1.old) }
    ensures first { icfg.new ≡ new_bank (new_refused hz queue script (length icfg.old) (length icfg1.old)) icfg.old }
    ensures second { icfg1.new ≡ new_bank (new_refused hz queue script (length icfg.old) (length icfg1.old)) icfg1.old }
{
    let n = new_refused(hz, queue, script, icfg.len(), icfg1.len());
    if n != 0 {
        return fresh(0, n);
    }
    zero(icfg);
    zero(icfg1);
    fresh(hz as u32, 0)
}

// ---- actions and reset

#[tactic(auto, unfolding(crate::specs::Steps::apply_call, crate::specs::Steps::apply_queue, crate::specs::Steps::apply_refused))]
pub fn apply(b: Board, action: Action, queue: &mut [u8]) -> Done
    ensures value { result ≡ apply_call b action (length queue.old) }
    ensures memory { queue.new ≡ apply_queue b action queue.old }
{
    if queue.len() != QUEUE_LEN {
        return turned_away(b, SIZE);
    }
    if broken(b) {
        return turned_away(b, STATE);
    }
    if COUNT_MAX <= b.chip.uart.dropped {
        return turned_away(b, COUNT);
    }
    turned_away(step::apply(b, action, queue), 0)
}

#[tactic(auto, unfolding(crate::specs::Steps::reset_call, crate::specs::Steps::reset_first, crate::specs::Steps::reset_second))]
pub fn chip_reset(b: Board, icfg: &mut [u32], icfg1: &mut [u32]) -> Done
    ensures value { result ≡ reset_call b (length icfg.old) (length icfg1.old) }
    ensures first { icfg.new ≡ reset_first b icfg.old icfg1.old }
    ensures second { icfg1.new ≡ reset_second b icfg.old icfg1.old }
{
    let n = banks(b, icfg.len(), icfg1.len());
    if n != 0 {
        return turned_away(b, n);
    }
    turned_away(step::chip_reset(b, icfg, icfg1), 0)
}

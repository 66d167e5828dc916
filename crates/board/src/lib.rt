// The board's public calls, all of them under one name: registers here, making a board, an action by hand and a reset in `steps`, and those of `board_runner`. Each takes the record by value, tests what
// it is given in document 01's order and answers; a call that is turned away says why by 01's number and leaves record and lent memory as they were. Calls that change the record hand it back;
// the others answer what was asked. The work is done below, by `regs`, `step` and `runner`, whose functions of the same names ask for a whole record and test nothing.
#![tactic(auto)]

mod steps;

ghost use Rattle.std.specs.Prelude.{◌≡◌, length};
ghost use Rattle.state.specs.Whole.{Whole};
ghost use Rattle.board.specs.Calls.{no_read, counted_of, read_call, write_call, write_first, write_second};

use base::CLOCK_MAX;
pub use base::{CLOCK, COUNT, FULL, PARAM, SIZE, STATE, TIME};
pub use board_guard::Done;
use board_guard::banks;
pub use board_runner::{
    Chosen, Flag, Lit, Number, Ticked, any_pending, cycle_of_ms, idle, irq_enabled, led_take,
    midi_dropped, midi_queued, ms, next_tick_due, pending_irq, pending_irq_for, set_cycle_ticks,
    set_exc_pending, set_in_isr, set_room_cap, set_skip_idle, set_spi2_pending, set_usb, set_wdt,
    spi1_irq_off, spi1_start, spi2_start, sr_shift_byte, tick, tick_room,
};
use state::Board;
pub use steps::{apply, chip_reset, made};

#[derive(Clone, Copy)]
pub struct Reading {
    pub board: Board,
    pub refused: u32,
    pub value: Option<u32>,
}

#[repr(C)]
#[derive(Clone, Copy)]
pub struct Written {
    pub board: Board,
    pub refused: u32,
    pub handled: bool,
}

// ---- registers

fn no_read(b: Board, n: u32) -> Reading
    ensures { result ≡ no_read b n }
{
    Reading {
        board: b,
        refused: n,
        value: None,
    }
}

// TIMER4's count for one who polls it: idle time is skipped first, and TIME refused where that would end past the clock's last.
#[tactic(auto, unfolding(crate::specs::Calls::counted_of))]
fn counted(mut b: Board) -> Reading
    requires { Whole b }
    ensures { result ≡ counted_of b }
{
    let c = regs::polled(b.chip);
    if CLOCK_MAX < c.clock.cycles {
        return no_read(b, TIME);
    }
    let n = c.t4.read_cnt(c.clock.cycles, c.clock.hz);
    b.chip = c;
    Reading {
        board: b,
        refused: 0,
        value: Some(n.0),
    }
}

// A read of TIMER4's count may be a poll; any other read changes nothing.
pub fn read<'a>(b: Board, addr: u32, icfg: &'a [u32], icfg1: &'a [u32]) -> Reading
    ensures { result ≡ read_call b addr icfg.now icfg1.now }
{
    let n = banks(b, icfg.len(), icfg1.len());
    if n != 0 {
        return no_read(b, n);
    }
    if regs::polls(b.chip, addr) {
        return counted(b);
    }
    Reading {
        board: b,
        refused: 0,
        value: regs::read(b.chip, icfg, icfg1, addr),
    }
}

#[tactic(auto, unfolding(crate::specs::Calls::write_call, crate::specs::Calls::write_first, crate::specs::Calls::write_second))]
pub fn write(b: Board, addr: u32, v: u32, icfg: &mut [u32], icfg1: &mut [u32]) -> Written
    ensures value { result ≡ write_call b addr v (length icfg.old) (length icfg1.old) }
    ensures first { icfg.new ≡ write_first b addr v icfg.old icfg1.old }
    ensures second { icfg1.new ≡ write_second b addr v icfg.old icfg1.old }
{
    let n = banks(b, icfg.len(), icfg1.len());
    if n != 0 {
        return Written {
            board: b,
            refused: n,
            handled: false,
        };
    }
    let d = regs::write(b, icfg, icfg1, addr, v);
    Written {
        board: d,
        refused: 0,
        handled: regs::handled(addr),
    }
}

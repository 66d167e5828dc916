// The public calls of a runner between steps: ticks and idle time, the choice of an interrupt, LEDs, SPI and the shift register, times and counts, settings. Each takes the record by value,
// tests what it is given in document 01's order and answers; a call that is turned away says why by 01's number and leaves the record as it was. The work is done by `runner`, whose functions of
// the same names ask for a whole record and test nothing.
#![tactic(auto)]

ghost use Rattle.std.specs.Prelude.{◌≡◌};
ghost use Rattle.board_runner.specs.Calls.{tick_call, room_call, next_due_call, idle_call, any_call, enabled_call, choice_call, led_call, spi1_call, spi2_call, spi1_off_call, shift_call, ms_call, cycles_call, queued_call, dropped_call, ticks_call, skip_call, isr_call, cap_call, exc_call, spi2_flag_call, usb_call, wdt_call};

use base::{
    CLOCK_MAX, COUNT, COUNT_MAX, MS_MAX, PARAM, SPI_BAUD_MAX, SPI_BYTES_MAX, STATE, TIME,
    is_deadline,
};
use board_guard::{Done, accepted, banks, broken, settled, turned_away};
use irq::{Choice, irq_enabled as enabled};
use state::Board;

#[repr(C)]
#[derive(Clone, Copy)]
pub struct Ticked {
    pub board: Board,
    pub refused: u32,
    pub due: bool,
}

#[repr(C)]
#[derive(Clone, Copy)]
pub struct Lit {
    pub board: Board,
    pub lit: [u64; 41],
    pub span: u64,
    pub refused: u32,
}

#[repr(C)]
#[derive(Clone, Copy)]
pub struct Flag {
    pub refused: u32,
    pub is: bool,
}

#[repr(C)]
#[derive(Clone, Copy)]
pub struct Number {
    pub value: u64,
    pub refused: u32,
}

#[derive(Clone, Copy)]
pub struct Chosen {
    pub refused: u32,
    pub choice: Option<Choice>,
}

// ---- ticks and idle time

#[tactic(auto, unfolding(crate::specs::Calls::tick_call, crate::specs::Calls::tick_refused))]
pub fn tick(mut b: Board) -> Ticked
    ensures { result ≡ tick_call b }
{
    if broken(b) {
        return Ticked {
            board: b,
            refused: STATE,
            due: false,
        };
    }
    if CLOCK_MAX <= b.chip.clock.cycles {
        return Ticked {
            board: b,
            refused: TIME,
            due: false,
        };
    }
    b.chip = runner::tick(b.chip);
    Ticked {
        board: b,
        refused: 0,
        due: runner::is_due(b.chip),
    }
}

#[tactic(auto, unfolding(crate::specs::Calls::room_call, board_guard::specs::Refusals::whole_refused))]
pub fn tick_room(b: Board) -> Number
    ensures { result ≡ room_call b }
{
    if broken(b) {
        return Number {
            value: 0,
            refused: STATE,
        };
    }
    Number {
        value: runner::tick_room(b.chip),
        refused: 0,
    }
}

#[tactic(auto, unfolding(crate::specs::Calls::next_due_call, board_guard::specs::Refusals::whole_refused))]
pub fn next_tick_due(b: Board) -> Flag
    ensures { result ≡ next_due_call b }
{
    if broken(b) {
        return Flag {
            refused: STATE,
            is: false,
        };
    }
    Flag {
        refused: 0,
        is: runner::next_tick_due(b.chip),
    }
}

#[tactic(auto, unfolding(crate::specs::Calls::idle_call, crate::specs::Calls::idle_refused))]
pub fn idle(b: Board) -> Done
    ensures { result ≡ idle_call b }
{
    if broken(b) {
        return turned_away(b, STATE);
    }
    if CLOCK_MAX < runner::idle_end(b.chip) {
        return turned_away(b, TIME);
    }
    accepted(b, runner::idle(b.chip))
}

// ---- interrupts

#[tactic(auto, unfolding(crate::specs::Calls::any_call, board_guard::specs::Refusals::whole_refused))]
pub fn any_pending(b: Board) -> Flag
    ensures { result ≡ any_call b }
{
    if broken(b) {
        return Flag {
            refused: STATE,
            is: false,
        };
    }
    Flag {
        refused: 0,
        is: runner::any_pending(b.chip),
    }
}

#[tactic(auto, unfolding(crate::specs::Calls::enabled_call))]
pub fn irq_enabled<'a>(b: Board, core: u32, n: u8, icfg: &'a [u32], icfg1: &'a [u32]) -> Flag
    ensures { result ≡ enabled_call b core n icfg.now icfg1.now }
{
    let refused = banks(b, icfg.len(), icfg1.len());
    if refused != 0 {
        return Flag { refused, is: false };
    }
    Flag {
        refused: 0,
        is: enabled(core, n, icfg, icfg1),
    }
}

#[tactic(auto, unfolding(crate::specs::Calls::choice_call))]
pub fn pending_irq_for<'a>(b: Board, core: u32, icfg: &'a [u32], icfg1: &'a [u32]) -> Chosen
    ensures { result ≡ choice_call b core icfg.now icfg1.now }
{
    let n = banks(b, icfg.len(), icfg1.len());
    if n != 0 {
        return Chosen {
            refused: n,
            choice: None,
        };
    }
    Chosen {
        refused: 0,
        choice: runner::pending_irq_for(b.chip, core, icfg, icfg1),
    }
}

pub fn pending_irq<'a>(b: Board, icfg: &'a [u32], icfg1: &'a [u32]) -> Chosen
    ensures { result ≡ choice_call b 0 icfg.now icfg1.now }
{
    pending_irq_for(b, 0, icfg, icfg1)
}

// ---- LEDs

// How long each LED was lit since the last call, and over how long: two whole numbers, which the host divides.
#[tactic(auto, unfolding(crate::specs::Calls::led_call, board_guard::specs::Refusals::whole_refused))]
pub fn led_take(b: Board) -> Lit
    ensures { result ≡ led_call b }
{
    if broken(b) {
        return Lit {
            board: b,
            lit: [0; 41],
            span: 0,
            refused: STATE,
        };
    }
    let t = runner::led_take(b);
    // through a variable: an array that is stored straight has no generated proof
    let lit = t.lit;
    Lit {
        board: t.board,
        lit,
        span: t.span,
        refused: 0,
    }
}

// ---- SPI and the shift register

#[tactic(auto, unfolding(crate::specs::Calls::spi1_call, crate::specs::Calls::spi1_refused))]
pub fn spi1_start(b: Board, bytes: u32, baud: u32, irq: bool) -> Done
    ensures { result ≡ spi1_call b bytes baud irq }
{
    if broken(b) {
        return turned_away(b, STATE);
    }
    if SPI_BYTES_MAX < bytes {
        return turned_away(b, PARAM);
    }
    if SPI_BAUD_MAX < baud {
        return turned_away(b, PARAM);
    }
    if COUNT_MAX <= b.chip.spi.spi1_wire {
        return turned_away(b, COUNT);
    }
    accepted(b, runner::spi1_start(b.chip, bytes, baud, irq))
}

#[tactic(auto, unfolding(crate::specs::Calls::spi2_call, crate::specs::Calls::spi2_refused))]
pub fn spi2_start(b: Board, bytes: u32, baud: u32, irq: bool) -> Done
    ensures { result ≡ spi2_call b bytes baud irq }
{
    if broken(b) {
        return turned_away(b, STATE);
    }
    if SPI_BYTES_MAX < bytes {
        return turned_away(b, PARAM);
    }
    if SPI_BAUD_MAX < baud {
        return turned_away(b, PARAM);
    }
    accepted(b, runner::spi2_start(b.chip, bytes, baud, irq))
}

#[tactic(auto, unfolding(crate::specs::Calls::spi1_off_call))]
pub fn spi1_irq_off(b: Board) -> Done
    ensures { result ≡ spi1_off_call b }
{
    settled(b, runner::spi1_irq_off(b.chip))
}

// A byte that SPI2 clocks into the matrix's shift registers.
#[tactic(auto, unfolding(crate::specs::Calls::shift_call))]
pub fn sr_shift_byte(b: Board, byte: u8) -> Done
    ensures { result ≡ shift_call b byte }
{
    settled(b, runner::sr_shift_byte(b.chip, byte))
}

// ---- times and counts

#[tactic(auto, unfolding(crate::specs::Calls::ms_call, board_guard::specs::Refusals::whole_refused))]
pub fn ms(b: Board) -> Number
    ensures { result ≡ ms_call b }
{
    if broken(b) {
        return Number {
            value: 0,
            refused: STATE,
        };
    }
    Number {
        value: runner::ms(b.chip),
        refused: 0,
    }
}

#[tactic(auto, unfolding(crate::specs::Calls::cycles_call, crate::specs::Calls::cycles_refused))]
pub fn cycle_of_ms(b: Board, ms: u64) -> Number
    ensures { result ≡ cycles_call b ms }
{
    if broken(b) {
        return Number {
            value: 0,
            refused: STATE,
        };
    }
    if MS_MAX < ms {
        return Number {
            value: 0,
            refused: PARAM,
        };
    }
    Number {
        value: runner::cycle_of_ms(b.chip, ms).0,
        refused: 0,
    }
}

// MIDI bytes that wait to arrive.
#[tactic(auto, unfolding(crate::specs::Calls::queued_call, board_guard::specs::Refusals::whole_refused))]
pub fn midi_queued(b: Board) -> Number
    ensures { result ≡ queued_call b }
{
    if broken(b) {
        return Number {
            value: 0,
            refused: STATE,
        };
    }
    Number {
        value: b.chip.uart.count as u64,
        refused: 0,
    }
}

// MIDI bytes dropped: no receiver was set up, or the queue was full.
#[tactic(auto, unfolding(crate::specs::Calls::dropped_call, board_guard::specs::Refusals::whole_refused))]
pub fn midi_dropped(b: Board) -> Number
    ensures { result ≡ dropped_call b }
{
    if broken(b) {
        return Number {
            value: 0,
            refused: STATE,
        };
    }
    Number {
        value: b.chip.uart.dropped,
        refused: 0,
    }
}

// ---- settings

#[tactic(auto, unfolding(crate::specs::Calls::ticks_call))]
pub fn set_cycle_ticks(b: Board, ticks: u64) -> Done
    ensures { result ≡ ticks_call b ticks }
{
    settled(b, runner::set_cycle_ticks(b.chip, ticks))
}

#[tactic(auto, unfolding(crate::specs::Calls::skip_call))]
pub fn set_skip_idle(b: Board, on: bool) -> Done
    ensures { result ≡ skip_call b on }
{
    settled(b, runner::set_skip_idle(b.chip, on))
}

#[tactic(auto, unfolding(crate::specs::Calls::isr_call))]
pub fn set_in_isr(b: Board, on: bool) -> Done
    ensures { result ≡ isr_call b on }
{
    settled(b, runner::set_in_isr(b.chip, on))
}

#[tactic(auto, unfolding(crate::specs::Calls::cap_call))]
pub fn set_room_cap(b: Board, cap: u64) -> Done
    ensures { result ≡ cap_call b cap }
{
    settled(b, runner::set_room_cap(b.chip, cap))
}

#[tactic(auto, unfolding(crate::specs::Calls::exc_call))]
pub fn set_exc_pending(b: Board, on: bool) -> Done
    ensures { result ≡ exc_call b on }
{
    settled(b, runner::set_exc_pending(b.chip, on))
}

#[tactic(auto, unfolding(crate::specs::Calls::spi2_flag_call))]
pub fn set_spi2_pending(b: Board, on: bool) -> Done
    ensures { result ≡ spi2_flag_call b on }
{
    settled(b, runner::set_spi2_pending(b.chip, on))
}

// A USB frame's deadline with its period, whatever the deadline.
#[tactic(auto, unfolding(crate::specs::Calls::usb_call, crate::specs::Calls::usb_refused))]
pub fn set_usb(b: Board, at: u64, period: u64) -> Done
    ensures { result ≡ usb_call b at period }
{
    if broken(b) {
        return turned_away(b, STATE);
    }
    if is_deadline(at) {
        if period == 0 {
            return turned_away(b, PARAM);
        }
        if CLOCK_MAX < period {
            return turned_away(b, PARAM);
        }
        return accepted(b, runner::set_usb(b.chip, at, period));
    }
    turned_away(b, PARAM)
}

#[tactic(auto, unfolding(crate::specs::Calls::wdt_call, crate::specs::Calls::wdt_refused))]
pub fn set_wdt(b: Board, at: u64) -> Done
    ensures { result ≡ wdt_call b at }
{
    if broken(b) {
        return turned_away(b, STATE);
    }
    if is_deadline(at) {
        return accepted(b, runner::set_wdt(b.chip, at));
    }
    turned_away(b, PARAM)
}

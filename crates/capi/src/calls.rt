// The board's calls, each by the name that it has inside with `fm1_` before it, and the names of keys and encoders. Lent memory crosses as a pointer and a length, a flag as a byte:
// 0 is no, any other yes.
ghost use Rattle.std.specs.Prelude.{◌≡◌, length};
ghost use Rattle.board_runner.specs.Calls.{tick_call, room_call, next_due_call, idle_call, any_call, enabled_call, choice_call, led_call, spi1_call, spi2_call, spi1_off_call, shift_call, ms_call, cycles_call, queued_call, dropped_call, ticks_call, skip_call, isr_call, cap_call, exc_call, spi2_flag_call, usb_call, wdt_call};
ghost use Rattle.board.specs.Calls.{read_call, write_call, write_first, write_second};
ghost use Rattle.board.specs.Steps.{new_refused, new_call, new_bank, apply_call, apply_queue, reset_call, reset_first, reset_second};
ghost use Rattle.names.specs.Names.{key_id_of, enc_id_of};
ghost use Rattle.script.specs.Words.{word_of, action_of, words_at, places_in};
ghost use Rattle.step.specs.Step.{ran, step_of, pushed_of};
ghost use Rattle.board_words.specs.Words.{spot_in, stored_words};
ghost use Rattle.capi_answers.specs.Edge.{of_reading, of_stepped, of_chosen, of_id};
ghost use Rattle.capi.specs.Flags.{is_yes};

use board::{Done, Flag, Lit, Number, Ticked, Written};
use capi_answers::{Advanced, Chosen, Reading, Said, advance, of_chosen, of_reading};
use script::action_of;
use state::Board;

// ---- making a board, steps, actions, reset

// A new board at `hz`; queue and script are left alone, the banks are zeroed. CLOCK, SIZE.
pub fn fm1_new(hz: u64, queue: &[u8], script: &[u64], icfg: &mut [u32], icfg1: &mut [u32]) -> Done
    ensures value { result ≡ new_call hz (length queue.now) (places_in script.now) (length icfg.old) (length icfg1.old) }
    ensures first { icfg.new ≡ new_bank (new_refused hz (length queue.now) (places_in script.now) (length icfg.old) (length icfg1.old)) icfg.old }
    ensures second { icfg1.new ≡ new_bank (new_refused hz (length queue.now) (places_in script.now) (length icfg.old) (length icfg1.old)) icfg1.old }
{
    board_words::new(hz, queue, script, icfg, icfg1)
}

// The step: the clock goes on by `cycles`, and what is due by then is served. SIZE, STATE, COUNT, TIME.
pub fn fm1_advance(
    b: Board,
    cycles: u64,
    queue: &mut [u8],
    script: &[u64],
    out: &mut [u8],
) -> Advanced
    ensures { (result ≡ of_stepped (step_of b cycles (words_at script.now) (places_in script.now) queue.old out.old))
        × (queue.new ≡ (ran b cycles (words_at script.now) (places_in script.now) queue.old out.old).1.0)
        × (out.new ≡ (ran b cycles (words_at script.now) (places_in script.now) queue.old out.old).1.1) }
{
    advance(b, cycles, queue, script, out)
}

// An action for the step that reaches `time`. SIZE, STATE, FULL.
pub fn fm1_push(b: Board, script: &mut [u64], time: u64, action: u64) -> Done
    ensures { (result ≡ pushed_of (spot_in b script.old time))
        × (script.new ≡ stored_words (spot_in b script.old time) script.old time (word_of (action_of action))) }
{
    let a = action_of(action);
    board_words::push(b, script, time, a)
}

// An action now. SIZE, STATE, COUNT.
pub fn fm1_apply(b: Board, action: u64, queue: &mut [u8]) -> Done
    ensures value { result ≡ apply_call b (action_of action) (length queue.old) }
    ensures memory { queue.new ≡ apply_queue b (action_of action) queue.old }
{
    let a = action_of(action);
    board::apply(b, a, queue)
}

// A chip reset. SIZE, STATE.
pub fn fm1_chip_reset(b: Board, icfg: &mut [u32], icfg1: &mut [u32]) -> Done
    ensures value { result ≡ reset_call b (length icfg.old) (length icfg1.old) }
    ensures first { icfg.new ≡ reset_first b icfg.old icfg1.old }
    ensures second { icfg1.new ≡ reset_second b icfg.old icfg1.old }
{
    board::chip_reset(b, icfg, icfg1)
}

// ---- registers

// A register's value; none where the word is plain storage. SIZE, STATE, TIME.
pub fn fm1_read<'a>(b: Board, addr: u32, icfg: &'a [u32], icfg1: &'a [u32]) -> Reading
    ensures { result ≡ of_reading (read_call b addr icfg.now icfg1.now) }
{
    of_reading(board::read(b, addr, icfg, icfg1))
}

// Whether the word is a register (`handled`). SIZE, STATE.
pub fn fm1_write(b: Board, addr: u32, v: u32, icfg: &mut [u32], icfg1: &mut [u32]) -> Written
    ensures value { result ≡ write_call b addr v (length icfg.old) (length icfg1.old) }
    ensures first { icfg.new ≡ write_first b addr v icfg.old icfg1.old }
    ensures second { icfg1.new ≡ write_second b addr v icfg.old icfg1.old }
{
    board::write(b, addr, v, icfg, icfg1)
}

// ---- ticks and idle time

// A tick of the runner; whether a step is due. STATE, TIME.
pub fn fm1_tick(b: Board) -> Ticked
    ensures { result ≡ tick_call b }
{
    board::tick(b)
}

// How many cycles until a step is due. STATE.
pub fn fm1_tick_room(b: Board) -> Number
    ensures { result ≡ room_call b }
{
    board::tick_room(b)
}

// Whether the next tick makes a step due. STATE.
pub fn fm1_next_tick_due(b: Board) -> Flag
    ensures { result ≡ next_due_call b }
{
    board::next_tick_due(b)
}

// Jumps over idle time. STATE, TIME.
pub fn fm1_idle(b: Board) -> Done
    ensures { result ≡ idle_call b }
{
    board::idle(b)
}

// ---- interrupts

// Whether any source pends. STATE.
pub fn fm1_any_pending(b: Board) -> Flag
    ensures { result ≡ any_call b }
{
    board::any_pending(b)
}

// Whether a core has a source enabled. SIZE, STATE.
pub fn fm1_irq_enabled<'a>(b: Board, core: u32, n: u8, icfg: &'a [u32], icfg1: &'a [u32]) -> Flag
    ensures { result ≡ enabled_call b core n icfg.now icfg1.now }
{
    board::irq_enabled(b, core, n, icfg, icfg1)
}

// The interrupt that a core takes. SIZE, STATE.
pub fn fm1_pending_irq_for<'a>(b: Board, core: u32, icfg: &'a [u32], icfg1: &'a [u32]) -> Chosen
    ensures { result ≡ of_chosen (choice_call b core icfg.now icfg1.now) }
{
    of_chosen(board::pending_irq_for(b, core, icfg, icfg1))
}

// Core 0's. SIZE, STATE.
pub fn fm1_pending_irq<'a>(b: Board, icfg: &'a [u32], icfg1: &'a [u32]) -> Chosen
    ensures { result ≡ of_chosen (choice_call b 0 icfg.now icfg1.now) }
{
    of_chosen(board::pending_irq(b, icfg, icfg1))
}

// ---- LEDs

// How long each LED was lit since the last call, and over how long. STATE.
pub fn fm1_led_take(b: Board) -> Lit
    ensures { result ≡ led_call b }
{
    board::led_take(b)
}

// ---- SPI and the shift register

// A transfer on SPI1. STATE, PARAM, COUNT.
pub fn fm1_spi1_start(b: Board, bytes: u32, baud: u32, irq: u8) -> Done
    ensures { result ≡ spi1_call b bytes baud (is_yes irq) }
{
    board::spi1_start(b, bytes, baud, irq != 0)
}

// A transfer on SPI2. STATE, PARAM.
pub fn fm1_spi2_start(b: Board, bytes: u32, baud: u32, irq: u8) -> Done
    ensures { result ≡ spi2_call b bytes baud (is_yes irq) }
{
    board::spi2_start(b, bytes, baud, irq != 0)
}

// SPI1's interrupt off. STATE.
pub fn fm1_spi1_irq_off(b: Board) -> Done
    ensures { result ≡ spi1_off_call b }
{
    board::spi1_irq_off(b)
}

// A byte into the matrix's shift registers. STATE.
pub fn fm1_sr_shift_byte(b: Board, byte: u8) -> Done
    ensures { result ≡ shift_call b byte }
{
    board::sr_shift_byte(b, byte)
}

// ---- times and counts

// The clock in milliseconds. STATE.
pub fn fm1_ms(b: Board) -> Number
    ensures { result ≡ ms_call b }
{
    board::ms(b)
}

// Milliseconds in cycles. STATE, PARAM.
pub fn fm1_cycle_of_ms(b: Board, ms: u64) -> Number
    ensures { result ≡ cycles_call b ms }
{
    board::cycle_of_ms(b, ms)
}

// MIDI bytes that wait to arrive. STATE.
pub fn fm1_midi_queued(b: Board) -> Number
    ensures { result ≡ queued_call b }
{
    board::midi_queued(b)
}

// MIDI bytes dropped. STATE.
pub fn fm1_midi_dropped(b: Board) -> Number
    ensures { result ≡ dropped_call b }
{
    board::midi_dropped(b)
}

// ---- settings

// Cycles a tick. STATE.
pub fn fm1_set_cycle_ticks(b: Board, ticks: u64) -> Done
    ensures { result ≡ ticks_call b ticks }
{
    board::set_cycle_ticks(b, ticks)
}

// Whether count reads skip idle time. STATE.
pub fn fm1_set_skip_idle(b: Board, on: u8) -> Done
    ensures { result ≡ skip_call b (is_yes on) }
{
    board::set_skip_idle(b, on != 0)
}

// Whether an interrupt is being served. STATE.
pub fn fm1_set_in_isr(b: Board, on: u8) -> Done
    ensures { result ≡ isr_call b (is_yes on) }
{
    board::set_in_isr(b, on != 0)
}

// The most cycles that `fm1_tick_room` answers. STATE.
pub fn fm1_set_room_cap(b: Board, cap: u64) -> Done
    ensures { result ≡ cap_call b cap }
{
    board::set_room_cap(b, cap)
}

// Whether an exception pends. STATE.
pub fn fm1_set_exc_pending(b: Board, on: u8) -> Done
    ensures { result ≡ exc_call b (is_yes on) }
{
    board::set_exc_pending(b, on != 0)
}

// Whether SPI2 pends. STATE.
pub fn fm1_set_spi2_pending(b: Board, on: u8) -> Done
    ensures { result ≡ spi2_flag_call b (is_yes on) }
{
    board::set_spi2_pending(b, on != 0)
}

// A USB frame's deadline (all ones: never) and its period. STATE, PARAM.
pub fn fm1_set_usb(b: Board, at: u64, period: u64) -> Done
    ensures { result ≡ usb_call b at period }
{
    board::set_usb(b, at, period)
}

// The watchdog's deadline (all ones: never). STATE, PARAM.
pub fn fm1_set_wdt(b: Board, at: u64) -> Done
    ensures { result ≡ wdt_call b at }
{
    board::set_wdt(b, at)
}

// ---- names

// A key's id, or `is` 0.
pub fn fm1_key_id(name: &[u8]) -> Said
    ensures { result ≡ of_id (key_id_of name.now) }
{
    Said::from(names::key_id(name))
}

// An encoder's id, or `is` 0.
pub fn fm1_enc_id(name: &[u8]) -> Said
    ensures { result ≡ of_id (enc_id_of name.now) }
{
    Said::from(names::enc_id(name))
}

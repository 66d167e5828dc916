// What a line asks of the board, carried out by the memory that its call is lent. The calls themselves are in `calls_unlent` and `calls_lent`, but for a new board and a reset.
#![tactic(auto)]

ghost use Rattle.std.specs.Prelude.{◌≡◌};
ghost use Rattle.board.specs.Steps.{new_bank, reset_first, reset_second};
ghost use Rattle.board_runner.specs.Calls.{idle_call, shift_call, spi1_call, spi1_off_call, spi2_call, usb_call, wdt_call};
ghost use Rattle.calls_answers.specs.declared.Tells.TheVariants.{Clock, Done as Zero, Number, Spi1 as Wire};
ghost use Rattle.calls_unlent.specs.Deeds.{done_of, set_of};
ghost use Rattle.calls_board.specs.Boards.{boarded_of, kept, looked_of, made_refused, memory_after, renewed_of, reset_of};

use board::Done;
use board_guard::BANK_WORDS;
use calls_answers::{Boarded, Tells, named};
use calls_lent::{applied, lit, pushed, read, stepped, write};
use calls_unlent::{chosen, counted, done, flagged, set, state, ticked};
use line_answer::Answer;
use line_ask::{Ask, Setting};
use script::{SCRIPT_LEN, SCRIPT_WORDS};
use state::Board;
use uart::QUEUE_LEN;

// What the calls are lent: the bytes behind the jack, the script as words, the banks; `lights` takes the LEDs' times.
#[derive(Drop)]
pub struct Memory {
    pub queue: [u8; QUEUE_LEN],
    pub script: [u64; SCRIPT_WORDS],
    pub icfg: [u32; BANK_WORDS],
    pub icfg1: [u32; BANK_WORDS],
    pub lights: [u64; 41],
}

// ---- a new board, a reset

// A new board in the place of the old one.
#[tactic(auto, unfolding(crate::specs::Boards::renewed_of))]
fn renewed(
    b: Board,
    hz: u64,
    icfg: &mut [u32; BANK_WORDS],
    icfg1: &mut [u32; BANK_WORDS],
) -> Boarded
    ensures value { result ≡ renewed_of b hz icfg.old icfg1.old }
    ensures first { icfg.new ≡ new_bank (made_refused hz icfg.old icfg1.old) icfg.old }
    ensures second { icfg1.new ≡ new_bank (made_refused hz icfg.old icfg1.old) icfg1.old }
{
    let made = board::made(hz, QUEUE_LEN, SCRIPT_LEN, icfg, icfg1);
    done(Tells::Number, if_made(b, made))
}

// The old one stays where the rate is refused.
#[tactic(auto, unfolding(crate::specs::Boards::kept))]
fn if_made(b: Board, made: Done) -> Done
    ensures { result ≡ kept b made }
{
    if made.refused == 0 {
        return made;
    }
    Done {
        board: b,
        refused: made.refused,
    }
}

#[tactic(auto, unfolding(crate::specs::Boards::reset_of))]
fn reset(b: Board, icfg: &mut [u32; BANK_WORDS], icfg1: &mut [u32; BANK_WORDS]) -> Boarded
    ensures value { result ≡ reset_of b icfg.old icfg1.old }
    ensures first { icfg.new ≡ reset_first b icfg.old icfg1.old }
    ensures second { icfg1.new ≡ reset_second b icfg.old icfg1.old }
{
    done(Tells::Done, board::chip_reset(b, icfg, icfg1))
}

// ---- calls that answer the board and a number
// Each by a function of its own, since a function clears, where it begins, room for every board that it comes to hold: in the match of any line all
// eight would be cleared for each.

fn idled(b: Board) -> Boarded
    ensures { result ≡ done_of Clock (idle_call b) }
{
    done(Tells::Clock, board::idle(b))
}

fn shifted(b: Board, byte: u8) -> Boarded
    ensures { result ≡ done_of Zero (shift_call b byte) }
{
    done(Tells::Done, board::sr_shift_byte(b, byte))
}

fn usb_set(b: Board, at: u64, period: u64) -> Boarded
    ensures { result ≡ done_of Number (usb_call b at period) }
{
    done(Tells::Number, board::set_usb(b, at, period))
}

fn wdt_set(b: Board, at: u64) -> Boarded
    ensures { result ≡ done_of Number (wdt_call b at) }
{
    done(Tells::Number, board::set_wdt(b, at))
}

fn spi1_started(b: Board, bytes: u32, baud: u32, irq: bool) -> Boarded
    ensures { result ≡ done_of Wire (spi1_call b bytes baud irq) }
{
    done(Tells::Spi1, board::spi1_start(b, bytes, baud, irq))
}

fn spi2_started(b: Board, bytes: u32, baud: u32, irq: bool) -> Boarded
    ensures { result ≡ done_of Zero (spi2_call b bytes baud irq) }
{
    done(Tells::Done, board::spi2_start(b, bytes, baud, irq))
}

fn spi1_off(b: Board) -> Boarded
    ensures { result ≡ done_of Zero (spi1_off_call b) }
{
    done(Tells::Done, board::spi1_irq_off(b))
}

fn field_set(b: Board, setting: Setting) -> Boarded
    ensures { result ≡ done_of Zero (set_of b setting) }
{
    done(Tells::Done, set(b, setting))
}

// ---- any line

// One match for all, since a function that answers a board costs a copy of it where it is not put in line. No arm holds a board of its own.
#[tactic(auto, unfolding(crate::specs::Boards::boarded_of, crate::specs::Boards::memory_after))]
pub fn on_board(b: Board, ask: Ask, memory: &mut Memory) -> Boarded
    ensures value { result ≡ boarded_of b ask memory.old }
    ensures memory { memory.new ≡ memory_after b ask memory.old }
{
    match ask {
        Ask::Step { cycles } => stepped(b, cycles, &mut memory.queue, &memory.script),
        Ask::Push { time, action } => pushed(b, time, action, &mut memory.script),
        Ask::Apply { action } => applied(b, action, &mut memory.queue),
        Ask::Led => lit(b, &mut memory.lights),
        Ask::Read { addr } => read(b, addr, &memory.icfg, &memory.icfg1),
        Ask::Write { addr, value } => write(b, addr, value, &mut memory.icfg, &mut memory.icfg1),
        Ask::New { hz } => renewed(b, hz, &mut memory.icfg, &mut memory.icfg1),
        Ask::Reset => reset(b, &mut memory.icfg, &mut memory.icfg1),
        Ask::Tick => ticked(b),
        Ask::Idle => idled(b),
        Ask::Shift { byte } => shifted(b, byte),
        Ask::Usb { at, period } => usb_set(b, at, period),
        Ask::Wdt { at } => wdt_set(b, at),
        Ask::Spi1 { bytes, baud, irq } => spi1_started(b, bytes, baud, irq),
        Ask::Spi2 { bytes, baud, irq } => spi2_started(b, bytes, baud, irq),
        Ask::Spi1Off => spi1_off(b),
        Ask::Set(setting) => field_set(b, setting),
        Ask::State => looked(b, state(b)),
        Ask::Room => looked(b, counted(board::tick_room(b))),
        Ask::Ms => looked(b, counted(board::ms(b))),
        Ask::CyclesOf { ms } => looked(b, counted(board::cycle_of_ms(b, ms))),
        Ask::NextTick => looked(b, flagged(board::next_tick_due(b))),
        Ask::Pending => looked(b, flagged(board::any_pending(b))),
        Ask::Irq { core } => looked(
            b,
            chosen(board::pending_irq_for(b, core, &memory.icfg, &memory.icfg1)),
        ),
        Ask::Enabled { core, irq } => looked(
            b,
            flagged(board::irq_enabled(b, core, irq, &memory.icfg, &memory.icfg1)),
        ),
        Ask::Name(id) => looked(b, named(id)),
        Ask::Port(_) => looked(b, Answer::NoCall),
        Ask::Unknown => looked(b, Answer::NoCall),
        Ask::TooLong => looked(b, Answer::LongLine),
        Ask::Nothing => looked(b, Answer::NoLine),
    }
}

// The board as it is.
fn looked(board: Board, answer: Answer) -> Boarded
    ensures { result ≡ looked_of board answer }
{
    Boarded { board, answer }
}

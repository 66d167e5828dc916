// The step, the actions and the reset, on a board by value: inner functions, below the public calls. A step is three pieces, so that whoever holds the script
// shows it entry by entry: `begun` with what stands at `front_place`, `turned` with the entry at `place` while it is `on`, `finished`. A push is two: `placed`, which
// says where the entry goes if `ok`, and `pushed`.
#![tactic(auto)]

mod actions;
mod reset;
mod stages;

ghost use Rattle.std.specs.Prelude.{◌≡◌, ◌+◌, ◌≤◌, ◌<◌, ◌^◌, cond, length};
ghost use Rattle.base.specs.Moments.{clock_max};
ghost use Rattle.state.specs.State.{next_event};
ghost use Rattle.state.specs.Whole.{Whole};
ghost use Rattle.state.specs.With.{with_chip, with_script};
ghost use Rattle.uart.specs.Uart.{queue_bytes};
ghost use Rattle.step.specs.Step.{
  front_place,
  is_state,
  wrong_size,
  past_limit,
  step_refusal,
  stopped_of,
  going_of,
  started_of,
  begun_of,
  Ready,
  turned_of,
  queue_of,
  out_of,
  finished_of,
  push_refusal,
  placed_of,
  pushed_of,
};

pub use actions::{act, apply};
use audio::Half;
use base::{CLOCK_MAX, COUNT, COUNT_MAX, FULL, SIZE, STATE, TIME};
use board_guard::Done;
use records::encode_timed;
pub use reset::{chip_reset, zero};
use script::{ENTRIES, Entry, Front, Script};
pub use stages::{Served, serve};
use state::{Board, Chip};
use uart::{Byte, QUEUE_BYTES};

// A step that is under way: what it found due, the entries taken and the bytes written, where to look next and whether to look, whether it was served at all.
#[derive(Clone, Copy)]
pub struct Going {
    pub board: Board,
    pub audio_half: Option<Half>,
    pub uart_rx: Option<Byte>,
    pub written: usize,
    pub place: usize,
    pub applied: u32,
    pub refused: u32,
    pub usb_frame: bool,
    pub wdt: bool,
    pub on: bool,
    pub served: bool,
}

#[derive(Clone, Copy)]
pub struct Stepped {
    pub board: Board,
    pub audio_half: Option<Half>,
    pub uart_rx: Option<Byte>,
    pub written: usize,
    pub applied: u32,
    pub refused: u32,
    pub usb_frame: bool,
    pub wdt: bool,
}

// Where a push puts its entry, if `ok`; a refused one has the board as it was.
#[derive(Clone, Copy)]
pub struct Spot {
    pub board: Board,
    pub place: usize,
    pub refused: u32,
    pub ok: bool,
}

// Room for the records of as many entries, of at most 17 bytes each.
pub const OUT_BYTES: usize = 4352;

// Where the script's front stands.
pub fn front_place(b: Board) -> usize
    ensures { result ≡ front_place b }
{
    b.chip.script.front_place()
}

// The script's three numbers are set one by one: a record in a record in a record is not set at once.
fn scripted(mut b: Board, s: Script) -> Board
    ensures { result ≡ with_chip b (with_script b.chip s) }
{
    b.chip.script.at = s.at;
    b.chip.script.place = s.place;
    b.chip.script.count = s.count;
    b
}

// ---- the step

// A lent length that is not its own.
fn wrong_size(front: Front, queue: usize, out: usize) -> bool
    ensures { result ≡ wrong_size front queue out }
{
    if queue != QUEUE_BYTES as usize {
        return true;
    }
    if front.len != ENTRIES as usize {
        return true;
    }
    out < OUT_BYTES
}

fn is_state(b: Board, front: Front) -> bool
    ensures { result ≡ is_state b front }
{
    if b.whole() {
        return b.chip.script.agrees(front);
    }
    false
}

// What a whole record can still refuse of a step. The sum is compared so that it cannot wrap.
pub fn past_limit(dropped: u64, now: u64, cycles: u64) -> u32
    requires { now ≤ clock_max }
    ensures { result ≡ past_limit dropped now cycles }
{
    if COUNT_MAX <= dropped {
        return COUNT;
    }
    if CLOCK_MAX - now < cycles {
        return TIME;
    }
    0
}

// Why a step is refused, 0 if it is not.
fn step_refusal(b: Board, cycles: u64, front: Front, queue: usize, out: usize) -> u32
    ensures { result ≡ step_refusal b cycles front queue out }
{
    if wrong_size(front, queue, out) {
        return SIZE;
    }
    if is_state(b, front) {
        return past_limit(b.chip.uart.dropped, b.chip.clock.cycles, cycles);
    }
    STATE
}

// A step that ends here, with a board and a number alone.
fn stopped(b: Board, number: u32) -> Going
    ensures { result ≡ stopped_of b number }
{
    Going {
        board: b,
        audio_half: None,
        uart_rx: None,
        written: 0,
        place: 0,
        applied: 0,
        refused: number,
        usb_frame: false,
        wdt: false,
        on: false,
        served: false,
    }
}

// A step that was served goes on to the script, if entries wait.
fn goes_on(mut b: Board, s: Served) -> Going
    ensures { result ≡ going_of b s }
{
    let c = s.chip;
    b.chip = c;
    Going {
        board: b,
        audio_half: s.audio_half,
        uart_rx: s.uart_rx,
        written: 0,
        place: c.script.front_place(),
        applied: 0,
        refused: 0,
        usb_frame: s.usb_frame,
        wdt: s.wdt,
        on: 0 < c.script.count,
        served: true,
    }
}

// The clock moves. Before `next_due` that is all; else the stages are served, and the script is looked at.
pub fn started(mut b: Board, cycles: u64, queue: &[u8]) -> Going
    requires { Whole b × (length queue.now ≡ queue_bytes) × (b.chip.clock.cycles + cycles ≤ clock_max) × (b.chip.uart.dropped < 2 ^ 62) }
    ensures { result ≡ started_of b cycles queue.now }
{
    let now = b.chip.clock.cycles + cycles;
    b.chip.clock.cycles = now;
    if now < b.chip.clock.next_due {
        return stopped(b, 0);
    }
    let s = serve(b.chip, queue);
    goes_on(b, s)
}

// The step as far as the script; `front` is what stands at `front_place`.
pub fn begun(b: Board, cycles: u64, front: Front, queue: &mut [u8], out: &mut [u8]) -> Going
    ensures { (result ≡ begun_of b cycles front queue.old out.old)
        × (queue.new ≡ queue.old)
        × (out.new ≡ out.old) }
{
    let number = step_refusal(b, cycles, front, queue.len(), out.len());
    if number != 0 {
        return stopped(b, number);
    }
    started(b, cycles, queue)
}

// The front, e: later than the clock it stays, and its time is noted; else it is taken, applied and written with its own time.
pub fn turned(mut g: Going, e: Entry, queue: &mut [u8], out: &mut [u8]) -> Going
    requires { Ready g (length queue.old) (length out.old) }
    ensures { (result ≡ turned_of g e)
        × (queue.new ≡ queue_of g e queue.old)
        × (out.new ≡ out_of g e out.old) }
{
    if g.board.chip.clock.cycles < e.at {
        let noted = g.board.chip.script.looked(e.at);
        g.board = scripted(g.board, noted);
        g.on = false;
        return g;
    }
    let rest = g.board.chip.script.taken();
    g.board = scripted(g.board, rest);
    let action = e.action;
    g.board = apply(g.board, action, queue);
    let wrote = encode_timed(out, g.written, e.at, action);
    g.written = wrote.unwrap_or(g.written);
    g.place = rest.front_place();
    g.applied = g.applied + 1;
    g.on = 0 < rest.count;
    g
}

// A step that was served knows when the next event comes.
fn due(c: Chip, served: bool) -> u64
    ensures { result ≡ cond served (next_event c) c.clock.next_due }
{
    if served {
        return c.next_event();
    }
    c.clock.next_due
}

// The answer.
pub fn finished(mut g: Going) -> Stepped
    ensures { result ≡ finished_of g }
{
    let next = due(g.board.chip, g.served);
    g.board.chip.clock.next_due = next;
    Stepped {
        board: g.board,
        audio_half: g.audio_half,
        uart_rx: g.uart_rx,
        written: g.written,
        applied: g.applied,
        refused: g.refused,
        usb_frame: g.usb_frame,
        wdt: g.wdt,
    }
}

// ---- the script's push

fn push_refusal(b: Board, front: Front) -> u32
    ensures { result ≡ push_refusal b front }
{
    if front.len != ENTRIES as usize {
        return SIZE;
    }
    if is_state(b, front) {
        if b.chip.script.full() {
            return FULL;
        }
        return 0;
    }
    STATE
}

// One more entry waits, at time `at`; the next step looks at everything.
pub fn placed(mut b: Board, front: Front, at: u64) -> Spot
    ensures { result ≡ placed_of b front at }
{
    let number = push_refusal(b, front);
    if number != 0 {
        return Spot {
            board: b,
            place: 0,
            refused: number,
            ok: false,
        };
    }
    let place = b.chip.script.spot();
    let more = b.chip.script.pushed(at);
    b = scripted(b, more);
    b.chip.clock.next_due = 0;
    Spot {
        board: b,
        place,
        refused: 0,
        ok: true,
    }
}

pub fn pushed(s: Spot) -> Done
    ensures { result ≡ pushed_of s }
{
    let b = s.board;
    Done {
        board: b,
        refused: s.refused,
    }
}

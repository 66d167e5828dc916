// The calls' answers as plain numbers, for callers that have no enums: a flag is 0 or 1, an answer that may be none has a flag beside it. Inner functions of the boundary to C (crate `capi`).
#![tactic(auto)]

pub mod marks;
pub mod ports;

ghost use Rattle.std.specs.Prelude.{◌≡◌};
ghost use Rattle.script.specs.Words.{words_at};
ghost use Rattle.step.specs.Step.{ran, step_of};
ghost use Rattle.script.specs.Words.{places_in};
ghost use Rattle.capi_answers.specs.Edge.{
  said_of,
  read_of,
  of_reading,
  of_half,
  of_byte,
  of_stepped,
  of_choice,
  of_chosen,
  of_id,
};

use audio::Half;
use board::Done;
use irq::Choice;
use state::Board;
use step::Stepped;
use uart::Byte;

// A number, or a flag, and the refusal's number (0: done).
#[repr(C)]
#[derive(Clone, Copy)]
pub struct Said {
    pub value: u64,
    pub refused: u32,
    pub is: u32,
}

// A register's value, where `some`.
#[repr(C)]
#[derive(Clone, Copy)]
pub struct Reading {
    pub board: Board,
    pub refused: u32,
    pub some: u32,
    pub value: u32,
}

// Where `some`, what DMA moved: an audio half's address and words, or a byte's address and the byte.
#[repr(C)]
#[derive(Clone, Copy)]
pub struct Moved {
    pub some: u32,
    pub addr: u32,
    pub value: u32,
}

// What a step hands out; `written` bytes of the lent output are its records, `applied` of them.
#[repr(C)]
#[derive(Clone, Copy)]
pub struct Due {
    pub written: u64,
    pub applied: u32,
    pub refused: u32,
    pub audio: Moved,
    pub uart: Moved,
    pub usb_frame: u32,
    pub wdt: u32,
}

#[repr(C)]
#[derive(Clone, Copy)]
pub struct Advanced {
    pub board: Board,
    pub due: Due,
}

// Where `some`, the interrupt to take.
#[repr(C)]
#[derive(Clone, Copy)]
pub struct Chosen {
    pub refused: u32,
    pub some: u32,
    pub source: u32,
    pub priority: u32,
}

// The port's record, its event as a number.
#[repr(C)]
#[derive(Clone, Copy)]
pub struct Port {
    pub changed: u64,
    pub con: u32,
    pub dat: u32,
    pub event: u32,
    pub addr: u16,
    pub step: u8,
    pub cmd: u8,
}

#[repr(C)]
#[derive(Clone, Copy)]
pub struct PortAnswered {
    pub port: Port,
    pub said: Said,
}

// ---- answers as numbers

pub fn told(value: u64, refused: u32, is: u32) -> Said
    ensures { result ≡ said_of value refused is }
{
    Said { value, refused, is }
}

#[tactic(auto, unfolding(crate::specs::Edge::read_of, regs::specs::Told::told_value))]
pub fn read_of(b: Board, refused: u32, v: Option<u32>) -> Reading
    ensures { result ≡ read_of b refused v }
{
    match v {
        Some(value) => Reading {
            board: b,
            refused,
            some: 1,
            value,
        },
        None => Reading {
            board: b,
            refused,
            some: 0,
            value: 0,
        },
    }
}

pub fn of_reading(r: board::Reading) -> Reading
    ensures { result ≡ of_reading r }
{
    read_of(r.board, r.refused, r.value)
}

#[tactic(auto, unfolding(crate::specs::Edge::of_half, audio::specs::Told::told_half))]
pub fn of_half(h: Option<Half>) -> Moved
    ensures { result ≡ of_half h }
{
    match h {
        Some(Half { addr, words }) => Moved {
            some: 1,
            addr,
            value: words,
        },
        None => Moved {
            some: 0,
            addr: 0,
            value: 0,
        },
    }
}

#[tactic(auto, unfolding(crate::specs::Edge::of_byte, uart::specs::Told::told_byte))]
pub fn of_byte(x: Option<Byte>) -> Moved
    ensures { result ≡ of_byte x }
{
    match x {
        Some(Byte { addr, b }) => Moved {
            some: 1,
            addr,
            value: b as u32,
        },
        None => Moved {
            some: 0,
            addr: 0,
            value: 0,
        },
    }
}

pub fn of_stepped(s: Stepped) -> Advanced
    ensures { result ≡ of_stepped s }
{
    Advanced {
        board: s.board,
        due: Due {
            written: s.written as u64,
            applied: s.applied,
            refused: s.refused,
            audio: of_half(s.audio_half),
            uart: of_byte(s.uart_rx),
            usb_frame: u32::from(s.usb_frame),
            wdt: u32::from(s.wdt),
        },
    }
}

// The step over words, with its answer so.
pub fn advance(b: Board, cycles: u64, queue: &mut [u8], script: &[u64], out: &mut [u8]) -> Advanced
    ensures { (result ≡ of_stepped (step_of b cycles (words_at script.now) (places_in script.now) queue.old out.old))
        × (queue.new ≡ (ran b cycles (words_at script.now) (places_in script.now) queue.old out.old).1.0)
        × (out.new ≡ (ran b cycles (words_at script.now) (places_in script.now) queue.old out.old).1.1) }
{
    of_stepped(board_words::advance(b, cycles, queue, script, out))
}

#[tactic(auto, unfolding(crate::specs::Edge::of_choice, irq::specs::Told::told_choice))]
pub fn of_choice(refused: u32, c: Option<Choice>) -> Chosen
    ensures { result ≡ of_choice refused c }
{
    match c {
        Some(Choice { irq, prio }) => Chosen {
            refused,
            some: 1,
            source: irq as u32,
            priority: prio as u32,
        },
        None => Chosen {
            refused,
            some: 0,
            source: 0,
            priority: 0,
        },
    }
}

pub fn of_chosen(c: board::Chosen) -> Chosen
    ensures { result ≡ of_chosen c }
{
    of_choice(c.refused, c.choice)
}

impl From<Option<u8>> for Said {
    ghost from_gives = { λ id said. said ≡ of_id id };

    #[tactic(auto, unfolding(crate::specs::Edge::of_id, names::specs::Told::told_id))]
    fn from(id: Option<u8>) -> Said {
        match id {
            Some(n) => told(n as u64, 0, 1),
            None => told(0, 0, 0),
        }
    }
}

// What a call came to, as the answer that `line_answer` shows. Nothing is carried out here: `calls_unlent`, `calls_lent` and `calls_board` do.
#![tactic(auto)]

ghost use Rattle.std.specs.Prelude.{◌≡◌};
ghost use Rattle.calls_answers.specs.Outcomes.{byte_told, clock_shown, half_told, named_as, read_answer, step_answer, told_of};

use audio::Half;
use line_answer::Answer;
use spi::Spi;
use state::{Board, Clock};
use uart::Byte;

// The board after a call, and the answer.
#[derive(Clone, Copy)]
pub struct Boarded {
    pub board: Board,
    pub answer: Answer,
}

// ---- a step

pub fn step_answer(
    refused: u32,
    clock: u64,
    half: Option<Half>,
    byte: Option<Byte>,
    usb: bool,
    wdt: bool,
    applied: u32,
) -> Answer
    ensures { result ≡ step_answer refused clock half byte usb wdt applied }
{
    Answer::Stepped {
        clock,
        half: half_told(half),
        byte: byte_told(byte),
        usb,
        wdt,
        applied,
    }
    .unless_refused(refused)
}

#[tactic(auto, unfolding(crate::specs::Outcomes::half_told))]
fn half_told(half: Option<Half>) -> Option<(u32, u32)>
    ensures { result ≡ half_told half }
{
    match half {
        Some(h) => Some((h.addr, h.words)),
        None => None,
    }
}

#[tactic(auto, unfolding(crate::specs::Outcomes::byte_told))]
fn byte_told(byte: Option<Byte>) -> Option<(u32, u8)>
    ensures { result ≡ byte_told byte }
{
    match byte {
        Some(x) => Some((x.addr, x.b)),
        None => None,
    }
}

// ---- a read

pub fn read_answer(refused: u32, value: Option<u32>, clock: Clock) -> Answer
    ensures { result ≡ read_answer refused value clock }
{
    Answer::Value {
        value,
        clock: clock_shown(clock),
    }
    .unless_refused(refused)
}

// While idle time is skipped.
#[tactic(auto, unfolding(crate::specs::Outcomes::clock_shown))]
fn clock_shown(clock: Clock) -> Option<(u64, u64)>
    ensures { result ≡ clock_shown clock }
{
    if clock.skip_idle == 0 {
        return None;
    }
    Some((clock.cycles, clock.skipped))
}

// ---- a deed

// What a deed tells that is not refused.
#[derive(Clone, Copy, Debug, PartialEq, Eq)]
pub enum Tells {
    // 0
    Done,
    // the refusal's number itself: 0, as it is not refused
    Number,
    // how far SPI1 went
    Spi1,
    // how far idle time went
    Clock,
}

#[tactic(auto, unfolding(crate::specs::Outcomes::told_of))]
pub fn told(tells: Tells, refused: u32, s: Spi, clock: Clock) -> Answer
    ensures { result ≡ told_of tells refused s clock }
{
    match tells {
        Tells::Done => Answer::Number(0).unless_refused(refused),
        Tells::Number => Answer::Number(refused as u64),
        Tells::Spi1 => Answer::Pair(s.spi1_done_at, s.spi1_wire).unless_refused(refused),
        Tells::Clock => Answer::Pair(clock.cycles, clock.skipped).unless_refused(refused),
    }
}

// ---- a name

#[tactic(auto, unfolding(crate::specs::Outcomes::named_as))]
pub fn named(id: Option<u8>) -> Answer
    ensures { result ≡ named_as id }
{
    match id {
        Some(k) => Answer::Number(k as u64),
        None => Answer::NoValue,
    }
}

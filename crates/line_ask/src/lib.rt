// A line of `calls` to what it asks: which call it is, with its numbers. Tables of names say which calls there are.
#![tactic(auto)]

mod calls;
mod numbers;
mod words;

ghost use Rattle.std.specs.Prelude.{◌≡◌};
ghost use Rattle.line_ask.specs.Asks.{ask_of, ask_in};

use crate::calls::call_in;
pub use crate::calls::id_in;
pub use crate::numbers::{Hex, Number, Signed};
pub use crate::words::Words;
use records::Action;
use text::{first, is_passed_over};

// Room for a line: a byte more than a line may have.
pub const LINE: usize = 4097;

// What a line asks, with its numbers.
#[derive(Clone, Copy)]
pub enum Ask {
    Step { cycles: u64 },
    Read { addr: u32 },
    Write { addr: u32, value: u32 },
    Tick,
    Led,
    State,
    Room,
    Ms,
    NextTick,
    Pending,
    CyclesOf { ms: u64 },
    Irq { core: u32 },
    Enabled { core: u32, irq: u8 },
    Idle,
    Spi1Off,
    Shift { byte: u8 },
    Usb { at: u64, period: u64 },
    Wdt { at: u64 },
    Spi1 { bytes: u32, baud: u32, irq: bool },
    Spi2 { bytes: u32, baud: u32, irq: bool },
    New { hz: u64 },
    Reset,
    Push { time: u64, action: Action },
    Apply { action: Action },
    Set(Setting),
    Port(PortAsk),
    // A name's id, or none.
    Name(Option<u8>),
    // What is no call; a line that has no room; a line that asks nothing.
    Unknown,
    TooLong,
    Nothing,
}

#[derive(Clone, Copy, Debug, PartialEq, Eq)]
pub enum Setting {
    CycleTicks(u64),
    RoomCap(u64),
    SkipIdle(bool),
    InIsr(bool),
    Exc(bool),
    Spi2Pending(bool),
}

#[derive(Clone, Copy, Debug, PartialEq, Eq)]
pub enum PortAsk {
    Write { addr: u32, value: u32 },
    Read { addr: u32 },
    Event,
    Reg { addr: u16, rtc: bool },
    Same,
    Snap,
    Sum,
    Keep,
    Ms { con: u8 },
    New,
    Reset { cause: u8 },
}

// What the first `n` bytes ask; where they fill the room, the line was cut off.
#[tactic(auto, unfolding(crate::specs::Asks::ask_in))]
pub fn asked(room: &[u8; LINE], n: usize) -> Ask
    ensures { result ≡ ask_in room.now n }
{
    if n < LINE {
        return asked_by(first(room, n));
    }
    Ask::TooLong
}

#[tactic(auto, unfolding(crate::specs::Asks::ask_of))]
fn asked_by(line: &[u8]) -> Ask
    ensures { result ≡ ask_of line.now }
{
    if is_passed_over(line) {
        return Ask::Nothing;
    }
    call_in(Words::of(line)).unwrap_or(Ask::Unknown)
}

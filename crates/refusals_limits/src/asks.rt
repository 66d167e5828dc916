// Every public call that takes the board and no script or queue, and the making of one.
ghost use Rattle.std.specs.Prelude.{◌≡◌};
ghost use Rattle.refusals_limits.specs.Asked.{asked_of, call_of, low, of_board};

use crate::banks::{Lent, banked, made};
use state::Board;
use text::find;

#[derive(Clone, Copy, Debug, PartialEq, Eq)]
pub enum Call {
    // lent both banks
    Lent(Lent),
    Made,
    Tick,
    TickRoom,
    NextTickDue,
    Idle,
    Ms,
    CycleOfMs,
    MidiQueued,
    MidiDropped,
    AnyPending,
    LedTake,
    Spi1Start,
    Spi2Start,
    Spi1IrqOff,
    SrShiftByte,
    SetCycleTicks,
    SetSkipIdle,
    SetInIsr,
    SetRoomCap,
    SetExcPending,
    SetSpi2Pending,
    SetUsb,
    SetWdt,
}

const CALLS: [(&[u8], Call); 29] = [
    (b"read", Call::Lent(Lent::Read)),
    (b"irq_enabled", Call::Lent(Lent::IrqEnabled)),
    (b"pending_irq_for", Call::Lent(Lent::PendingIrqFor)),
    (b"pending_irq", Call::Lent(Lent::PendingIrq)),
    (b"write", Call::Lent(Lent::Write)),
    (b"chip_reset", Call::Lent(Lent::ChipReset)),
    (b"made", Call::Made),
    (b"tick", Call::Tick),
    (b"tick_room", Call::TickRoom),
    (b"next_tick_due", Call::NextTickDue),
    (b"idle", Call::Idle),
    (b"ms", Call::Ms),
    (b"cycle_of_ms", Call::CycleOfMs),
    (b"midi_queued", Call::MidiQueued),
    (b"midi_dropped", Call::MidiDropped),
    (b"any_pending", Call::AnyPending),
    (b"led_take", Call::LedTake),
    (b"spi1_start", Call::Spi1Start),
    (b"spi2_start", Call::Spi2Start),
    (b"spi1_irq_off", Call::Spi1IrqOff),
    (b"sr_shift_byte", Call::SrShiftByte),
    (b"set_cycle_ticks", Call::SetCycleTicks),
    (b"set_skip_idle", Call::SetSkipIdle),
    (b"set_in_isr", Call::SetInIsr),
    (b"set_room_cap", Call::SetRoomCap),
    (b"set_exc_pending", Call::SetExcPending),
    (b"set_spi2_pending", Call::SetSpi2Pending),
    (b"set_usb", Call::SetUsb),
    (b"set_wdt", Call::SetWdt),
];

pub fn call_of(name: &[u8]) -> Option<Call>
    ensures { result ≡ call_of name.now }
{
    find(&CALLS, name)
}

// On a new board of that rate, which no test has looked at.
pub fn asked(hz: u64, call: Call, n: [u64; 5]) -> u32
    ensures { result ≡ asked_of hz call n }
{
    of_board(Board::new(low(hz)), call, n)
}

fn low(n: u64) -> u32
    ensures { result ≡ low n }
{
    (n % 0x1_0000_0000) as u32
}

#[tactic(auto, unfolding(crate::specs::Asked::of_board))]
fn of_board(board: Board, call: Call, n: [u64; 5]) -> u32
    ensures { result ≡ of_board board call n }
{
    match call {
        Call::Lent(call) => banked(board, call, low(n[0]), n[1], n[2]),
        Call::Made => made(n[0], n[1], n[2], n[3], n[4]),
        Call::Tick => board::tick(board).refused,
        Call::TickRoom => board::tick_room(board).refused,
        Call::NextTickDue => board::next_tick_due(board).refused,
        Call::Idle => board::idle(board).refused,
        Call::Ms => board::ms(board).refused,
        Call::CycleOfMs => board::cycle_of_ms(board, n[0]).refused,
        Call::MidiQueued => board::midi_queued(board).refused,
        Call::MidiDropped => board::midi_dropped(board).refused,
        Call::AnyPending => board::any_pending(board).refused,
        Call::LedTake => board::led_take(board).refused,
        Call::Spi1Start => board::spi1_start(board, low(n[0]), low(n[1]), true).refused,
        Call::Spi2Start => board::spi2_start(board, low(n[0]), low(n[1]), true).refused,
        Call::Spi1IrqOff => board::spi1_irq_off(board).refused,
        Call::SrShiftByte => board::sr_shift_byte(board, 0).refused,
        Call::SetCycleTicks => board::set_cycle_ticks(board, n[0]).refused,
        Call::SetSkipIdle => board::set_skip_idle(board, n[0] != 0).refused,
        Call::SetInIsr => board::set_in_isr(board, n[0] != 0).refused,
        Call::SetRoomCap => board::set_room_cap(board, n[0]).refused,
        Call::SetExcPending => board::set_exc_pending(board, n[0] != 0).refused,
        Call::SetSpi2Pending => board::set_spi2_pending(board, n[0] != 0).refused,
        Call::SetUsb => board::set_usb(board, n[0], n[1]).refused,
        Call::SetWdt => board::set_wdt(board, n[0]).refused,
    }
}

// A step's stages but the script, at the moment that the clock shows: each block after that moment, in the source's order.
ghost use Rattle.std.specs.Prelude.{◌≡◌, ◌<◌, ◌^◌, length};
ghost use Rattle.state.specs.Whole.{ChipOk};
ghost use Rattle.uart.specs.Uart.{queue_bytes};
ghost use Rattle.step.specs.Stages.{first_stages, last_stages, served_of};

use audio::Half;
use panel::encs_at;
use state::Chip;
use timers::tmrs_at;
use uart::Byte;

// The chip after the stages, and what they found due.
#[derive(Clone, Copy)]
pub struct Served {
    pub chip: Chip,
    pub audio_half: Option<Half>,
    pub uart_rx: Option<Byte>,
    pub usb_frame: bool,
    pub wdt: bool,
}

// TIMER5, SPI2, SPI1, timers, tick.
#[tactic(auto, unfolding(crate::specs::Stages::first_stages))]
fn first_stages(mut c: Chip) -> Chip
    requires { ChipOk c }
    ensures { result ≡ first_stages c }
{
    let now = c.clock.cycles;
    let hz = c.clock.hz;
    c.t5 = c.t5.at(now, hz);
    c.spi = c.spi.spi2_at(now).spi1_at(now);
    c.tmr = tmrs_at(c.tmr, now, hz);
    c.tick = c.tick.at(now, hz);
    c
}

// USB, watchdog, timeout, encoders.
#[tactic(auto, unfolding(crate::specs::Stages::last_stages))]
fn last_stages(mut c: Chip) -> Chip
    requires { ChipOk c }
    ensures { result ≡ last_stages c }
{
    let now = c.clock.cycles;
    let hz = c.clock.hz;
    c.host = c.host.usb_at(now).wdt_at(now);
    c.uart = c.uart.timeout_at(now);
    c.enc = encs_at(c.enc, now, hz);
    c
}

// All of them: between the others audio, which hands out a finished half, and the byte that has arrived. A byte rearms the timeout before that is looked at.
pub fn serve(mut c: Chip, queue: &[u8]) -> Served
    requires { ChipOk c × (length queue.now ≡ queue_bytes) × (c.uart.dropped < 2 ^ 62) }
    ensures { result ≡ served_of c queue.now }
{
    let now = c.clock.cycles;
    let hz = c.clock.hz;
    c = first_stages(c);
    let played = c.audio.at(now, hz);
    c.audio = played.audio;
    let received = c.uart.receive_at(queue, now, hz);
    c.uart = received.uart;
    let usb_frame = c.host.usb_next <= now;
    let wdt = c.host.wdt_at <= now;
    c = last_stages(c);
    Served {
        chip: c,
        audio_half: played.half,
        uart_rx: received.byte,
        usb_frame,
        wdt,
    }
}

// The board's record, by value: the chip (everything that steps and registers touch) and the panel (the keys' forces, the LEDs' light, the converter's
// stored values). A block each, in the blocks' own crates; here they are put together, and here is what is asked of them as one: whether the record is whole, and when the
// next timed event comes. The chip has no hole and is never indexed at run time.
#![tactic(auto)]

ghost use Rattle.std.specs.Prelude.{◌≡◌, ◌≤◌, ◌<◌, ◌^◌};
ghost use Rattle.state.specs.State.{
  clock_new,
  chip_new,
  panel_new,
  board_new,
  host_new,
  next_event,
  is_rate,
  clock_whole,
  host_whole,
  timers_whole,
  wires_whole,
  front_whole,
  chip_whole,
  panel_whole,
  board_whole,
  usb_at,
  wdt_at_of,
  pending_of,
};
ghost use Rattle.state.specs.Whole.{HostOk};
ghost use Rattle.base.specs.Moments.{clock_max};

use adc::Adc;
use audio::Audio;
use base::{NEVER, RATE_MAX, RATE_MIN, is_clock, is_deadline, rearmed};
use irq::{Latch, Pending};
use panel::{Enc, Keys, Pins, Ramps, encs_next, encs_whole, times_whole};
use script::Script;
use spi::Spi;
use timers::{T4, T5, Tick, Tmr, tmrs_next, tmrs_whole};
use uart::Uart;

// The clock and the runner's settings.
#[repr(C)]
#[derive(Clone, Copy)]
pub struct Clock {
    pub cycles: u64,
    // nothing timed happens before this cycle
    pub next_due: u64,
    pub cycle_ticks: u64,
    pub room_cap: u64,
    // cycles jumped over
    pub skipped: u64,
    pub in_isr: u64,
    pub hz: u32,
    pub skip_idle: u32,
}

// Deadlines that the host sets: USB frames with their period, and the watchdog.
#[repr(C)]
#[derive(Clone, Copy)]
pub struct Host {
    pub usb_next: u64,
    pub usb_period: u64,
    pub wdt_at: u64,
}

#[repr(C)]
#[derive(Clone, Copy)]
pub struct Chip {
    pub clock: Clock,
    pub t4: T4,
    pub t5: T5,
    pub tmr: [Tmr; 4],
    pub tick: Tick,
    pub audio: Audio,
    pub spi: Spi,
    pub uart: Uart,
    pub host: Host,
    pub script: Script,
    pub pins: Pins,
    pub enc: [Enc; 8],
    pub keys: Keys,
    pub adc: Adc,
    pub latch: Latch,
}

#[repr(C)]
#[derive(Clone, Copy)]
pub struct Panel {
    pub acc: [u64; 41],
    pub ramps: Ramps,
    pub values: [u16; 16],
}

#[repr(C)]
#[derive(Clone, Copy)]
pub struct Board {
    pub chip: Chip,
    pub panel: Panel,
}

impl Clock {
    pub fn new(hz: u32) -> Self
        ensures { result ≡ clock_new hz }
    {
        Clock {
            cycles: 0,
            next_due: 0,
            cycle_ticks: 1,
            room_cap: NEVER,
            skipped: 0,
            in_isr: 0,
            hz: hz,
            skip_idle: 0,
        }
    }

    fn whole(self) -> bool
        ensures { result ≡ clock_whole self }
    {
        is_rate(self.hz) & is_clock(self.cycles)
    }
}

// A permitted rate.
pub fn is_rate(hz: u32) -> bool
    ensures { result ≡ is_rate hz }
{
    (RATE_MIN <= hz) & (hz <= RATE_MAX)
}

impl Host {
    pub fn new() -> Self
        ensures { result ≡ host_new }
    {
        Host {
            usb_next: NEVER,
            usb_period: 0,
            wdt_at: NEVER,
        }
    }

    // A frame that is due is rearmed.
    #[tactic(auto, using(base::specs::Tests::tests), unfolding(crate::specs::State::usb_at))]
    pub fn usb_at(mut self, now: u64) -> Self
        requires { HostOk self × (now ≤ clock_max) }
        ensures { result ≡ usb_at self now }
    {
        if now < self.usb_next {
            return self;
        }
        self.usb_next = rearmed(self.usb_next, now, self.usb_period);
        self
    }

    // The watchdog runs out once.
    #[tactic(auto, using(base::specs::Tests::tests), unfolding(crate::specs::State::wdt_at_of))]
    pub fn wdt_at(mut self, now: u64) -> Self
        ensures { result ≡ wdt_at_of self now }
    {
        if now < self.wdt_at {
            return self;
        }
        self.wdt_at = NEVER;
        self
    }

    // The period counts while a frame is due at all.
    fn whole(self) -> bool
        ensures { result ≡ host_whole self }
    {
        is_deadline(self.usb_next)
            & is_deadline(self.wdt_at)
            & ((self.usb_next == NEVER) | ((1 <= self.usb_period) & is_clock(self.usb_period)))
    }
}

impl Chip {
    // When the next timed event comes.
    #[tactic(auto, using(base::specs::Tests::tests), unfolding(crate::specs::State::next_event))]
    pub fn next_event(self) -> u64
        ensures { result ≡ next_event self }
    {
        let t = self.tmr;
        let e = self.enc;
        let timers = self.t5.next.min(self.tick.next).min(tmrs_next(t));
        let wires = self
            .spi
            .next_event()
            .min(self.audio.next.min(self.uart.next_event()));
        let host = self.host.usb_next.min(self.host.wdt_at);
        let front = encs_next(e).min(self.script.front_time());
        timers.min(wires).min(host.min(front))
    }

    // What pends, for the choice of an interrupt.
    #[tactic(auto, using(base::specs::Tests::tests), unfolding(crate::specs::State::pending_of))]
    pub fn pending(self) -> Pending
        ensures { result ≡ pending_of self }
    {
        let t = self.tmr;
        let t0 = t[0];
        let t1 = t[1];
        let t2 = t[2];
        let t3 = t[3];
        Pending {
            ilat: self.latch.ilat,
            exc: self.latch.exc_pending != 0,
            t5: self.t5.pending != 0,
            tick: self.tick.pending != 0,
            spi1: self.spi.spi1_pending != 0,
            adc: self.adc.irq != 0,
            spi2: self.spi.spi2_pending != 0,
            uart: self.uart.irq != 0,
            tmr0: t0.pending != 0,
            tmr1: t1.pending != 0,
            tmr2: t2.pending != 0,
            tmr3: t3.pending != 0,
            audio: self.audio.pend & 0xf0 != 0,
            audio_on: self.audio.con0 & 0x800 != 0,
        }
    }

    #[tactic(auto, using(base::specs::Tests::tests), unfolding(crate::specs::State::timers_whole))]
    fn timers_whole(self, now: u64) -> bool
        ensures { result ≡ timers_whole self now }
    {
        let t = self.tmr;
        self.t4.whole(now) & self.t5.whole() & tmrs_whole(t, now) & self.tick.whole(now)
    }

    #[tactic(auto, using(base::specs::Tests::tests), unfolding(crate::specs::State::wires_whole))]
    fn wires_whole(self) -> bool
        ensures { result ≡ wires_whole self }
    {
        self.audio.whole() & self.spi.whole() & self.uart.whole() & self.host.whole()
    }

    #[tactic(auto, using(base::specs::Tests::tests), unfolding(crate::specs::State::front_whole))]
    fn front_whole(self, now: u64) -> bool
        ensures { result ≡ front_whole self now }
    {
        let e = self.enc;
        self.script.whole() & self.pins.whole(now) & encs_whole(e) & self.keys.whole()
    }

    // What a whole record asks of the chip; `next_due` may be early, not late.
    #[tactic(auto, using(base::specs::Tests::tests), unfolding(crate::specs::State::chip_whole))]
    pub fn whole(self) -> bool
        ensures { result ≡ chip_whole self }
    {
        let now = self.clock.cycles;
        self.clock.whole()
            & self.timers_whole(now)
            & self.wires_whole()
            & self.front_whole(now)
            & (self.clock.next_due <= self.next_event())
    }
}

impl Chip {
    #[tactic(auto, using(base::specs::Tests::tests), unfolding(crate::specs::State::chip_new))]
    pub fn new(hz: u32) -> Self
        ensures { result ≡ chip_new hz }
    {
        let t = Tmr::new();
        let e = Enc::new();
        Chip {
            clock: Clock::new(hz),
            t4: T4::new(),
            t5: T5::new(),
            tmr: [t, t, t, t],
            tick: Tick::new(),
            audio: Audio::new(),
            spi: Spi::new(),
            uart: Uart::new(),
            host: Host::new(),
            script: Script::new(),
            pins: Pins::new(),
            enc: [e, e, e, e, e, e, e, e],
            keys: Keys::new(),
            adc: Adc::new(),
            latch: Latch::new(),
        }
    }
}

impl Panel {
    // The battery, channel 3, is full (591 or more are three bars); the MASTER pot, channel 4, is at 900.
    #[tactic(auto, using(base::specs::Tests::tests), unfolding(crate::specs::State::panel_new))]
    pub fn new() -> Self
        ensures { result ≡ panel_new }
    {
        let mut values = [512u16; 16];
        values[3] = 640;
        values[4] = 900;
        Panel {
            acc: [0u64; 41],
            ramps: Ramps::new(),
            values: values,
        }
    }

    // What a whole record asks of the panel, told the clock, the rate and how long an LED can have been lit.
    #[tactic(auto, using(base::specs::Tests::tests), unfolding(crate::specs::State::panel_whole))]
    fn whole(self, now: u64, hz: u32, most: u64) -> bool
        ensures { result ≡ panel_whole self now hz most }
    {
        self.ramps.whole(now, hz) & times_whole(&self.acc, most)
    }
}

impl Board {
    pub fn new(hz: u32) -> Self
        ensures { result ≡ board_new hz }
    {
        Board {
            chip: Chip::new(hz),
            panel: Panel::new(),
        }
    }

    // Whether the record is whole.
    pub fn whole(self) -> bool
        ensures { result ≡ board_whole self }
    {
        let c = self.chip;
        if c.whole() {
            let p = self.panel;
            return p.whole(
                c.clock.cycles,
                c.clock.hz,
                c.pins.led_last - c.pins.led_pend,
            );
        }
        false
    }
}

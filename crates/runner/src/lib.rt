// What the runner asks of a chip between steps, inner: a caller that knows the record whole calls these without tests. Ticks and idle time, the choice of an interrupt, SPI transfers and
// the shift register, times, the MIDI queue's counts, and the runner's settings.
#![tactic(auto)]

ghost use Rattle.std.specs.Prelude.{◌≡◌, ◌^◌, ◌<◌, ◌≤◌, length};
ghost use Rattle.base.specs.Limits.{rate_max, spi_bytes_max, spi_baud_max, ms_max};
ghost use Rattle.base.specs.Moments.{clock_max};
ghost use Rattle.irq.specs.Banks.{bank_words};
ghost use Rattle.irq.specs.Choice.{choice_of};
ghost use Rattle.irq.specs.Sources.{any_pending_of};
ghost use Rattle.state.specs.State.{pending_of};
ghost use Rattle.state.specs.Whole.{ChipOk, Sound};
ghost use Rattle.runner.specs.Runner.{
  ticked_of,
  is_due,
  room_of,
  next_due_of,
  jump_to,
  idle_end,
  idled_of,
  spi1_of,
  spi1_off_of,
  spi2_of,
  shifted_of,
  ms_of,
  cycles_of,
  light_of,
  with_ticks,
  with_skip,
  with_isr,
  with_cap,
  with_exc,
  with_spi2,
  with_usb,
  with_wdt,
};

use base::NEVER;
use irq::Choice;
use panel::{fm1, led_take as taken};
use state::{Board, Chip, Panel};
use times::{Cycles, cycles_of_ms, ms_of_cycles};

// ---- ticks

// One cycle on.
pub fn tick(mut c: Chip) -> Chip
    requires { c.clock.cycles ≤ clock_max }
    ensures { result ≡ ticked_of c }
{
    c.clock.cycles += 1;
    c
}

// Whether something timed is due (a step of 0 cycles then serves it).
pub fn is_due(c: Chip) -> bool
    ensures { result ≡ is_due c }
{
    c.clock.next_due <= c.clock.cycles
}

// Ticks that can pass before one is due, as far as the runner's cap.
pub fn tick_room(c: Chip) -> u64
    requires { c.clock.cycles ≤ clock_max }
    ensures { result ≡ room_of c }
{
    let next = c.clock.cycles + 1;
    if next < c.clock.next_due {
        return (c.clock.next_due - next).min(c.clock.room_cap);
    }
    0
}

pub fn next_tick_due(c: Chip) -> bool
    requires { c.clock.cycles ≤ clock_max }
    ensures { result ≡ next_due_of c }
{
    c.clock.next_due <= c.clock.cycles + 1
}

// ---- idle time

// Where an idle processor's clock goes: with skipping on and nothing pending, to just before the next event.
#[tactic(auto, unfolding(crate::specs::Runner::idle_end))]
pub fn idle_end(c: Chip) -> u64
    requires { c.clock.cycles ≤ clock_max }
    ensures { result ≡ idle_end c }
{
    let now = c.clock.cycles;
    if c.clock.skip_idle == 0 {
        return now;
    }
    if c.pending().any_pending() {
        return now;
    }
    let event = c.next_event();
    if event == NEVER {
        return now;
    }
    if now + 1 < event {
        return event - 1;
    }
    now
}

// The clock at its end, what it jumped over counted; a jump leaves the next step to look at everything.
#[tactic(auto, unfolding(crate::specs::Runner::jump_to))]
fn jumped(mut c: Chip, end: u64) -> Chip
    ensures { result ≡ jump_to c end }
{
    let now = c.clock.cycles;
    c.clock.cycles = end;
    c.clock.skipped = c.clock.skipped.wrapping_add(end.saturating_sub(now));
    if now < end {
        c.clock.next_due = 0;
    }
    c
}

#[tactic(auto, unfolding(crate::specs::Runner::idled_of))]
pub fn idle(c: Chip) -> Chip
    requires { ChipOk c }
    ensures { result ≡ idled_of c }
{
    jumped(c, idle_end(c))
}

// ---- interrupts

pub fn any_pending(c: Chip) -> bool
    ensures { result ≡ any_pending_of (pending_of c) }
{
    c.pending().any_pending()
}

pub fn pending_irq_for<'a>(c: Chip, core: u32, icfg: &'a [u32], icfg1: &'a [u32]) -> Option<Choice>
    requires { (length icfg.now ≡ bank_words) × (length icfg1.now ≡ bank_words) }
    ensures { result ≡ choice_of (pending_of c) core icfg.now icfg1.now }
{
    c.pending().pending_irq_for(core, icfg, icfg1)
}

// ---- SPI and the shift register

// A transfer of SPI1; with its interrupt on it is timed.
#[tactic(auto, unfolding(crate::specs::Runner::spi1_of))]
pub fn spi1_start(mut c: Chip, bytes: u32, baud: u32, irq: bool) -> Chip
    requires { (bytes ≤ spi_bytes_max) × (baud ≤ spi_baud_max) × (c.clock.cycles ≤ clock_max) × (c.spi.spi1_wire < 2 ^ 62) }
    ensures { result ≡ spi1_of c bytes baud irq }
{
    c.spi = c
        .spi
        .spi1_start(bytes, baud, irq, c.clock.cycles, c.clock.hz);
    if irq {
        c.clock.next_due = 0;
    }
    c
}

#[tactic(auto, unfolding(crate::specs::Runner::spi1_off_of))]
pub fn spi1_irq_off(mut c: Chip) -> Chip
    ensures { result ≡ spi1_off_of c }
{
    c.spi = c.spi.spi1_irq_off();
    c
}

#[tactic(auto, unfolding(crate::specs::Runner::spi2_of))]
pub fn spi2_start(mut c: Chip, bytes: u32, baud: u32, irq: bool) -> Chip
    requires { (bytes ≤ spi_bytes_max) × (baud ≤ spi_baud_max) × (c.clock.cycles ≤ clock_max) }
    ensures { result ≡ spi2_of c bytes baud irq }
{
    c.spi = c
        .spi
        .spi2_start(bytes, baud, irq, c.clock.cycles, c.clock.hz);
    c.clock.next_due = 0;
    c
}

// A byte that SPI2 clocks into the matrix's shift registers.
#[tactic(auto, unfolding(crate::specs::Runner::shifted_of))]
pub fn sr_shift_byte(mut c: Chip, b: u8) -> Chip
    ensures { result ≡ shifted_of c b }
{
    c.pins = c.pins.sr_shift_byte(b);
    c
}

// ---- times

pub fn ms(c: Chip) -> u64
    requires { c.clock.cycles ≤ clock_max }
    ensures { result ≡ ms_of c }
{
    ms_of_cycles(Cycles(c.clock.cycles), c.clock.hz)
}

pub fn cycle_of_ms(c: Chip, ms: u64) -> Cycles
    requires { (ms ≤ ms_max) × (c.clock.hz ≤ rate_max) }
    ensures { result.0 ≡ cycles_of c ms }
{
    cycles_of_ms(ms, c.clock.hz)
}

// ---- LEDs

// The light so far: what each LED was lit, and over how long.
#[derive(Clone, Copy)]
pub struct Light {
    pub board: Board,
    pub lit: [u64; 41],
    pub span: u64,
}

#[tactic(auto, unfolding(crate::specs::Runner::light_of))]
pub fn led_take(b: Board) -> Light
    requires { Sound b }
    ensures { result ≡ light_of b }
{
    let mut c = b.chip;
    // arrays go through variables: one that is stored straight has no generated proof
    let acc = b.panel.acc;
    let values = b.panel.values;
    let t = taken(acc, fm1(), c.pins, c.clock.cycles);
    let lit = t.lit;
    c.pins = t.pins;
    let panel = Panel {
        acc: [0; 41],
        ramps: b.panel.ramps,
        values,
    };
    Light {
        board: Board { chip: c, panel },
        lit,
        span: t.span,
    }
}

// ---- settings

pub fn set_cycle_ticks(mut c: Chip, ticks: u64) -> Chip
    ensures { result ≡ with_ticks c ticks }
{
    c.clock.cycle_ticks = ticks;
    c
}

#[tactic(auto, unfolding(crate::specs::Runner::with_skip))]
pub fn set_skip_idle(mut c: Chip, on: bool) -> Chip
    ensures { result ≡ with_skip c on }
{
    c.clock.skip_idle = u32::from(on);
    c
}

#[tactic(auto, unfolding(crate::specs::Runner::with_isr))]
pub fn set_in_isr(mut c: Chip, on: bool) -> Chip
    ensures { result ≡ with_isr c on }
{
    c.clock.in_isr = u64::from(on);
    c
}

pub fn set_room_cap(mut c: Chip, cap: u64) -> Chip
    ensures { result ≡ with_cap c cap }
{
    c.clock.room_cap = cap;
    c
}

#[tactic(auto, unfolding(crate::specs::Runner::with_exc))]
pub fn set_exc_pending(mut c: Chip, on: bool) -> Chip
    ensures { result ≡ with_exc c on }
{
    c.latch.exc_pending = u32::from(on);
    c
}

#[tactic(auto, unfolding(crate::specs::Runner::with_spi2))]
pub fn set_spi2_pending(mut c: Chip, on: bool) -> Chip
    ensures { result ≡ with_spi2 c on }
{
    c.spi.spi2_pending = u32::from(on);
    c
}

// A USB frame's deadline with its period, and the watchdog's: timed.
pub fn set_usb(mut c: Chip, at: u64, period: u64) -> Chip
    ensures { result ≡ with_usb c at period }
{
    c.host.usb_next = at;
    c.host.usb_period = period;
    c.clock.next_due = 0;
    c
}

pub fn set_wdt(mut c: Chip, at: u64) -> Chip
    ensures { result ≡ with_wdt c at }
{
    c.host.wdt_at = at;
    c.clock.next_due = 0;
    c
}

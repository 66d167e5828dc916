// What a write does, and what it answers.
ghost use Rattle.std.specs.Prelude.{◌≡◌, cond, ◌≤◌, ◌<◌, length};
ghost use Rattle.base.specs.Moments.{clock_max};
ghost use Rattle.irq.specs.Banks.{bank_words};
ghost use Rattle.keys.specs.Facts.{RampsShort};
ghost use Rattle.state.specs.Whole.{ChipOk, Sound};
ghost use Rattle.regs.specs.Writes.{
  timed_at,
  timers_take,
  wires_take,
  handled_at,
  tmr_written,
  timer_on,
  tmrs_written,
  t4_written,
  t5_written,
  tick_written,
  audio_written,
  uart_written,
  latch_written,
  pins_written,
  lights_at,
  times_written,
  bank_written_at,
  first_written,
  second_written,
  chip_written,
  adc_written,
  board_written,
};

use crate::reads::{BANK_BYTES, ICFG, ICFG1};
use audio::Audio;
use irq::{Latch, write_bank};
use panel::{Pins, Ramps, credit, fm1};
use state::{Board, Chip};
use timers::{T4, T5, Tick, Tmr};
use uart::Uart;

// Whether a write sets `next_due` to 0: a timer or a DMA may have been programmed, so the next step looks at everything. Not the converter's words, whose conversions are
// instant, nor the ports' (but for PD0, the flash's chip select), nor the counters' words that ignore writes: firmware writes those a million times a second.
#[tactic(auto, unfolding(crate::specs::Writes::timed_at))]
pub fn timed(addr: u32) -> bool
    ensures { result ≡ timed_at addr }
{
    (addr != 0x13100)
        & (addr != 0x13104)
        & ((addr < 0x50000) | (0x501ff < addr) | (addr == 0x500c0))
        & (addr != 0x10808)
        & (addr != 0x10904)
}

// All six timers take the same three words.
#[tactic(auto, unfolding(crate::specs::Writes::timers_take))]
fn timers_take(addr: u32) -> bool
    ensures { result ≡ timers_take addr }
{
    let at = addr % 256;
    (0x10400 <= addr) & (addr <= 0x109ff) & ((at == 0) | (at == 4) | (at == 8))
}

#[tactic(auto, unfolding(crate::specs::Writes::wires_take))]
fn wires_take(addr: u32) -> bool
    ensures { result ≡ wires_take addr }
{
    (addr == 0x12e00)
        | (addr == 0x12e04)
        | (addr == 0x12e08)
        | (addr == 0x12e0c)
        | (addr == 0x12e1c)
        | (addr == 0x12e20)
        | (addr == 0x12100)
        | (addr == 0x1211c)
        | (addr == 0x12120)
        | (addr == 0x12124)
        | (addr == 0x12110)
}

// What a write answers: false for a word that is plain storage as well, also where it acts (the UART's TX count, port A's direction, pull-ups and drive strength).
#[tactic(auto, unfolding(crate::specs::Writes::handled_at))]
pub fn handled(addr: u32) -> bool
    ensures { result ≡ handled_at addr }
{
    timers_take(addr)
        | wires_take(addr)
        | (addr == 0x13100)
        | (addr == 0x13104)
        | ((0x1eef100 <= addr) & (addr <= 0x1eef17f))
        | ((0x1eef300 <= addr) & (addr <= 0x1eef37f))
        | (addr == 0x1eef0ec)
        | (addr == 0x1eef0f0)
        | (addr == 0x1eef0f4)
        | (addr == 0x1eef1a0)
        | (addr == 0x1eef1a4)
        | (addr == 0x50000)
        | (addr == 0x501c0)
}

#[tactic(auto, unfolding(crate::specs::Writes::t4_written))]
fn t4_write(t: T4, addr: u32, v: u32, now: u64) -> T4
    ensures { result ≡ t4_written t addr v now }
{
    match addr {
        0x10800 => t.write_con(v, now),
        0x10804 => t.write_cnt(now),
        _ => t,
    }
}

#[tactic(auto, unfolding(crate::specs::Writes::t5_written))]
fn t5_write(t: T5, addr: u32, v: u32, now: u64, hz: u32) -> T5
    requires { now ≤ clock_max }
    ensures { result ≡ t5_written t addr v now hz }
{
    match addr {
        0x10900 => t.write_con(v, now, hz),
        0x10908 => t.write_prd(v),
        _ => t,
    }
}

// TIMER0 to 3, whose words begin at `base`.
#[tactic(auto, unfolding(crate::specs::Writes::tmr_written))]
fn tmr_write(t: Tmr, base: u32, addr: u32, v: u32, now: u64, hz: u32) -> Tmr
    requires { (now ≤ clock_max) × (base ≤ 0x10700) }
    ensures { result ≡ tmr_written t base addr v now hz }
{
    if addr == base {
        return t.write_con(v, now, hz);
    }
    if addr == base + 4 {
        return t.write_cnt(v, now, hz);
    }
    if addr == base + 8 {
        return t.write_prd(v, now, hz);
    }
    t
}

// The timer of a page, the last for a page of none.
#[tactic(auto, unfolding(crate::specs::Writes::timer_on))]
fn timer_on(t: [Tmr; 4], page: u32) -> Tmr
    ensures { result ≡ timer_on t page }
{
    match page {
        0x104 => t[0],
        0x105 => t[1],
        0x106 => t[2],
        _ => t[3],
    }
}

fn put(t: Tmr, here: bool, x: Tmr) -> Tmr
    ensures { result ≡ cond here x t }
{
    if here {
        return x;
    }
    t
}

// One call writes whichever timer it is, so that it can be compiled in place; an address elsewhere is told by its page.
fn tmrs_write(t: [Tmr; 4], addr: u32, v: u32, now: u64, hz: u32) -> [Tmr; 4]
    requires { now ≤ clock_max }
    ensures { result ≡ tmrs_written t addr v now hz }
{
    let t0 = t[0];
    let t1 = t[1];
    let t2 = t[2];
    let t3 = t[3];
    if addr / 1024 != 0x41 {
        return [t0, t1, t2, t3];
    }
    let page = addr / 256;
    let x = tmr_write(timer_on(t, page), addr - addr % 256, addr, v, now, hz);
    [
        put(t0, page == 0x104, x),
        put(t1, page == 0x105, x),
        put(t2, page == 0x106, x),
        put(t3, page == 0x107, x),
    ]
}

#[tactic(auto, unfolding(crate::specs::Writes::audio_written))]
fn audio_write(a: Audio, addr: u32, v: u32, now: u64, hz: u32) -> Audio
    requires { (a.len ≤ 65535) × (now ≤ clock_max) }
    ensures { result ≡ audio_written a addr v now hz }
{
    match addr {
        0x12e00 => a.write_con0(v, now, hz),
        0x12e04 => a.write_con1(v),
        0x12e08 => a.write_pend(v),
        0x12e0c => a.write_con3(v),
        0x12e1c => a.write_adr(v),
        0x12e20 => a.write_len(v),
        _ => a,
    }
}

#[tactic(auto, unfolding(crate::specs::Writes::tick_written))]
fn tick_write(t: Tick, addr: u32, v: u32, now: u64, hz: u32) -> Tick
    requires { now ≤ clock_max }
    ensures { result ≡ tick_written t addr v now hz }
{
    match addr {
        0x1eef0ec => t.write_ctl(v, now, hz),
        0x1eef0f0 => t.write_cnt(now, hz),
        0x1eef0f4 => t.write_prd(v),
        _ => t,
    }
}

#[tactic(auto, unfolding(crate::specs::Writes::latch_written))]
fn latch_write(l: Latch, addr: u32, v: u32) -> Latch
    ensures { result ≡ latch_written l addr v }
{
    match addr {
        0x1eef1a0 => l.set(v),
        0x1eef1a4 => l.clear(v),
        _ => l,
    }
}

#[tactic(auto, unfolding(crate::specs::Writes::uart_written))]
fn uart_write(u: Uart, addr: u32, v: u32) -> Uart
    ensures { result ≡ uart_written u addr v }
{
    match addr {
        0x12100 => u.write_con0(v),
        0x1211c => u.write_rxsadr(v),
        0x12120 => u.write_rxeadr(v),
        0x12124 => u.write_rxcnt(v),
        0x12110 => u.write_otcnt(v),
        0x12118 => u.write_txcnt(),
        _ => u,
    }
}

// The words that drive LEDs credit the time so far first.
#[tactic(auto, unfolding(crate::specs::Writes::pins_written))]
fn pins_write(p: Pins, addr: u32, v: u32, now: u64) -> Pins
    requires { (p.led_last ≤ now) × (p.led_pend ≤ p.led_last) }
    ensures { result ≡ pins_written p addr v now }
{
    match addr {
        0x50000 => p.led_credit(now).pa_write(v),
        0x50008 => p.write_dir(v),
        0x50010 => p.write_pu(v),
        0x50018 => p.write_hd0(v),
        0x5001c => p.write_hd(v),
        0x501c0 => p.led_credit(now).ph_write(v),
        _ => p,
    }
}

// Whether a write drives LEDs.
fn lights(addr: u32) -> bool
    ensures { result ≡ lights_at addr }
{
    (addr == 0x50000) | (addr == 0x501c0)
}

// The LEDs' times before such a write: what was lit so far is charged.
#[tactic(auto, unfolding(crate::specs::Writes::times_written))]
pub fn light(acc: &mut [u64; 41], pins: Pins, addr: u32, now: u64)
    ensures { acc.new ≡ times_written pins addr now acc.old }
{
    if lights(addr) {
        credit(acc, fm1(), pins, now);
    }
}

// A write, but for the banks', the converter's and the LEDs' times: each block takes the words that are its own.
#[tactic(auto, using(base::specs::Tests::tests), unfolding(crate::specs::Writes::chip_written))]
pub fn write_chip(mut c: Chip, addr: u32, v: u32) -> Chip
    requires { ChipOk c }
    ensures { result ≡ chip_written c addr v }
{
    let now = c.clock.cycles;
    let hz = c.clock.hz;
    let t = c.tmr;
    let tmr = tmrs_write(t, addr, v, now, hz);
    if timed(addr) {
        c.clock.next_due = 0;
    }
    c.t4 = t4_write(c.t4, addr, v, now);
    c.t5 = t5_write(c.t5, addr, v, now, hz);
    c.tmr = tmr;
    c.tick = tick_write(c.tick, addr, v, now, hz);
    c.audio = audio_write(c.audio, addr, v, now, hz);
    c.uart = uart_write(c.uart, addr, v);
    c.pins = pins_write(c.pins, addr, v, now);
    c.latch = latch_write(c.latch, addr, v);
    c
}

// A write of the converter's CON (0x13100): a conversion is instant, and timed only where it moves the interrupt's line.
#[tactic(auto, unfolding(crate::specs::Writes::adc_written))]
pub fn convert(mut c: Chip, ramps: &Ramps, values: &[u16; 16], v: u32) -> Chip
    requires { RampsShort ramps.now }
    ensures { result ≡ adc_written c ramps.now values.now v }
{
    let w = c
        .adc
        .write_con(fm1(), c.pins, ramps, values, c.clock.cycles, v);
    if w.due {
        c.clock.next_due = 0;
    }
    let a = w.adc;
    c.adc = a;
    c
}

// A bank whose words begin at `from`, by the addresses of its own.
pub fn write_bank_at(bank: &mut [u32], from: u32, addr: u32, v: u32)
    requires { length bank.old ≡ bank_words }
    ensures { bank.new ≡ bank_written_at bank.old from addr v }
{
    if from <= addr && addr - from < BANK_BYTES {
        write_bank(bank, addr - from, v);
    }
}

// The whole of a write; what it answers is `handled(addr)`.
#[tactic(auto, unfolding(crate::specs::Writes::board_written, crate::specs::Writes::first_written, crate::specs::Writes::second_written))]
pub fn write(mut b: Board, icfg: &mut [u32], icfg1: &mut [u32], addr: u32, v: u32) -> Board
    requires { Sound b × (length icfg.old ≡ bank_words) × (length icfg1.old ≡ bank_words) }
    ensures value { result ≡ board_written b addr v }
    ensures first { icfg.new ≡ first_written icfg.old addr v }
    ensures second { icfg1.new ≡ second_written icfg1.old addr v }
{
    write_bank_at(icfg, ICFG, addr, v);
    write_bank_at(icfg1, ICFG1, addr, v);
    let c = b.chip;
    if addr == 0x13100 {
        let d = convert(c, &b.panel.ramps, &b.panel.values, v);
        b.chip = d;
        return b;
    }
    light(&mut b.panel.acc, c.pins, addr, c.clock.cycles);
    let d = write_chip(c, addr, v);
    b.chip = d;
    b
}

// What a read of a register answers, inner: a caller that knows the record whole reads here, without tests. The page of an address (its 256 bytes) tells the block, the address the register, and a word
// that is plain storage answers none. A plain read changes nothing; a read of TIMER4's count may skip idle time (`polls`, `polled`).
ghost use Rattle.std.specs.Prelude.{◌≡◌, ◌≤◌, ◌<◌, length};
ghost use Rattle.irq.specs.Banks.{bank_words};
ghost use Rattle.state.specs.Whole.{ChipOk};
ghost use Rattle.regs.specs.Reads.{
  tmr_read,
  t4_read,
  t5_read,
  tick_read,
  uart_read,
  audio_read,
  adc_read,
  rows_of,
  port_read,
  bank_read_at,
  first_read,
  polls_at,
  polled_of,
  read_of,
};

use adc::Adc;
use audio::Audio;
use irq::{Latch, read_bank};
use panel::{Enc, Keys, Pins, closed_rows, encs_closed, fm1, pa_in, pb_in};
use state::Chip;
use timers::{T4, T5, Tick, Tmr};
use uart::Uart;

// TIMER0 to 3, whose words begin at `base`.
#[tactic(auto, unfolding(crate::specs::Reads::tmr_read))]
fn tmr_read(t: Tmr, base: u32, addr: u32, now: u64, hz: u32) -> Option<u32>
    requires { (t.start ≤ now) × (base ≤ 0x10700) }
    ensures { result ≡ tmr_read t base addr now hz }
{
    if addr == base {
        return Some(t.read_con());
    }
    if addr == base + 4 {
        return Some(t.read_cnt(now, hz));
    }
    if addr == base + 8 {
        return Some(t.prd);
    }
    None
}

#[tactic(auto, unfolding(crate::specs::Reads::t4_read))]
fn t4_read(t: T4, addr: u32, now: u64, hz: u32) -> Option<u32>
    requires { t.base ≤ now }
    ensures { result ≡ t4_read t addr now hz }
{
    match addr {
        0x10800 => Some(t.con),
        0x10804 => Some(t.read_cnt(now, hz).0),
        _ => None,
    }
}

#[tactic(auto, unfolding(crate::specs::Reads::t5_read))]
fn t5_read(t: T5, addr: u32, now: u64, hz: u32) -> Option<u32>
    ensures { result ≡ t5_read t addr now hz }
{
    match addr {
        0x10900 => Some(t.read_con()),
        0x10904 => Some(t.read_cnt(now, hz).0),
        0x10908 => Some(t.prd),
        _ => None,
    }
}

#[tactic(auto, unfolding(crate::specs::Reads::tick_read))]
fn tick_read(t: Tick, addr: u32, now: u64, hz: u32) -> Option<u32>
    requires { t.start ≤ now }
    ensures { result ≡ tick_read t addr now hz }
{
    match addr {
        0x1eef0ec => Some(t.read_ctl()),
        0x1eef0f0 => Some(t.read_cnt(now, hz)),
        0x1eef0f4 => Some(t.prd),
        _ => None,
    }
}

#[tactic(auto, unfolding(crate::specs::Reads::audio_read))]
fn audio_read(a: Audio, addr: u32) -> Option<u32>
    requires { a.half ≤ 1 }
    ensures { result ≡ audio_read a addr }
{
    match addr {
        0x12e00 => Some(a.read_con0()),
        0x12e04 => Some(a.con1),
        0x12e08 => Some(a.pend),
        0x12e0c => Some(a.con3),
        0x12e1c => Some(a.adr),
        0x12e20 => Some(a.len),
        _ => None,
    }
}

#[tactic(auto, unfolding(crate::specs::Reads::adc_read))]
fn adc_read(a: Adc, addr: u32) -> Option<u32>
    ensures { result ≡ adc_read a addr }
{
    match addr {
        0x13100 => Some(a.read_con()),
        0x13104 => Some(a.read_res()),
        _ => None,
    }
}

#[tactic(auto, unfolding(crate::specs::Reads::uart_read))]
fn uart_read(u: Uart, addr: u32) -> Option<u32>
    ensures { result ≡ uart_read u addr }
{
    match addr {
        0x12100 => Some(u.read_con0()),
        0x1211c => Some(u.rxsadr),
        0x12120 => Some(u.rxeadr),
        0x12124 => Some(u.rxcnt),
        0x12110 => Some(u.otcnt),
        0x12128 => Some(u.hrxcnt),
        _ => None,
    }
}

// Rows that a closed contact pulls low in a selected column.
#[tactic(auto, unfolding(crate::specs::Reads::rows_of))]
fn rows(pins: Pins, keys: Keys, enc: [Enc; 8]) -> u32
    ensures { result ≡ rows_of pins keys enc }
{
    closed_rows(fm1(), keys.down, encs_closed(enc), pins.sr_latched)
}

#[tactic(auto, unfolding(crate::specs::Reads::port_read))]
fn port_read(pins: Pins, keys: Keys, enc: [Enc; 8], addr: u32) -> Option<u32>
    ensures { result ≡ port_read pins keys enc addr }
{
    match addr {
        0x50004 => Some(pa_in(pins.pa_out, rows(pins, keys, enc))),
        0x50044 => Some(pb_in(rows(pins, keys, enc))),
        _ => None,
    }
}

// The bytes of a bank.
pub const BANK_BYTES: u32 = 0x80;

// Where the banks begin.
pub const ICFG: u32 = 0x1eef100;

pub const ICFG1: u32 = 0x1eef300;

// A bank whose words begin at `from`, by any address of it.
fn read_bank_at(bank: &[u32], from: u32, addr: u32) -> Option<u32>
    requires { (length bank.now ≡ bank_words) × (from ≤ addr) }
    ensures { result ≡ bank_read_at bank.now from addr }
{
    if addr - from < BANK_BYTES {
        return Some(read_bank(bank, addr - from));
    }
    None
}

// The first bank, and the latch. Its clear word reads 0: a handler acknowledges by `|=` there, and a read-back of every pending bit would clear them all.
#[tactic(auto, unfolding(crate::specs::Reads::first_read))]
fn first_read(bank: &[u32], latch: Latch, addr: u32) -> Option<u32>
    requires { (length bank.now ≡ bank_words) × (0x1eef100 ≤ addr) }
    ensures { result ≡ first_read bank.now latch addr }
{
    match addr {
        0x1eef1a0 => Some(latch.read_set()),
        0x1eef1a4 => Some(latch.read_clear()),
        _ => read_bank_at(bank, ICFG, addr),
    }
}

// What a read answers now. That of TIMER4's count may first move the clock (`polled`).
#[tactic(auto, unfolding(crate::specs::Reads::read_of, crate::specs::Reads::second_read))]
pub fn read<'a>(c: Chip, icfg: &'a [u32], icfg1: &'a [u32], addr: u32) -> Option<u32>
    requires { ChipOk c × (length icfg.now ≡ bank_words) × (length icfg1.now ≡ bank_words) }
    ensures { result ≡ read_of c icfg.now icfg1.now addr }
{
    let now = c.clock.cycles;
    let hz = c.clock.hz;
    let t = c.tmr;
    let e = c.enc;
    match addr / 256 {
        0x108 => t4_read(c.t4, addr, now, hz),
        0x104 => tmr_read(t[0], 0x10400, addr, now, hz),
        0x105 => tmr_read(t[1], 0x10500, addr, now, hz),
        0x106 => tmr_read(t[2], 0x10600, addr, now, hz),
        0x107 => tmr_read(t[3], 0x10700, addr, now, hz),
        0x109 => t5_read(c.t5, addr, now, hz),
        0x12e => audio_read(c.audio, addr),
        0x131 => adc_read(c.adc, addr),
        0x1eef1 => first_read(icfg, c.latch, addr),
        0x1eef3 => read_bank_at(icfg1, ICFG1, addr),
        0x1eef0 => tick_read(c.tick, addr, now, hz),
        0x121 => uart_read(c.uart, addr),
        0x500 => port_read(c.pins, c.keys, e, addr),
        _ => None,
    }
}

// Whether a read counts as a poll: TIMER4's count while it runs and skipping is on, outside an ISR. Reads inside one neither count nor skip: a single read of the main loop
// right after the tick handler's own once skipped time, and notes went silent.
#[tactic(auto, unfolding(crate::specs::Reads::polls_at))]
pub fn polls(c: Chip, addr: u32) -> bool
    ensures { result ≡ polls_at c addr }
{
    (addr == 0x10804) & (c.t4.con & 1 != 0) & (c.clock.skip_idle != 0) & (c.clock.in_isr == 0)
}

// The chip after a poll: the third of three close together goes to just before the next event.
#[tactic(auto, unfolding(crate::specs::Reads::polled_of))]
pub fn polled(mut c: Chip) -> Chip
    requires { ChipOk c }
    ensures { result ≡ polled_of c }
{
    let now = c.clock.cycles;
    let p = c.t4.polled(now, c.clock.hz, c.next_event());
    let skipped = p.skipped(c.clock.skipped, now);
    let due = p.next_due(c.clock.next_due, now);
    let t4 = p.t4;
    c.t4 = t4;
    c.clock.cycles = p.clock;
    c.clock.skipped = skipped;
    c.clock.next_due = due;
    c
}

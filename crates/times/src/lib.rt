// The four clocks of the block and every conversion between them. Each clock's counts are a type of their own, so a
// count of one clock is not taken for another's: processor cycles, the crystal's 24 MHz counts (TIMER4, timers 0 to 3,
// audio frames), the 6 MHz counts of TIMER5 and the UART's 48 MHz clocks. `hz` is the processor's rate. Quotients floor.
// `bounded` clauses are what a caller's sums need; they follow from the first clause.
//
// The blocks' periods, timeouts and transfers are such counts too. The fields of their records are plain numbers: moments, and registers
// as the firmware reads them, in the layout that C sees. So a count gives up its type (`.0`) where a moment is added to it or a register handed out.
#![tactic(auto)]

mod wide;

ghost use Rattle.std.specs.Prelude.{◌≡◌, ◌*◌, ◌^◌, ◌<◌, ◌≤◌};
ghost use Rattle.base.specs.Limits.{spi_bytes_max, spi_baud_max};
ghost use Rattle.times.specs.Clocks.{
  mhz24_of_cycles,
  cycles_of_mhz24,
  mhz6_of_cycles,
  cycles_of_mhz6,
  cycles_of_uart,
  ms_of_cycles,
  cycles_of_ms,
  byte_time,
  ramp_cycles,
  spi1_cycles,
  spi2_cycles,
  low64,
};
ghost use Rattle.times.specs.Divider.{divider_of};
ghost use Rattle.times.specs.Watchdog.{wdt_ms};

use base::product;
pub use wide::{mul_div, quotient};

// Processor cycles: a length of time, or the time since the start.
#[derive(Clone, Copy)]
pub struct Cycles(pub u64);

// Counts of the 24 MHz crystal, as its 32-bit registers hold them.
#[derive(Clone, Copy)]
pub struct Mhz24(pub u32);

// Counts of the crystal divided by four (OSC/4).
#[derive(Clone, Copy)]
pub struct Mhz6(pub u32);

// Clocks of the UART (PLL48M).
#[derive(Clone, Copy)]
pub struct UartClocks(pub u32);

pub const T4_HZ: u64 = 24_000_000;

pub const T5_HZ: u64 = 6_000_000;

pub const UART_HZ: u64 = 48_000_000;

pub const MIDI_BYTE_BITS: u64 = 10;

pub const MIDI_BAUD: u64 = 31_250;

// ---- the crystal ------------------------------------------------------------

// TIMER4's count: a 32-bit register, so the low 32 bits of the exact quotient. A rate of 0 gives 0.
pub fn mhz24_of_cycles(c: Cycles, hz: u32) -> Mhz24
    ensures { result.0 ≡ mhz24_of_cycles c.0 hz }
{
    Mhz24(mul_div(c.0, T4_HZ, u64::from(hz)))
}

pub fn cycles_of_mhz24(n: Mhz24, hz: u32) -> Cycles
    ensures result_value { result.0 ≡ cycles_of_mhz24 n.0 hz }
    ensures bounded { result.0 ≤ n.0 * 179 }
{
    Cycles(product(n.0, hz) / T4_HZ)
}

// The low 32 bits of the exact quotient. A rate of 0 gives 0.
pub fn mhz6_of_cycles(c: Cycles, hz: u32) -> Mhz6
    ensures { result.0 ≡ mhz6_of_cycles c.0 hz }
{
    Mhz6(mul_div(c.0, T5_HZ, u64::from(hz)))
}

pub fn cycles_of_mhz6(n: Mhz6, hz: u32) -> Cycles
    ensures result_value { result.0 ≡ cycles_of_mhz6 n.0 hz }
    ensures bounded { result.0 ≤ n.0 * 716 }
{
    Cycles(product(n.0, hz) / T5_HZ)
}

// ---- UART and MIDI ----------------------------------------------------------

pub fn cycles_of_uart(n: UartClocks, hz: u32) -> Cycles
    ensures result_value { result.0 ≡ cycles_of_uart n.0 hz }
    ensures bounded { result.0 ≤ n.0 * 90 }
{
    Cycles(product(n.0, hz) / UART_HZ)
}

// The time of one MIDI byte on the wire, at least a cycle.
pub fn midi_byte_time(hz: u32) -> Cycles
    ensures { result.0 ≡ byte_time hz }
{
    Cycles((u64::from(hz) * MIDI_BYTE_BITS / MIDI_BAUD).max(1))
}

// ---- milliseconds -----------------------------------------------------------

// Exact wherever the quotient fits 64 bits, which it does for every clock up to 2^53; else its low 64 bits.
pub fn ms_of_cycles(c: Cycles, hz: u32) -> u64
    ensures { result ≡ low64 (ms_of_cycles c.0 hz) }
{
    quotient(c.0, 1000, u64::from(hz))
}

// Exact wherever the quotient fits 64 bits, which it does for every time up to 2^34 ms; else its low 64 bits.
pub fn cycles_of_ms(ms: u64, hz: u32) -> Cycles
    ensures { result.0 ≡ low64 (cycles_of_ms ms hz) }
{
    Cycles(quotient(ms, u64::from(hz), 1000))
}

// How long a key's force takes to its new value.
#[derive(Clone, Copy)]
pub enum RampTime {
    // a press lands in 1.5 ms
    Press,
    // a release lifts in 8 ms
    Release,
    // a held key is pressed to another force in 20 ms
    Pressure,
}

// The source works these out in f64; the whole numbers here equal that at every permitted rate (docs/PROMISES.md, T3).
pub fn ms_cycles(time: RampTime, hz: u32) -> Cycles
    ensures { result.0 ≡ ramp_cycles time hz }
{
    match time {
        RampTime::Press => Cycles(u64::from(hz) * 3 / 2000),
        RampTime::Release => Cycles(u64::from(hz) / 125),
        RampTime::Pressure => Cycles(u64::from(hz) / 50),
    }
}

// ---- SPI --------------------------------------------------------------------

// An SPI1 transfer's cycles: 8 bits a byte at 60 MHz / (baud + 1), the clock itself a whole number. No bytes count as one.
pub fn spi1_cycles(bytes: u32, baud: u32, hz: u32) -> Cycles
    requires { (bytes ≤ spi_bytes_max) × (baud ≤ spi_baud_max) }
    ensures result_value { result.0 ≡ spi1_cycles bytes baud hz }
    ensures bounded { result.0 < 2 ^ 40 }
{
    let clk = 60_000_000 / (u64::from(baud) + 1);
    let bits = bytes.max(1) * 8;
    Cycles((product(bits, hz) / clk).max(1))
}

// An SPI2 transfer's cycles: 16 * (baud + 1) clocks of 48 MHz a byte, so baud + 1 of 3 MHz. No bytes count as one.
pub fn spi2_cycles(bytes: u32, baud: u32, hz: u32) -> Cycles
    requires { (bytes ≤ spi_bytes_max) × (baud ≤ spi_baud_max) }
    ensures result_value { result.0 ≡ spi2_cycles bytes baud hz }
    ensures bounded { result.0 < 2 ^ 41 }
{
    let clocks = bytes.max(1) * (baud + 1);
    Cycles((product(clocks, hz) / 3_000_000).max(1))
}

// ---- divider and watchdog ---------------------------------------------------

// The prescaler of timers 0 to 3 by CON bits 4 to 7: four to the power of the two low bits, doubled by the third, times 256 by the fourth, and no other bit counts. All are powers of two, so one shift makes them; the original's
// list of sixteen would take 64 bytes of constants.
pub fn divider(code: u32) -> u32
    ensures value { result ≡ divider_of code }
    ensures bounded { (1 ≤ result) × (result ≤ 32768) }
{
    1u32 << (code % 4 * 2 + code / 4 % 2 + code / 8 % 2 * 8)
}

// The watchdog's period for a WDT_CON byte, in ms: 1 ms doubling to 512 ms, then 1 s doubling to 32 s.
pub fn wdt_ms(con: u8) -> u64
    ensures { result ≡ wdt_ms con }
{
    let t = con % 16;
    if t <= 9 {
        return 1u64 << t;
    }
    1000u64 << (t - 10)
}

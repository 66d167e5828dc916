// The conversions of `times`, each within 01's limits.
ghost use Rattle.std.specs.Prelude.{◌≡◌};
ghost use Rattle.asks_times.specs.Conversions.{spi1_in, spi2_in, milliseconds_of, cycles_in, count_in, period_of, count_of, half_of, timeout_of};

use base::{CLOCK_MAX, MS_MAX, SPI_BAUD_MAX, SPI_BYTES_MAX};
use times::{Cycles, Mhz6, Mhz24, UartClocks};

#[tactic(auto, unfolding(crate::specs::Conversions::spi1_in))]
pub fn spi1(bytes: u32, baud: u32, hz: u32) -> Option<u64>
    ensures { result ≡ spi1_in bytes baud hz }
{
    if SPI_BYTES_MAX < bytes {
        return None;
    }
    if SPI_BAUD_MAX < baud {
        return None;
    }
    Some(times::spi1_cycles(bytes, baud, hz).0)
}

#[tactic(auto, unfolding(crate::specs::Conversions::spi2_in))]
pub fn spi2(bytes: u32, baud: u32, hz: u32) -> Option<u64>
    ensures { result ≡ spi2_in bytes baud hz }
{
    if SPI_BYTES_MAX < bytes {
        return None;
    }
    if SPI_BAUD_MAX < baud {
        return None;
    }
    Some(times::spi2_cycles(bytes, baud, hz).0)
}

#[tactic(auto, unfolding(crate::specs::Conversions::milliseconds_of))]
pub fn milliseconds(c: Cycles, hz: u32) -> Option<u64>
    ensures { result ≡ milliseconds_of c.0 hz }
{
    if CLOCK_MAX < c.0 {
        return None;
    }
    Some(times::ms_of_cycles(c, hz))
}

#[tactic(auto, unfolding(crate::specs::Conversions::cycles_in))]
pub fn cycles(ms: u64, hz: u32) -> Option<u64>
    ensures { result ≡ cycles_in ms hz }
{
    if MS_MAX < ms {
        return None;
    }
    Some(times::cycles_of_ms(ms, hz).0)
}

// The longest period has room for every count below 2^32 - 1.
#[tactic(auto, unfolding(crate::specs::Conversions::count_in))]
pub fn timer5_count(c: Cycles, hz: u32) -> Option<u64>
    ensures { result ≡ count_in c.0 hz }
{
    if times::cycles_of_mhz6(Mhz6(0xffff_ffff), hz).0 < c.0 {
        return None;
    }
    Some(u64::from(times::mhz6_of_cycles(c, hz).0 % 0xffff_ffff))
}

#[tactic(auto, unfolding(crate::specs::Conversions::period_of))]
pub fn timer5_period(n: u32, hz: u32) -> u64
    ensures { result ≡ period_of n hz }
{
    times::cycles_of_mhz6(Mhz6(n.max(1)), hz).0.max(1)
}

#[tactic(auto, unfolding(crate::specs::Conversions::count_of))]
pub fn count(code: u32, hz: u32) -> Option<u64>
    ensures { result ≡ count_of code hz }
{
    if 15 < code {
        return None;
    }
    Some(times::cycles_of_mhz24(Mhz24(times::divider(code)), hz).0)
}

#[tactic(auto, unfolding(crate::specs::Conversions::half_of))]
pub fn half(len: u16, hz: u32) -> u64
    ensures { result ≡ half_of len hz }
{
    let counts = u32::from(len).max(2) / 2 * 544;
    times::cycles_of_mhz24(Mhz24(counts), hz).0.max(1)
}

#[tactic(auto, unfolding(crate::specs::Conversions::timeout_of))]
pub fn timeout(n: u32, hz: u32) -> u64
    ensures { result ≡ timeout_of n hz }
{
    let wait = times::cycles_of_uart(UartClocks(n), hz);
    wait.0.max(times::midi_byte_time(hz).0)
}

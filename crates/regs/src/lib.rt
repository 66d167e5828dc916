// The registers of the FM-1, inner: a caller that knows the record whole reads and writes here, without tests. Addresses are the source's. What a read answers is module `reads`, whose items are
// handed on; a write goes to the chip, to one of the banks, and, for the ports' words that drive LEDs, to the LEDs' times.
#![tactic(auto)]

mod reads;
mod writes;

pub use reads::{ICFG, ICFG1, polled, polls, read};
pub use writes::{convert, handled, light, timed, write, write_bank_at, write_chip};

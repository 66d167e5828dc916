// TIMER4, TIMER5, timers 0 to 3 and the OS tick: each a record by value whose methods hand back the record after a moment or a
// register write, or a register's value. `now` is the clock in cycles, `hz` its rate. A flag is 0 or not 0, as wide as leaves its
// record without a hole.
#![tactic(auto)]

mod os_tick;
mod timer;
mod timer4;
mod timer5;

pub use os_tick::Tick;
pub use timer::{Tmr, tmrs_at, tmrs_next, tmrs_whole};
pub use timer4::{Polled, T4};
pub use timer5::T5;

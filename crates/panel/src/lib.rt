// The front panel around the chip: the port pins with the key matrix's shift register, the encoders, the matrix rows that they and the keys close,
// the LEDs' light and the keys' forces. Which key or LED stands where is a `Map`, a parameter of every function that asks; `fm1()` is the FM-1's.
// Each block is a record by value whose methods hand back the record after a moment, a register write or an action; the LED times are lent, and so are the keys' ramps. `now` is
// the clock in cycles, `hz` its rate. The encoders and the keys are crates of their own, whose items are handed on here.
#![tactic(auto)]

mod led;
mod map;
mod matrix;
mod pins;

pub use encoders::{Enc, encs_at, encs_closed, encs_next, encs_turned, encs_whole};
pub use keys::{Keys, Ramps, is_down, times_whole};
pub use led::{Taken, credit, led_take};
pub use map::{Map, fm1};
pub use matrix::{closed_rows, pa_in, pb_in};
pub use pins::Pins;

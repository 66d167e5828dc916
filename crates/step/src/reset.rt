// A chip reset: the chip's own state as at power-on. What is outside it stays: the clock and the runner's settings, the count of halves played, keys, encoders and
// pots, the shift registers of the key matrix, the LEDs' light so far, the script, the bytes on their way in, a USB cable, the time on SPI1's wire. A field
// that is not named here is reset.
ghost use Rattle.std.specs.Prelude.{◌≡◌, length};
ghost use Rattle.irq.specs.Banks.{bank_words};
ghost use Rattle.step.specs.Reset.{chip_reset_of, kept, zeroed};

use state::{Board, Chip};

pub fn zero(bank: &mut [u32])
    requires { length bank.old ≡ bank_words }
    ensures { bank.new ≡ zeroed bank.old }
{
    for word in bank.iter_mut() {
        *word = 0;
    }
}

#[tactic(auto, unfolding(crate::specs::Reset::kept, state::specs::State::chip_new))]
fn reset(old: Chip) -> Chip
    ensures { result ≡ kept old }
{
    let mut c = Chip::new(old.clock.hz);
    c.clock.cycles = old.clock.cycles;
    c.clock.cycle_ticks = old.clock.cycle_ticks;
    c.clock.skip_idle = old.clock.skip_idle;
    c.clock.room_cap = old.clock.room_cap;
    c.clock.skipped = old.clock.skipped;
    c.spi.spi1_wire = old.spi.spi1_wire;
    c.audio.halves = old.audio.halves;
    c.host.usb_next = old.host.usb_next;
    c.host.usb_period = old.host.usb_period;
    c.uart = old.uart.chip_reset();
    c.pins = old.pins.chip_reset();
    c.keys = old.keys;
    // through a variable: an array that is stored straight has no generated proof
    let enc = old.enc;
    c.enc = enc;
    c.script = old.script;
    c
}

#[tactic(auto, unfolding(crate::specs::Reset::chip_reset_of))]
pub fn chip_reset(mut b: Board, icfg: &mut [u32], icfg1: &mut [u32]) -> Board
    requires { (length icfg.old ≡ bank_words) × (length icfg1.old ≡ bank_words) }
    ensures value { result ≡ chip_reset_of b }
    ensures bank { icfg.new ≡ zeroed icfg.old }
    ensures bank1 { icfg1.new ≡ zeroed icfg1.old }
{
    zero(icfg);
    zero(icfg1);
    b.chip = reset(b.chip);
    b
}

// The LEDs' light: cycles each key's or button's LED has been lit since it was last taken. A column's LED on row 1 to 4 belongs to the key at that place.
// The times are lent: the record of the pins says when they are to be charged (`Pins::led_charges`), so a port write seldom touches them.
ghost use Rattle.std.specs.Prelude.{◌≡◌, ◌<◌, ◌≤◌};
ghost use Rattle.panel.specs.Led.{
  charge_id,
  charge_rows,
  charged_of,
  credited_times,
  flushed_times,
  taken_of,
  span_of,
};

use crate::map::Map;
use crate::pins::Pins;

// A key's LED lit for dt more.
fn charge_id(acc: &mut [u64; 41], id: u8, dt: u64)
    ensures { acc.new ≡ charge_id acc.old id dt }
{
    if id < 41 {
        acc[id as usize] = acc[id as usize].wrapping_add(dt);
    }
}

// The LEDs of a column, on the rows whose line is on.
fn charge_rows(acc: &mut [u64; 41], ids: &[u8; 66], lines: u16, col: usize, dt: u64)
    requires { col < 11 }
    ensures { acc.new ≡ charge_rows ids.now lines col dt acc.old 4 }
{
    for row in 1..5 {
        if (lines >> row) % 2 == 1 {
            charge_id(acc, ids[row * 11 + col], dt);
        }
    }
}

// The LEDs of the selected columns, for the time dt in a state of lines and latch.
pub fn charge(acc: &mut [u64; 41], map: Map, lines: u16, latched: u16, dt: u64)
    ensures { acc.new ≡ charged_of map lines latched dt acc.old }
{
    for col in 0..11 {
        if (latched >> col) % 2 == 0 {
            charge_rows(acc, &map.ids, lines, col, dt);
        }
    }
}

// What `led_credit` does to the times.
pub fn credit(acc: &mut [u64; 41], map: Map, pins: Pins, now: u64)
    ensures { acc.new ≡ credited_times map pins now acc.old }
{
    if pins.led_charges(now) {
        charge(acc, map, pins.led_lines, pins.led_latched, pins.led_pend);
    }
}

// The time that adds up is charged; the record after it is `Pins::led_flush`.
fn flush(acc: &mut [u64; 41], map: Map, pins: Pins)
    ensures { acc.new ≡ flushed_times map pins acc.old }
{
    if pins.led_pend == 0 {
        return;
    }
    charge(acc, map, pins.led_lines, pins.led_latched, pins.led_pend);
}

// The light that is taken: each LED's lit cycles and the span that they are out of. The times then begin at 0.
#[derive(Clone, Copy, Debug, PartialEq, Eq)]
pub struct Taken {
    pub pins: Pins,
    pub lit: [u64; 41],
    pub span: u64,
}

pub fn led_take(acc: [u64; 41], map: Map, pins: Pins, now: u64) -> Taken
    requires { (pins.led_last ≤ now) × (pins.led_pend ≤ pins.led_last) × (pins.led_since ≤ now) }
    ensures { result ≡ taken_of map pins now acc }
{
    let mut lit = acc;
    credit(&mut lit, map, pins, now);
    let p = pins.led_credit(now);
    flush(&mut lit, map, p);
    let q = p.led_taken(now);
    Taken {
        pins: q,
        lit,
        span: (now - pins.led_since).max(1),
    }
}

// The SARADC (0x13100): CON (start is bit 6 with bit 4, done bit 7, channel bits 8 to 11) and RES, a value of ten bits. A conversion finishes at once, so a write of
// CON concerns what is timed only where it moves the interrupt line. Channels 0 and 1 are the matrix rows on PA7 and PA8: a conversion there reads the keys of that row
// in the selected columns, through the row's pull-up or its driver (crate pressure); any other channel, or a row that floats, its stored value.
#![tactic(auto)]

ghost use Rattle.std.specs.Prelude.{◌≡◌, ◌≤◌, ◌<◌, ◌^◌, Float};
ghost use Rattle.keys.specs.Facts.{RampsShort};
ghost use Rattle.pressure.specs.Pin.{Ohms, Wired};
ghost use Rattle.adc.specs.Adc.{
  adc_new,
  pin_at,
  key_value,
  least_to,
  pin_reads,
  channel_reads,
  con_read,
  acknowledged,
  converted,
  con_written,
  value_set,
};

use panel::{Map, Pins, Ramps};
use pressure::{OPEN, Pin, next_noise, pin_of, sample, value};

#[repr(C)]
#[derive(Clone, Copy, Debug, PartialEq, Eq)]
pub struct Adc {
    pub con: u32,
    pub noise: u32,
    pub done: u32,
    // the interrupt line
    pub irq: u16,
    pub sample: u16,
}

// The record after a write of CON, and whether the write sets `next_due` to 0.
#[derive(Clone, Copy, Debug, PartialEq, Eq)]
pub struct Wrote {
    pub adc: Adc,
    pub due: bool,
}

// A value and the noise generator after it.
#[derive(Clone, Copy, Debug, PartialEq, Eq)]
pub struct Sampled {
    pub sample: u16,
    pub noise: u32,
}

// What drives pin n of port A.
fn pin_at(pins: Pins, n: u32) -> Pin
    requires { n < 32 }
    ensures value { result ≡ pin_at pins n }
    ensures wired { Wired result }
{
    pin_of(
        (pins.pa_dir >> n) % 2 == 1,
        (pins.pa_out >> n) % 2 == 1,
        (pins.pa_hd0 >> n) % 2 == 1,
        (pins.pa_hd >> n) % 2 == 1,
        (pins.pa_pu >> n) % 2 == 1,
    )
}

// The value of the key of an id, in 256ths; where there is no key, that of an open one.
fn key_value(ramps: &Ramps, id: u8, now: u64, ohms: f32) -> u32
    requires { RampsShort ramps.now × Ohms ohms }
    ensures value { result ≡ key_value ramps.now now ohms id }
    ensures bounded { result ≤ 261888 }
{
    if id < 41 {
        return value(ramps.ramp_at(id as usize).at(now), ohms);
    }
    OPEN
}

// The least value over the keys of a row in the selected columns.
fn row_least(map: Map, ramps: &Ramps, latched: u16, row: usize, now: u64, ohms: f32) -> u32
    requires { (row < 6) × RampsShort ramps.now × Ohms ohms }
    ensures { result ≡ least_to map ramps.now latched row now ohms 11 }
{
    let mut v = OPEN;
    for col in 0..11 {
        if (latched >> col) % 2 == 0 {
            v = v.min(key_value(ramps, map.id(row, col), now, ohms));
        }
    }
    v
}

// What a row reads through its pin.
fn row_reads(
    map: Map,
    pins: Pins,
    ramps: &Ramps,
    row: usize,
    pin: u32,
    stored: u16,
    now: u64,
    noise: u32,
) -> Sampled
    requires { (row < 6) × (pin < 32) × RampsShort ramps.now }
    ensures { result ≡ pin_reads (pin_at pins pin) (λ ohms. least_to map ramps.now pins.sr_latched row now ohms 11) stored noise }
{
    match pin_at(pins, pin) {
        Pin::Low => Sampled { sample: 0, noise },
        Pin::Through(ohms) => {
            let least = row_least(map, ramps, pins.sr_latched, row, now, ohms);
            let moved = next_noise(noise);
            Sampled {
                sample: sample(least, moved),
                noise: moved,
            }
        }
        Pin::Floating => Sampled {
            sample: stored,
            noise,
        },
    }
}

fn channel_reads(
    map: Map,
    pins: Pins,
    ramps: &Ramps,
    stored: u16,
    now: u64,
    noise: u32,
    ch: u32,
) -> Sampled
    requires { RampsShort ramps.now }
    ensures { result ≡ channel_reads map pins ramps.now stored now noise ch }
{
    if ch < 2 {
        return row_reads(
            map,
            pins,
            ramps,
            3 + ch as usize,
            7 + ch,
            stored,
            now,
            noise,
        );
    }
    Sampled {
        sample: stored,
        noise,
    }
}

impl Adc {
    // At power-on, and after a chip reset.
    pub fn new() -> Self
        ensures { result ≡ adc_new }
    {
        Adc {
            con: 0,
            noise: 1,
            done: 0,
            irq: 0,
            sample: 0,
        }
    }

    // Bit 4 reads as written: a read-modify-write of bit 6 must keep it.
    pub fn read_con(self) -> u32
        ensures { result ≡ con_read self }
    {
        (self.con & !0x80) | base::when(self.done != 0, 0x80)
    }

    // The value, taken when the conversion started.
    pub fn read_res(self) -> u32
        ensures { result ≡ self.sample }
    {
        self.sample as u32
    }

    // Bit 6 without bit 4.
    fn acknowledged(mut self, v: u32) -> Wrote
        ensures { result ≡ acknowledged self v }
    {
        let due = self.irq != 0;
        self.con = v;
        self.done = 0;
        self.irq = 0;
        Wrote { adc: self, due }
    }

    // Bit 6 with bit 4: a conversion, from the channel's value that `values` keeps.
    fn converted(
        self,
        map: Map,
        pins: Pins,
        ramps: &Ramps,
        values: &[u16; 16],
        now: u64,
        v: u32,
    ) -> Wrote
        requires { RampsShort ramps.now }
        ensures { result ≡ converted self map pins ramps.now values.now now v }
    {
        let ch = (v >> 8) % 16;
        let got = channel_reads(map, pins, ramps, values[ch as usize], now, self.noise, ch);
        let raises = v & 0x20 != 0;
        Wrote {
            adc: Adc {
                con: v,
                noise: got.noise,
                done: 1,
                irq: u16::from(raises),
                sample: got.sample,
            },
            due: raises == (self.irq == 0),
        }
    }

    // A write of CON. The keys' ramps and the channels' values stay where they are kept.
    pub fn write_con(
        mut self,
        map: Map,
        pins: Pins,
        ramps: &Ramps,
        values: &[u16; 16],
        now: u64,
        v: u32,
    ) -> Wrote
        requires { RampsShort ramps.now }
        ensures { result ≡ con_written self map pins ramps.now values.now now v }
    {
        if v & 0x40 == 0 {
            self.con = v;
            return Wrote {
                adc: self,
                due: false,
            };
        }
        if v & 0x10 == 0 {
            return self.acknowledged(v);
        }
        self.converted(map, pins, ramps, values, now, v)
    }
}

// Action Adc: a channel's value.
pub fn set_value(values: &mut [u16; 16], ch: u8, v: u16)
    ensures { values.new ≡ value_set values.old ch v }
{
    if ch < 16 {
        values[ch as usize] = v.min(1023);
    }
}

// Ports A and H and the key matrix's two 74HC595s: PA4 SER, PA3 SRCLK, PA1 RCLK, most significant bit first, a low bit of the latch selects its column.
// With them the LEDs' account of time: the LED lines PA9, PA10, PH6, PH9 light the LED in the latched column on row 1, 2, 3, 4. The matrix scan
// writes the port half a million times a second, most without a change, so time in one state adds up here (`led_pend`) and is charged to its LEDs when
// the state changes or the light is taken.
ghost use Rattle.std.specs.Prelude.{◌≡◌, ◌^◌, ◌<◌, ◌≤◌};
ghost use Rattle.panel.specs.Pins.{
  pins_new,
  pins_reset,
  shifted_in,
  latched_by,
  pa_written,
  ph_written,
  dir_written,
  pu_written,
  hd0_written,
  hd_written,
  byte_shifted,
  lines_of,
  changes,
  charges,
  credited,
  taken,
  pins_whole,
};

#[repr(C)]
#[derive(Clone, Copy, Debug, PartialEq, Eq)]
pub struct Pins {
    // the last change of the LED lines or the latch; when the light was last taken; the time in the present state that is not yet charged
    pub led_last: u64,
    pub led_since: u64,
    pub led_pend: u64,
    pub pa_out: u32,
    pub ph_out: u32,
    // port A's direction (1 is an input), pull-ups and drive strength
    pub pa_dir: u32,
    pub pa_pu: u32,
    pub pa_hd0: u32,
    pub pa_hd: u32,
    pub sr_shift: u16,
    pub sr_latched: u16,
    // the LED state last credited: the source's `led_key`
    pub led_lines: u16,
    pub led_latched: u16,
}

impl Pins {
    pub fn new() -> Self
        ensures { result ≡ pins_new }
    {
        Pins {
            led_last: 0,
            led_since: 0,
            led_pend: 0,
            pa_out: 0,
            ph_out: 0,
            pa_dir: 0,
            pa_pu: 0,
            pa_hd0: 0,
            pa_hd: 0,
            sr_shift: 0xffff,
            sr_latched: 0xffff,
            led_lines: 0,
            led_latched: 0,
        }
    }

    // A chip reset: the ports as at power-on, uncredited light lost; the shift register and the light so far stay.
    pub fn chip_reset(self) -> Self
        ensures { result ≡ pins_reset self }
    {
        Pins {
            led_last: self.led_last,
            led_since: self.led_since,
            sr_shift: self.sr_shift,
            sr_latched: self.sr_latched,
            ..Pins::new()
        }
    }

    // SRCLK's rising edge shifts SER in, RCLK's makes the outputs follow.
    pub fn pa_write(mut self, v: u32) -> Self
        ensures { result ≡ pa_written self v }
    {
        let shifts = (self.pa_out & 8 == 0) & (v & 8 != 0);
        let latches = (self.pa_out & 2 == 0) & (v & 2 != 0);
        self.sr_shift = shifted_in(shifts, self.sr_shift, v);
        self.sr_latched = latched_by(latches, self.sr_shift, self.sr_latched);
        self.pa_out = v;
        self
    }

    pub fn ph_write(mut self, v: u32) -> Self
        ensures { result ≡ ph_written self v }
    {
        self.ph_out = v;
        self
    }

    // Port A's direction, pull-ups and drive strength, which the rows' readings need.
    pub fn write_dir(mut self, v: u32) -> Self
        ensures { result ≡ dir_written self v }
    {
        self.pa_dir = v;
        self
    }

    pub fn write_pu(mut self, v: u32) -> Self
        ensures { result ≡ pu_written self v }
    {
        self.pa_pu = v;
        self
    }

    pub fn write_hd0(mut self, v: u32) -> Self
        ensures { result ≡ hd0_written self v }
    {
        self.pa_hd0 = v;
        self
    }

    pub fn write_hd(mut self, v: u32) -> Self
        ensures { result ≡ hd_written self v }
    {
        self.pa_hd = v;
        self
    }

    // A byte clocked in by SPI2 (the stock firmware drives the columns this way; Felucca by SER and SRCLK).
    pub fn sr_shift_byte(mut self, b: u8) -> Self
        ensures { result ≡ byte_shifted self b }
    {
        self.sr_shift = (((self.sr_shift as u32) * 256 + (b as u32)) % 65536) as u16;
        self
    }

    // Which of rows 1 to 4 have their LED line on: PA9, PA10, PH6, PH9.
    fn lines(self) -> u16
        ensures { result ≡ lines_of self }
    {
        let a = (self.pa_out >> 9) % 2 * 2 + (self.pa_out >> 10) % 2 * 4;
        let h = (self.ph_out >> 6) % 2 * 8 + (self.ph_out >> 9) % 2 * 16;
        (a + h) as u16
    }

    // Whether LEDs are lit in another state than the one whose time adds up.
    fn changes(self, lines: u16) -> bool
        ensures { result ≡ changes self lines }
    {
        (lines != self.led_lines) | (self.sr_latched != self.led_latched)
    }

    // Whether `led_credit` now has first to charge the time that adds up: `charge` with this record's lines, latch and time.
    pub fn led_charges(self, now: u64) -> bool
        ensures { result ≡ charges self now }
    {
        let lines = self.lines();
        (now != self.led_last) & (lines != 0) & self.changes(lines) & (self.led_pend != 0)
    }

    // The time since the last change joins the time of the state that was lit.
    pub fn led_credit(mut self, now: u64) -> Self
        requires { (self.led_last ≤ now) × (self.led_pend ≤ self.led_last) }
        ensures { result ≡ credited self now }
    {
        let dt = now - self.led_last;
        self.led_last = now;
        if dt == 0 {
            return self;
        }
        let lines = self.lines();
        if lines == 0 {
            return self;
        }
        if self.changes(lines) {
            self.led_lines = lines;
            self.led_latched = self.sr_latched;
            self.led_pend = dt;
            return self;
        }
        self.led_pend = self.led_pend + dt;
        self
    }

    // The light is taken: the time that adds up was charged, and the next span begins.
    pub fn led_taken(mut self, now: u64) -> Self
        ensures { result ≡ taken self now }
    {
        self.led_pend = 0;
        self.led_since = now;
        self
    }

    // Its part of a whole record; the LEDs' times are `times_whole`.
    pub fn whole(self, now: u64) -> bool
        ensures { result ≡ pins_whole self now }
    {
        (self.led_last <= now) & (self.led_since <= now) & (self.led_pend <= self.led_last)
    }
}

fn shifted_in(shifts: bool, shift: u16, v: u32) -> u16
    ensures { result ≡ shifted_in shifts shift v }
{
    if shifts {
        return (((shift as u32) * 2 + (v >> 4) % 2) % 65536) as u16;
    }
    shift
}

fn latched_by(latches: bool, shift: u16, latched: u16) -> u16
    ensures { result ≡ latched_by latches shift latched }
{
    if latches {
        return shift;
    }
    latched
}

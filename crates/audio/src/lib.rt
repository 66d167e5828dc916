// ALNK0 (0x12e00): I2S out, a double-buffered DMA of LEN words a half at 44.1 kHz. A finished half pends, toggles CON0 bit 15 and hands out
// where it lies; the host moves it. One half a step: a backlog stays due, and comes a half at a time.
#![tactic(auto)]

ghost use Rattle.std.specs.Prelude.{◌≡◌, ◌^◌, ◌<◌, ◌≤◌};
ghost use Rattle.base.specs.Moments.{clock_max};
ghost use Rattle.audio.specs.Audio.{
  audio_new,
  words_of,
  half_period,
  pends_by,
  audio_at,
  con0_read,
  con0_written,
  con1_written,
  pend_written,
  con3_written,
  adr_written,
  len_written,
  audio_whole,
};

use base::{NEVER, switched};
use times::{Cycles, Mhz24};

#[repr(C)]
#[derive(Clone, Copy)]
pub struct Audio {
    pub next: u64,
    // halves played, a count that wraps
    pub halves: u64,
    // the half playing, 0 or 1
    pub half: u64,
    pub con0: u32,
    pub con1: u32,
    pub con3: u32,
    pub pend: u32,
    pub adr: u32,
    pub len: u32,
}

// A half buffer that finished playing: its address and its words.
#[derive(Clone, Copy, Debug, PartialEq, Eq)]
pub struct Half {
    pub addr: u32,
    pub words: u32,
}

#[derive(Clone, Copy)]
pub struct Played {
    pub audio: Audio,
    pub half: Option<Half>,
}

// 24 MHz counts of an I2S frame (44.1 kHz), of which a word is half
const FRAME_T4: u32 = 544;

impl Audio {
    pub fn new() -> Self
        ensures { result ≡ audio_new }
    {
        Audio {
            next: NEVER,
            halves: 0,
            half: 0,
            con0: 0,
            con1: 0,
            con3: 0,
            pend: 0,
            adr: 0,
            len: 0,
        }
    }

    fn words(self) -> u32
        ensures { result ≡ words_of self }
    {
        self.len.max(2)
    }

    #[tactic(auto, using(base::specs::Tests::tests), unfolding(crate::specs::Audio::half_period))]
    fn half_period(self, hz: u32) -> Cycles
        requires { self.len ≤ 65535 }
        ensures result_value { result.0 ≡ half_period self hz }
        ensures bounded { (0 < result.0) × (result.0 ≤ 2 ^ 32) }
    {
        let counts = self.words() / 2 * FRAME_T4;
        Cycles(times::cycles_of_mhz24(Mhz24(counts), hz).0.max(1))
    }

    // What the moment makes of it, and the half that it finds finished.
    #[tactic(auto, using(base::specs::Tests::tests), unfolding(crate::specs::Audio::audio_at, crate::specs::Audio::finished))]
    pub fn at(mut self, now: u64, hz: u32) -> Played
        requires { (self.half ≤ 1) × (self.len ≤ 65535) × (now ≤ clock_max) }
        ensures { result ≡ audio_at self now hz }
    {
        if now < self.next {
            return Played {
                audio: self,
                half: None,
            };
        }
        let words = self.words();
        let addr = self.adr.wrapping_add((self.half as u32) * words * 4);
        let period = self.half_period(hz);
        self.next = self.next + period.0;
        self.halves = self.halves.wrapping_add(1);
        self.half = 1 - self.half;
        self.pend = self.pend | pends(self.con1);
        Played {
            audio: self,
            half: Some(Half { addr, words }),
        }
    }

    pub fn read_con0(self) -> u32
        requires { self.half ≤ 1 }
        ensures { result ≡ con0_read self }
    {
        (self.con0 & !0x8000) | ((self.half as u32) << 15)
    }

    // Bit 11 starts the first half, or stops.
    #[tactic(auto, using(base::specs::Tests::tests), unfolding(crate::specs::Audio::con0_written))]
    pub fn write_con0(mut self, v: u32, now: u64, hz: u32) -> Self
        requires { (self.len ≤ 65535) × (now ≤ clock_max) }
        ensures { result ≡ con0_written self v now hz }
    {
        let was = self.con0 & 0x800 != 0;
        let on = v & 0x800 != 0;
        let fresh = now + self.half_period(hz).0;
        self.half = base::started(was, on, self.half, 0);
        self.next = switched(was, on, self.next, fresh);
        self.con0 = v & 0x7fff;
        self
    }

    pub fn write_con1(mut self, v: u32) -> Self
        ensures { result ≡ con1_written self v }
    {
        self.con1 = v & 0xffff;
        self
    }

    // Bits 0 to 3 clear pendings 4 to 7.
    pub fn write_pend(mut self, v: u32) -> Self
        ensures { result ≡ pend_written self v }
    {
        self.pend = self.pend & !((v & 0xf) << 4);
        self
    }

    pub fn write_con3(mut self, v: u32) -> Self
        ensures { result ≡ con3_written self v }
    {
        self.con3 = v & 0xff;
        self
    }

    pub fn write_adr(mut self, v: u32) -> Self
        ensures { result ≡ adr_written self v }
    {
        self.adr = v;
        self
    }

    pub fn write_len(mut self, v: u32) -> Self
        ensures { result ≡ len_written self v }
    {
        self.len = v & 0xffff;
        self
    }

    // Its part of a whole record.
    pub fn whole(self) -> bool
        ensures { result ≡ audio_whole self }
    {
        base::is_deadline(self.next) & (self.half <= 1) & (self.len <= 0xffff)
    }
}

// Every channel that CON1 sets up pends with the block: FM1 Open's driver takes its interrupt from receive channel 0 (bit 4), the stock one from
// transmit channel 3 (bit 7), which pends always.
fn pends(con1: u32) -> u32
    ensures { result ≡ pends_by con1 }
{
    base::when(con1 & 0xf != 0, 0x10)
        | base::when(con1 & 0xf0 != 0, 0x20)
        | base::when(con1 & 0xf00 != 0, 0x40)
        | 0x80
}

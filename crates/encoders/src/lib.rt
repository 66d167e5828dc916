// The encoders. A detent is one whole quadrature cycle, four states; clockwise runs the Gray sequence backwards, so clicks are taken away. The contacts
// move one state every 2 ms. `pending` holds an i32 as its bits: the states still to go. `now` is the clock in cycles, `hz` its rate.
#![tactic(auto)]

ghost use Rattle.std.specs.Prelude.{◌≡◌, ◌≤◌, ◌<◌, ◌^◌};
ghost use Rattle.base.specs.Moments.{clock_max};
ghost use Rattle.encoders.specs.Encoder.{
  enc_new,
  state_on,
  enc_at,
  enc_next,
  enc_turned,
  turned_if,
  closed_bits,
  enc_whole,
  encs_at,
  encs_next,
  encs_turned,
  encs_closed,
  encs_whole,
};

use base::{NEVER, i32_is_negative, i32_towards_zero};

#[repr(C)]
#[derive(Clone, Copy, Debug, PartialEq, Eq)]
pub struct Enc {
    pub next: u64,
    pub pending: u32,
    pub state: u32,
}

impl Enc {
    pub fn new() -> Self
        ensures { result ≡ enc_new }
    {
        Enc {
            next: 0,
            pending: 0,
            state: 0,
        }
    }

    // The state one on in the direction that is still to go.
    fn state_on(self) -> u32
        ensures { result ≡ state_on self }
    {
        if i32_is_negative(self.pending) {
            return (self.state % 4 + 3) % 4;
        }
        (self.state % 4 + 1) % 4
    }

    // What the moment makes of it: one state, however late.
    #[tactic(auto, using(base::specs::Tests::tests), unfolding(crate::specs::Encoder::enc_at))]
    pub fn at(mut self, now: u64, hz: u32) -> Self
        requires { now ≤ clock_max }
        ensures { result ≡ enc_at self now hz }
    {
        if self.pending == 0 {
            return self;
        }
        if now < self.next {
            return self;
        }
        let state = self.state_on();
        self.state = state;
        self.pending = i32_towards_zero(self.pending);
        self.next = now + u64::from(hz) / 500;
        self
    }

    // Its deadline, while it moves.
    pub fn next_event(self) -> u64
        ensures { result ≡ enc_next self }
    {
        if self.pending == 0 {
            return NEVER;
        }
        self.next
    }

    // Turned by clicks, an i32's bits: it moves from the next step on.
    pub fn turned(mut self, clicks: u32, now: u64) -> Self
        ensures { result ≡ enc_turned self clicks now }
    {
        self.pending = self.pending.wrapping_sub(clicks.wrapping_mul(4));
        self.next = now;
        self
    }

    fn turned_if(self, this: bool, clicks: u32, now: u64) -> Self
        ensures { result ≡ turned_if this self clicks now }
    {
        if this {
            return self.turned(clicks, now);
        }
        self
    }

    // Its closed contacts: A is bit 0, B bit 1.
    fn closed(self) -> u32
        ensures value { result ≡ closed_bits self.state }
        ensures bounded { result ≤ 3 }
    {
        match self.state {
            1 => 1,
            2 => 3,
            3 => 2,
            _ => 0,
        }
    }

    // Its part of a whole record.
    pub fn whole(self) -> bool
        ensures { result ≡ enc_whole self }
    {
        base::is_deadline(self.next) & (self.state < 4)
    }
}

// ---- the eight --------------------------------------------------------------
// What holds of one is proved once, and of the eight over the index.

pub fn encs_at(e: [Enc; 8], now: u64, hz: u32) -> [Enc; 8]
    requires { now ≤ clock_max }
    ensures { result ≡ encs_at e now hz }
{
    e.map(|x| x.at(now, hz))
}

// The earliest deadline of those that move.
pub fn encs_next(e: [Enc; 8]) -> u64
    ensures { result ≡ encs_next e }
{
    e.iter()
        .fold(e[0].next_event(), |first, x| first.min(x.next_event()))
}

// The encoder of that number turned; the FM-1 has seven, and any other number turns none. Unrolled: by a loop over the seven a chip so turned took 27 in a hundred more
// instructions, by an index at run time 55.
#[tactic(auto, using(base::specs::Tests::tests), unfolding(crate::specs::Encoder::encs_turned))]
pub fn encs_turned(e: [Enc; 8], enc: u8, clicks: u32, now: u64) -> [Enc; 8]
    ensures { result ≡ encs_turned e enc clicks now }
{
    let a = e[0].turned_if(enc == 0, clicks, now);
    let b = e[1].turned_if(enc == 1, clicks, now);
    let c = e[2].turned_if(enc == 2, clicks, now);
    let d = e[3].turned_if(enc == 3, clicks, now);
    let f = e[4].turned_if(enc == 4, clicks, now);
    let g = e[5].turned_if(enc == 5, clicks, now);
    let h = e[6].turned_if(enc == 6, clicks, now);
    let i = e[7];
    [a, b, c, d, f, g, h, i]
}

// The closed contacts of the seven: encoder i's A is bit 2 i, its B the next.
pub fn encs_closed(e: [Enc; 8]) -> u32
    ensures { result ≡ encs_closed e }
{
    let mut bits = 0;
    for i in 0..7 {
        bits += e[i].closed() << (2 * i);
    }
    bits
}

pub fn encs_whole(e: [Enc; 8]) -> bool
    ensures { result ≡ encs_whole e }
{
    e.iter().fold(true, |ok, x| ok & x.whole())
}

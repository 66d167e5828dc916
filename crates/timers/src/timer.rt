// Timers 0 to 3 (0x10400 + 0x100 * n, IRQ 4 + n): the 24 MHz crystal through a prescaler, CON bits 4 to 7. CNT is where it counts
// from, PRD the count that raises the interrupt and restarts it. (The stock firmware's 2 ms ADC scan and key scan run on TIMER1.)
ghost use Rattle.std.specs.Prelude.{◌≡◌, ◌-◌, ◌*◌, ◌^◌, ◌<◌, ◌≤◌, max};
ghost use Rattle.base.specs.Moments.{clock_max};
ghost use Rattle.timers.specs.Timer.{
  tmr_new,
  tmr_per_count,
  tmr_period,
  tmr_at,
  tmr_con,
  tmr_cnt,
  tmr_armed,
  tmr_con_written,
  tmr_cnt_written,
  tmr_prd_written,
  tmr_whole,
  tmrs_at,
  tmrs_next,
  tmrs_whole,
};

use base::{NEVER, product, rearmed};
use times::{Cycles, Mhz24};

#[repr(C)]
#[derive(Clone, Copy, Debug, PartialEq, Eq)]
pub struct Tmr {
    pub start: u64,
    pub next: u64,
    pub con: u32,
    pub prd: u32,
    pub cnt0: u32,
    pub pending: u32,
}

impl Tmr {
    pub fn new() -> Self
        ensures { result ≡ tmr_new }
    {
        Tmr {
            start: 0,
            next: NEVER,
            con: 0,
            prd: 0,
            cnt0: 0,
            pending: 0,
        }
    }

    // Cycles per count: the crystal through the prescaler, at least one.
    #[tactic(auto, using(base::specs::Tests::tests), unfolding(crate::specs::Timer::tmr_per_count))]
    fn per_count(self, hz: u32) -> Cycles
        ensures result_value { result.0 ≡ tmr_per_count self hz }
        ensures bounded { (0 < result.0) × (result.0 ≤ 2 ^ 23) }
    {
        let divider = times::divider(self.con / 16);
        Cycles(times::cycles_of_mhz24(Mhz24(divider), hz).0.max(1))
    }

    // The time of so many counts.
    fn cycles_of(self, counts: u32, hz: u32) -> Cycles
        ensures result_value { result.0 ≡ counts * tmr_per_count self hz }
        ensures bounded { result.0 ≤ counts * 2 ^ 23 }
    {
        Cycles(product(counts, self.per_count(hz).0 as u32))
    }

    // A period: PRD counts, of which none count as one.
    #[tactic(auto, using(base::specs::Tests::tests), unfolding(crate::specs::Timer::tmr_period))]
    fn period(self, hz: u32) -> Cycles
        ensures result_value { result.0 ≡ tmr_period self hz }
        ensures bounded { result.0 ≤ 2 ^ 55 }
    {
        self.cycles_of(self.prd.max(1), hz)
    }

    // What the moment makes of it.
    pub fn at(mut self, now: u64, hz: u32) -> Self
        requires { now ≤ clock_max }
        ensures { result ≡ tmr_at self now hz }
    {
        if now < self.next {
            return self;
        }
        let period = self.period(hz);
        self.start = self.next;
        self.next = rearmed(self.next, now, period.0);
        self.cnt0 = 0;
        self.pending = 1;
        self
    }

    pub fn read_con(self) -> u32
        ensures { result ≡ tmr_con self }
    {
        if self.pending == 0 {
            return self.con;
        }
        self.con | 0x8000
    }

    // Where it stands now; it counts while it has a deadline. The count wraps.
    #[tactic(auto, using(base::specs::Tests::tests), unfolding(crate::specs::Timer::tmr_cnt))]
    pub fn read_cnt(self, now: u64, hz: u32) -> u32
        requires { self.start ≤ now }
        ensures { result ≡ tmr_cnt self now hz }
    {
        if self.next == NEVER {
            return self.cnt0;
        }
        let counts = (now - self.start) / self.per_count(hz).0;
        self.cnt0.wrapping_add((counts % 0x1_0000_0000) as u32)
    }

    // After each register write it starts anew from CNT, if it is on and has a period.
    fn armed(mut self, now: u64, hz: u32) -> Self
        requires { now ≤ clock_max }
        ensures { result ≡ tmr_armed self now hz }
    {
        if self.con & 3 == 0 {
            self.next = NEVER;
            return self;
        }
        if self.prd == 0 {
            self.next = NEVER;
            return self;
        }
        self.start = now;
        self.next = now + self.cycles_of(self.left(), hz).0;
        self
    }

    // Counts to go, at least one.
    fn left(self) -> u32
        ensures { result ≡ max (self.prd - self.cnt0) 1 }
    {
        self.prd.saturating_sub(self.cnt0).max(1)
    }

    #[tactic(auto, using(base::specs::Tests::tests), unfolding(crate::specs::Timer::tmr_con_written))]
    pub fn write_con(mut self, v: u32, now: u64, hz: u32) -> Self
        requires { now ≤ clock_max }
        ensures { result ≡ tmr_con_written self v now hz }
    {
        if v & 0x4000 != 0 {
            self.pending = 0;
        }
        self.con = v & !0xc000;
        self.armed(now, hz)
    }

    pub fn write_cnt(mut self, v: u32, now: u64, hz: u32) -> Self
        requires { now ≤ clock_max }
        ensures { result ≡ tmr_cnt_written self v now hz }
    {
        self.cnt0 = v;
        self.armed(now, hz)
    }

    pub fn write_prd(mut self, v: u32, now: u64, hz: u32) -> Self
        requires { now ≤ clock_max }
        ensures { result ≡ tmr_prd_written self v now hz }
    {
        self.prd = v;
        self.armed(now, hz)
    }

    // Its part of a whole record.
    pub fn whole(self, now: u64) -> bool
        ensures { result ≡ tmr_whole self now }
    {
        base::is_deadline(self.next) & (self.start <= now)
    }
}

// ---- the four ---------------------------------------------------------------
// What holds of one timer is proved once, and of the four over the index.

pub fn tmrs_at(t: [Tmr; 4], now: u64, hz: u32) -> [Tmr; 4]
    requires { now ≤ clock_max }
    ensures { result ≡ tmrs_at t now hz }
{
    t.map(|x| x.at(now, hz))
}

// The earliest deadline.
pub fn tmrs_next(t: [Tmr; 4]) -> u64
    ensures { result ≡ tmrs_next t }
{
    t.iter().fold(t[0].next, |first, x| first.min(x.next))
}

pub fn tmrs_whole(t: [Tmr; 4], now: u64) -> bool
    ensures { result ≡ tmrs_whole t now }
{
    t.iter().fold(true, |ok, x| ok & x.whole(now))
}

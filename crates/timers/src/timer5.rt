// TIMER5 (0x10900): a periodic interrupt, PRD in counts of 6 MHz.
ghost use Rattle.std.specs.Prelude.{◌≡◌, ◌^◌, ◌<◌, ◌≤◌, max};
ghost use Rattle.base.specs.Moments.{clock_max, is_deadline};
ghost use Rattle.timers.specs.Timer5.{t5_new, t5_period, t5_at, t5_con, t5_cnt, t5_con_written, t5_prd_written};

use base::{NEVER, rearmed, switched};
use times::{Cycles, Mhz6};

#[repr(C)]
#[derive(Clone, Copy, Debug, PartialEq, Eq)]
pub struct T5 {
    pub next: u64,
    pub pending: u64,
    pub con: u32,
    pub prd: u32,
}

impl T5 {
    pub fn new() -> Self
        ensures { result ≡ t5_new }
    {
        T5 {
            next: NEVER,
            pending: 0,
            con: 0,
            prd: 0,
        }
    }

    // PRD's counts, of which none count as one.
    fn counts(self) -> Mhz6
        ensures { result.0 ≡ max self.prd 1 }
    {
        Mhz6(self.prd.max(1))
    }

    // Their time, at least a cycle.
    #[tactic(auto, using(base::specs::Tests::tests), unfolding(crate::specs::Timer5::t5_period))]
    fn period(self, hz: u32) -> Cycles
        ensures result_value { result.0 ≡ t5_period self hz }
        ensures bounded { (0 < result.0) × (result.0 ≤ 2 ^ 42) }
    {
        Cycles(times::cycles_of_mhz6(self.counts(), hz).0.max(1))
    }

    // What the moment makes of it.
    pub fn at(mut self, now: u64, hz: u32) -> Self
        requires { now ≤ clock_max }
        ensures { result ≡ t5_at self now hz }
    {
        if now < self.next {
            return self;
        }
        let period = self.period(hz);
        self.next = rearmed(self.next, now, period.0);
        self.pending = 1;
        self
    }

    pub fn read_con(self) -> u32
        ensures { result ≡ t5_con self }
    {
        if self.pending == 0 {
            return self.con;
        }
        self.con | 0x8000
    }

    // How far into the period it is; 0 where the deadline is past.
    #[tactic(auto, using(base::specs::Tests::tests), unfolding(crate::specs::Timer5::t5_cnt, crate::specs::Timer5::t5_period))]
    pub fn read_cnt(self, now: u64, hz: u32) -> Mhz6
        ensures { result.0 ≡ t5_cnt self now hz }
    {
        if self.con & 1 == 0 {
            return Mhz6(0);
        }
        if self.next == NEVER {
            return Mhz6(0);
        }
        if self.next < now {
            return Mhz6(0);
        }
        let period = self.period(hz).0;
        let into = period - (self.next - now).min(period);
        let count = times::mhz6_of_cycles(Cycles(into), hz).0 % self.counts().0;
        Mhz6(count)
    }

    #[tactic(auto, using(base::specs::Tests::tests), unfolding(crate::specs::Timer5::t5_con_written))]
    pub fn write_con(mut self, v: u32, now: u64, hz: u32) -> Self
        requires { now ≤ clock_max }
        ensures { result ≡ t5_con_written self v now hz }
    {
        let was = self.con & 1 != 0;
        let fresh = now + self.period(hz).0;
        self.next = switched(was, v & 1 != 0, self.next, fresh);
        if v & 0x4000 != 0 {
            self.pending = 0;
        }
        self.con = v & !0xc000;
        self
    }

    pub fn write_prd(mut self, v: u32) -> Self
        ensures { result ≡ t5_prd_written self v }
    {
        self.prd = v;
        self
    }

    // Its part of a whole record.
    pub fn whole(self) -> bool
        ensures { result ≡ is_deadline self.next }
    {
        base::is_deadline(self.next)
    }
}

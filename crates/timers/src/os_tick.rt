// The OS tick (0x1eef0ec, IRQ 3): 10 ms however its period register is scaled (the stock os_start writes clk/100). CTL bit 0 runs it, bit 6
// written acknowledges, bit 7 read is its interrupt; the count is in the period register's units.
ghost use Rattle.std.specs.Prelude.{◌≡◌, ◌^◌, ◌<◌, ◌≤◌};
ghost use Rattle.base.specs.Moments.{clock_max};
ghost use Rattle.timers.specs.OsTick.{tick_new, tick_period, tick_at, tick_ctl, tick_cnt, tick_ctl_written, tick_cnt_written, tick_prd_written, tick_whole};

use base::{NEVER, rearmed, started, switched};
use times::Cycles;

#[repr(C)]
#[derive(Clone, Copy, Debug, PartialEq, Eq)]
pub struct Tick {
    pub start: u64,
    pub next: u64,
    pub pending: u64,
    pub ctl: u32,
    pub prd: u32,
}

impl Tick {
    pub fn new() -> Self
        ensures { result ≡ tick_new }
    {
        Tick {
            start: 0,
            next: NEVER,
            pending: 0,
            ctl: 0,
            prd: 0,
        }
    }

    // What the moment makes of it.
    pub fn at(mut self, now: u64, hz: u32) -> Self
        requires { now ≤ clock_max }
        ensures { result ≡ tick_at self now hz }
    {
        if now < self.next {
            return self;
        }
        self.start = self.next;
        self.next = rearmed(self.next, now, tick_period(hz).0);
        self.pending = 1;
        self
    }

    pub fn read_ctl(self) -> u32
        ensures { result ≡ tick_ctl self }
    {
        if self.pending == 0 {
            return self.ctl;
        }
        self.ctl | 0x80
    }

    // How far into the period it is, in the period register's units.
    #[tactic(auto, using(base::specs::Tests::tests), unfolding(crate::specs::OsTick::tick_cnt))]
    pub fn read_cnt(self, now: u64, hz: u32) -> u32
        requires { self.start ≤ now }
        ensures { result ≡ tick_cnt self now hz }
    {
        if self.next == NEVER {
            return 0;
        }
        let period = tick_period(hz).0;
        times::mul_div((now - self.start).min(period), u64::from(self.prd), period)
    }

    #[tactic(auto, using(base::specs::Tests::tests), unfolding(crate::specs::OsTick::tick_ctl_written))]
    pub fn write_ctl(mut self, v: u32, now: u64, hz: u32) -> Self
        requires { now ≤ clock_max }
        ensures { result ≡ tick_ctl_written self v now hz }
    {
        let was = self.ctl & 1 != 0;
        let on = v & 1 != 0;
        self.start = started(was, on, self.start, now);
        self.next = switched(was, on, self.next, now + tick_period(hz).0);
        if v & 0x40 != 0 {
            self.pending = 0;
        }
        self.ctl = v & 0x3f;
        self
    }

    // A restart, whatever is written.
    pub fn write_cnt(mut self, now: u64, hz: u32) -> Self
        requires { now ≤ clock_max }
        ensures { result ≡ tick_cnt_written self now hz }
    {
        self.start = now;
        if self.next == NEVER {
            return self;
        }
        self.next = now + tick_period(hz).0;
        self
    }

    pub fn write_prd(mut self, v: u32) -> Self
        ensures { result ≡ tick_prd_written self v }
    {
        self.prd = v;
        self
    }

    // Its part of a whole record.
    pub fn whole(self, now: u64) -> bool
        ensures { result ≡ tick_whole self now }
    {
        base::is_deadline(self.next) & (self.start <= now)
    }
}

fn tick_period(hz: u32) -> Cycles
    ensures result_value { result.0 ≡ tick_period hz }
    ensures bounded { (0 < result.0) × (result.0 ≤ 2 ^ 26) }
{
    Cycles((u64::from(hz) / 100).max(1))
}

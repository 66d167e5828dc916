// TIMER4 (0x10800): the free-running 24 MHz time base. Firmware polls its count in delay loops; a runner that skips idle time jumps over them.
ghost use Rattle.std.specs.Prelude.{◌≡◌, ◌≤◌};
ghost use Rattle.base.specs.Moments.{clock_max};
ghost use Rattle.timers.specs.Timer4.{t4_new, t4_cnt, t4_con_written, t4_cnt_written, t4_whole, streak_of, poll_end, poll_of, poll_skipped, poll_due};

use base::started;
use times::{Cycles, Mhz24};

#[repr(C)]
#[derive(Clone, Copy, Debug, PartialEq, Eq)]
pub struct T4 {
    pub base: u64,
    pub last_cnt_read: u64,
    pub con: u32,
    pub cnt_streak: u32,
}

// A skipping count read: the timer after it, and where the clock stands then. Where that is past its reach the caller refuses the read.
#[derive(Clone, Copy, Debug, PartialEq, Eq)]
pub struct Polled {
    pub t4: T4,
    pub clock: u64,
}

impl T4 {
    pub fn new() -> Self
        ensures { result ≡ t4_new }
    {
        T4 {
            base: 0,
            last_cnt_read: 0,
            con: 0,
            cnt_streak: 0,
        }
    }

    // The count, 0 while it is off.
    pub fn read_cnt(self, now: u64, hz: u32) -> Mhz24
        requires { self.base ≤ now }
        ensures { result.0 ≡ t4_cnt self now hz }
    {
        if self.con & 1 == 0 {
            return Mhz24(0);
        }
        let running = now - self.base;
        times::mhz24_of_cycles(Cycles(running), hz)
    }

    // A count read of a running TIMER4 outside an ISR, with skipping on. The third of three reads less than 64 cycles apart is a polling loop's: the
    // clock jumps to just before the next event, at most 20 us. (An uncapped jump once crossed a whole boot delay.)
    pub fn polled(mut self, now: u64, hz: u32, event: u64) -> Polled
        requires { (self.last_cnt_read ≤ now) × (now ≤ clock_max) }
        ensures { result ≡ poll_of self now hz event }
    {
        let apart = now - self.last_cnt_read;
        self.cnt_streak = streak(self.cnt_streak, Cycles(apart));
        let end = poll_end(self.cnt_streak, now, hz, event);
        self.last_cnt_read = end;
        Polled {
            t4: self,
            clock: end,
        }
    }

    pub fn write_con(mut self, v: u32, now: u64) -> Self
        ensures { result ≡ t4_con_written self v now }
    {
        self.base = started(self.con & 1 != 0, v & 1 != 0, self.base, now);
        self.con = v & !0x4000;
        self
    }

    // A restart, whatever is written.
    pub fn write_cnt(mut self, now: u64) -> Self
        ensures { result ≡ t4_cnt_written self now }
    {
        self.base = now;
        self
    }

    // Its part of a whole record.
    pub fn whole(self, now: u64) -> bool
        ensures { result ≡ t4_whole self now }
    {
        (self.base <= now) & (self.last_cnt_read <= now)
    }
}

impl Polled {
    // `skipped` after the read, which adds what the clock jumped over; the count wraps.
    pub fn skipped(self, before: u64, now: u64) -> u64
        ensures { result ≡ poll_skipped before now self.clock }
    {
        before.wrapping_add(self.clock.saturating_sub(now))
    }

    // `next_due` after the read: worked out anew where it jumped.
    pub fn next_due(self, due: u64, now: u64) -> u64
        ensures { result ≡ poll_due due now self.clock }
    {
        if now < self.clock {
            return 0;
        }
        due
    }
}

// Close reads in a row; the count wraps.
fn streak(before: u32, apart: Cycles) -> u32
    ensures { result ≡ streak_of before apart.0 }
{
    if apart.0 < 64 {
        return before.wrapping_add(1);
    }
    0
}

// Where the clock stands after a read.
fn poll_end(streak: u32, now: u64, hz: u32, event: u64) -> u64
    requires { now ≤ clock_max }
    ensures { result ≡ poll_end streak now hz event }
{
    if streak < 2 {
        return now;
    }
    let next = event.min(now + u64::from(hz) / 50_000);
    if now + 1 < next {
        return next - 1;
    }
    now
}

// UART1 (0x12100): MIDI in, the TRS jack. Bytes offered wait in a queue behind the jack, arrive one a byte time, and are written by DMA
// into the ring RXSADR to RXEADR; the host does the writing. RXCNT bytes since the last latch pend, and so does OTCNT UART clocks of silence
// after a byte. The queue is `count` bytes of a ring of QUEUE_BYTES lent bytes, the first at `place`. In a step `receive_at` comes before
// `timeout_at`. A flag is 0 or not 0, as wide as leaves the record without a hole.
#![tactic(auto)]

ghost use Rattle.std.specs.Prelude.{◌≡◌, ◌^◌, ◌<◌, ◌≤◌, length};
ghost use Rattle.base.specs.Moments.{clock_max};
ghost use Rattle.uart.specs.Uart.{
  queue_bytes,
  uart_new,
  uart_next,
  front_due,
  lost,
  offer_of,
  offer_in,
  front_gone,
  ring_len,
  receives,
  timeout_of,
  stored,
  arrived,
  receive_at,
  line_of,
  updated,
  timeout_at,
  con0_read,
  con0_written,
  rxsadr_written,
  rxeadr_written,
  rxcnt_written,
  otcnt_written,
  txcnt_written,
  chip_reset_of,
  idle_if_empty,
  uart_whole,
};

use base::{NEVER, when};
use times::{Cycles, UartClocks};

#[repr(C)]
#[derive(Clone, Copy)]
pub struct Uart {
    // when the queue's first byte has arrived
    pub next: u64,
    // when the timeout comes
    pub ot_next: u64,
    // bytes lost: to a full queue, or for want of a receiver
    pub dropped: u64,
    pub con0: u32,
    pub rxsadr: u32,
    pub rxeadr: u32,
    pub rxcnt: u32,
    pub otcnt: u32,
    pub hrxcnt: u32,
    // bytes received since the last latch
    pub since: u32,
    // how far into its ring the DMA writes next
    pub wr: u32,
    pub rpnd: u32,
    pub otpnd: u32,
    pub tpnd: u32,
    // the interrupt line, as it was last updated
    pub irq: u32,
    pub place: u32,
    pub count: u32,
}

// A byte that the DMA writes, and where.
#[derive(Clone, Copy, Debug, PartialEq, Eq)]
pub struct Byte {
    pub addr: u32,
    pub b: u8,
}

#[derive(Clone, Copy)]
pub struct Received {
    pub uart: Uart,
    pub byte: Option<Byte>,
}

// The most bytes waiting behind the jack: a second of them.
pub const QUEUE_BYTES: u32 = 3125;

// The same as a length.
pub const QUEUE_LEN: usize = QUEUE_BYTES as usize;

impl Uart {
    pub fn new() -> Self
        ensures { result ≡ uart_new }
    {
        Uart {
            next: NEVER,
            ot_next: NEVER,
            dropped: 0,
            con0: 0,
            rxsadr: 0,
            rxeadr: 0,
            rxcnt: 0,
            otcnt: 0,
            hrxcnt: 0,
            since: 0,
            wr: 0,
            rpnd: 0,
            otpnd: 0,
            tpnd: 0,
            irq: 0,
            place: 0,
            count: 0,
        }
    }

    // When the queue's first byte arrives, once the queue is as it is from now on.
    fn front_due(self, now: u64, hz: u32) -> u64
        requires { now ≤ clock_max }
        ensures { result ≡ front_due self now hz }
    {
        if self.count == 0 {
            return NEVER;
        }
        now + times::midi_byte_time(hz).0
    }

    // A byte is lost, and counted.
    fn lost(mut self) -> Self
        requires { self.dropped < 2 ^ 63 }
        ensures { result ≡ lost self }
    {
        self.dropped = self.dropped + 1;
        self
    }

    // A byte comes in at the jack. A USB keyboard can send faster than the jack takes it: past a second's worth of backlog bytes are lost
    // rather than played late.
    #[tactic(auto, using(base::specs::Tests::tests), unfolding(crate::specs::Uart::offer_of, crate::specs::Uart::offer_in, crate::specs::Uart::queued))]
    pub fn offer(mut self, queue: &mut [u8], b: u8, now: u64, hz: u32) -> Self
        requires { (length queue.old ≡ queue_bytes) × (self.place < queue_bytes) × (self.dropped < 2 ^ 63) × (now ≤ clock_max) }
        ensures value { result ≡ offer_of self now hz }
        ensures memory { queue.new ≡ offer_in self queue.old b }
    {
        let waiting = self.count;
        if QUEUE_BYTES <= waiting {
            return self.lost();
        }
        let last = ((self.place + waiting) % QUEUE_BYTES) as usize;
        queue[last] = b;
        self.count = waiting + 1;
        if waiting == 0 {
            self.next = self.next.min(self.front_due(now, hz));
            return self;
        }
        self
    }

    // What the moment makes of the queue, and the byte that it finds arrived.
    #[tactic(auto, using(base::specs::Tests::tests), unfolding(crate::specs::Uart::receive_at, crate::specs::Uart::front_gone))]
    pub fn receive_at(self, queue: &[u8], now: u64, hz: u32) -> Received
        requires { (length queue.now ≡ queue_bytes) × (self.place < queue_bytes) × (self.wr < 65536)
            × (self.dropped < 2 ^ 63) × (now ≤ clock_max) }
        ensures { result ≡ receive_at self queue.now now hz }
    {
        if now < self.next {
            return Received {
                uart: self,
                byte: None,
            };
        }
        if self.count == 0 {
            return Received {
                uart: self,
                byte: None,
            };
        }
        let place = self.place as usize;
        let b = queue[place];
        self.front_gone(now, hz).arrived(b, now, hz)
    }

    // The queue's first byte leaves it; the next one's time is from now, however late this one was.
    #[tactic(auto, using(base::specs::Tests::tests), unfolding(crate::specs::Uart::front_gone))]
    fn front_gone(mut self, now: u64, hz: u32) -> Self
        requires { (self.place < queue_bytes) × (0 < self.count) × (now ≤ clock_max) }
        ensures { result ≡ front_gone self now hz }
    {
        self.place = (self.place + 1) % QUEUE_BYTES;
        self.count = self.count - 1;
        let due = self.front_due(now, hz);
        self.next = due;
        self
    }

    fn ring_len(self) -> u32
        ensures { result ≡ ring_len self }
    {
        self.rxeadr.wrapping_sub(self.rxsadr)
    }

    // On, with RX DMA and a ring to write to.
    fn receives(self) -> bool
        ensures { result ≡ receives self }
    {
        let len = self.ring_len();
        (self.con0 & 0x41 == 0x41) & (1 <= len) & (len <= 0x10000)
    }

    // A byte that has arrived is received, or lost.
    #[tactic(auto, using(base::specs::Tests::tests), unfolding(crate::specs::Uart::arrived))]
    fn arrived(self, b: u8, now: u64, hz: u32) -> Received
        requires { (self.wr < 65536) × (self.dropped < 2 ^ 63) × (now ≤ clock_max) }
        ensures { result ≡ arrived self b now hz }
    {
        if !self.receives() {
            return Received {
                uart: self.lost(),
                byte: None,
            };
        }
        let addr = self.rxsadr.wrapping_add(self.wr % self.ring_len());
        Received {
            uart: self.stored(now, hz),
            byte: Some(Byte { addr, b }),
        }
    }

    // The DMA has written a byte; the silence after it begins.
    #[tactic(auto, using(base::specs::Tests::tests), unfolding(crate::specs::Uart::stored))]
    fn stored(mut self, now: u64, hz: u32) -> Self
        requires { (0 < ring_len self) × (self.wr < 65536) × (now ≤ clock_max) }
        ensures { result ≡ stored self now hz }
    {
        self.wr = (self.wr + 1) % self.ring_len();
        self.since = self.since.wrapping_add(1);
        if (self.rxcnt != 0) & (self.rxcnt <= self.since) {
            self.rpnd = 1;
        }
        self.ot_next = now + self.timeout(hz).0;
        self.updated()
    }

    // OTCNT UART clocks of silence, and at least a byte time.
    fn timeout(self, hz: u32) -> Cycles
        ensures result_value { result.0 ≡ timeout_of self hz }
        ensures bounded { result.0 ≤ 2 ^ 39 }
    {
        let silence = times::cycles_of_uart(UartClocks(self.otcnt), hz).0;
        Cycles(silence.max(times::midi_byte_time(hz).0))
    }

    // The interrupt line: a pending whose interrupt is enabled.
    fn line(self) -> bool
        ensures { result ≡ line_of self }
    {
        ((self.con0 & 0x08 != 0) & (self.rpnd != 0))
            | ((self.con0 & 0x20 != 0) & (self.otpnd != 0))
            | ((self.con0 & 0x04 != 0) & (self.tpnd != 0))
    }

    #[tactic(auto, using(base::specs::Tests::tests), unfolding(crate::specs::Uart::updated))]
    fn updated(mut self) -> Self
        ensures { result ≡ updated self }
    {
        self.irq = u32::from(self.line());
        self
    }

    // What the moment makes of the timeout.
    #[tactic(auto, using(base::specs::Tests::tests), unfolding(crate::specs::Uart::timeout_at, crate::specs::Uart::timed_out))]
    pub fn timeout_at(mut self, now: u64) -> Self
        ensures { result ≡ timeout_at self now }
    {
        if now < self.ot_next {
            return self;
        }
        self.ot_next = NEVER;
        if self.con0 & 1 == 0 {
            return self;
        }
        self.otpnd = 1;
        self.updated()
    }

    pub fn read_con0(self) -> u32
        ensures { result ≡ con0_read self }
    {
        self.con0
            | when(self.otpnd != 0, 0x800)
            | when(self.rpnd != 0, 0x4000)
            | when(self.tpnd != 0, 0x8000)
    }

    // Bit 7 latches the count of bytes; bits 10, 12, 13 clear the pendings.
    #[tactic(auto, using(base::specs::Tests::tests), unfolding(crate::specs::Uart::con0_written))]
    pub fn write_con0(mut self, v: u32) -> Self
        ensures { result ≡ con0_written self v }
    {
        if v & 0x80 != 0 {
            self.hrxcnt = self.since;
            self.since = 0;
        }
        if v & 0x400 != 0 {
            self.otpnd = 0;
        }
        if v & 0x1000 != 0 {
            self.rpnd = 0;
        }
        if v & 0x2000 != 0 {
            self.tpnd = 0;
        }
        self.con0 = v & 0x037f;
        self.updated()
    }

    // The ring's start; the DMA begins there.
    pub fn write_rxsadr(mut self, v: u32) -> Self
        ensures { result ≡ rxsadr_written self v }
    {
        self.rxsadr = v;
        self.wr = 0;
        self
    }

    pub fn write_rxeadr(mut self, v: u32) -> Self
        ensures { result ≡ rxeadr_written self v }
    {
        self.rxeadr = v;
        self
    }

    pub fn write_rxcnt(mut self, v: u32) -> Self
        ensures { result ≡ rxcnt_written self v }
    {
        self.rxcnt = v & 0xffff;
        self
    }

    pub fn write_otcnt(mut self, v: u32) -> Self
        ensures { result ≡ otcnt_written self v }
    {
        self.otcnt = v;
        self
    }

    // The TX DMA's count, whatever is written: it is sent at once (MIDI thru has no pin here).
    #[tactic(auto, using(base::specs::Tests::tests), unfolding(crate::specs::Uart::txcnt_written))]
    pub fn write_txcnt(mut self) -> Self
        ensures { result ≡ txcnt_written self }
    {
        self.tpnd = 1;
        self.updated()
    }

    // The chip's own state as at power-on. The bytes on their way in are outside it, and stay with their time.
    pub fn chip_reset(self) -> Self
        ensures { result ≡ chip_reset_of self }
    {
        let mut fresh = Uart::new();
        fresh.next = self.next;
        fresh.dropped = self.dropped;
        fresh.place = self.place;
        fresh.count = self.count;
        fresh
    }

    // The earlier of its deadlines: the next byte's, or the timeout's.
    pub fn next_event(self) -> u64
        ensures { result ≡ uart_next self }
    {
        self.next.min(self.ot_next)
    }

    // The queue is empty exactly when it has no deadline.
    fn idle_if_empty(self) -> bool
        ensures { result ≡ idle_if_empty self }
    {
        ((self.count == 0) & (self.next == NEVER)) | ((self.count != 0) & (self.next != NEVER))
    }

    // Its part of a whole record.
    #[tactic(auto, using(base::specs::Tests::tests), unfolding(crate::specs::Uart::uart_whole))]
    pub fn whole(self) -> bool
        ensures { result ≡ uart_whole self }
    {
        base::is_deadline(self.next)
            & base::is_deadline(self.ot_next)
            & self.idle_if_empty()
            & (self.place < QUEUE_BYTES)
            & (self.count <= QUEUE_BYTES)
            & (self.wr < 65536)
            & (self.rxcnt <= 0xffff)
    }
}

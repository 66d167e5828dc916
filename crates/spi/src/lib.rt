// SPI1 and SPI2, as far as they have times: a transfer takes its cycles, and raises its interrupt at its end where that is asked for. The bytes
// themselves are the host's. (The stock firmware redraws its screen as often as SPI1's DMA lets it, and scans the matrix's columns by SPI2.)
#![tactic(auto)]

ghost use Rattle.std.specs.Prelude.{◌≡◌, ◌<◌, ◌≤◌, ◌^◌};
ghost use Rattle.base.specs.Limits.{spi_bytes_max, spi_baud_max};
ghost use Rattle.base.specs.Moments.{clock_max};
ghost use Rattle.spi.specs.Spi.{spi_new, spi1_started, spi1_off, spi2_started, spi1_at, spi2_at, spi_next, spi_whole};

use base::NEVER;

#[repr(C)]
#[derive(Clone, Copy)]
pub struct Spi {
    // when SPI1's transfer ends, and its interrupt comes
    pub spi1_done_at: u64,
    pub spi1_irq_at: u64,
    // SPI1's time on the wire, all told
    pub spi1_wire: u64,
    // when SPI2's interrupt comes
    pub spi2_next: u64,
    pub spi1_pending: u32,
    pub spi2_pending: u32,
}

impl Spi {
    pub fn new() -> Self
        ensures { result ≡ spi_new }
    {
        Spi {
            spi1_done_at: 0,
            spi1_irq_at: NEVER,
            spi1_wire: 0,
            spi2_next: NEVER,
            spi1_pending: 0,
            spi2_pending: 0,
        }
    }

    // A transfer of SPI1: its end, its time on the wire, and with `irq` its interrupt.
    #[tactic(auto, unfolding(crate::specs::Spi::spi1_started))]
    pub fn spi1_start(mut self, bytes: u32, baud: u32, irq: bool, now: u64, hz: u32) -> Self
        requires { (bytes ≤ spi_bytes_max) × (baud ≤ spi_baud_max) × (now ≤ clock_max) × (self.spi1_wire < 2 ^ 62) }
        ensures { result ≡ spi1_started self bytes baud irq now hz }
    {
        let time = times::spi1_cycles(bytes, baud, hz);
        let done = now + time.0;
        self.spi1_done_at = done;
        self.spi1_wire = self.spi1_wire + time.0;
        if irq {
            self.spi1_irq_at = done;
        }
        self
    }

    // CON bit 13 cleared: the interrupt neither stays raised nor comes at the transfer's end.
    pub fn spi1_irq_off(mut self) -> Self
        ensures { result ≡ spi1_off self }
    {
        self.spi1_irq_at = NEVER;
        self.spi1_pending = 0;
        self
    }

    // A transfer of SPI2; only its interrupt has a time.
    #[tactic(auto, unfolding(crate::specs::Spi::spi2_started))]
    pub fn spi2_start(mut self, bytes: u32, baud: u32, irq: bool, now: u64, hz: u32) -> Self
        requires { (bytes ≤ spi_bytes_max) × (baud ≤ spi_baud_max) × (now ≤ clock_max) }
        ensures { result ≡ spi2_started self bytes baud irq now hz }
    {
        if irq {
            self.spi2_next = now + times::spi2_cycles(bytes, baud, hz).0;
        }
        self
    }

    // What the moment makes of each. SPI2 comes first in a step.
    #[tactic(auto, unfolding(crate::specs::Spi::spi2_at))]
    pub fn spi2_at(mut self, now: u64) -> Self
        ensures { result ≡ spi2_at self now }
    {
        if now < self.spi2_next {
            return self;
        }
        self.spi2_next = NEVER;
        self.spi2_pending = 1;
        self
    }

    #[tactic(auto, unfolding(crate::specs::Spi::spi1_at))]
    pub fn spi1_at(mut self, now: u64) -> Self
        ensures { result ≡ spi1_at self now }
    {
        if now < self.spi1_irq_at {
            return self;
        }
        self.spi1_irq_at = NEVER;
        self.spi1_pending = 1;
        self
    }

    // The earlier of its deadlines; a transfer's end alone is none.
    pub fn next_event(self) -> u64
        ensures { result ≡ spi_next self }
    {
        self.spi1_irq_at.min(self.spi2_next)
    }

    // Its part of a whole record.
    pub fn whole(self) -> bool
        ensures { result ≡ spi_whole self }
    {
        base::is_deadline(self.spi1_done_at)
            & base::is_deadline(self.spi1_irq_at)
            & base::is_deadline(self.spi2_next)
    }
}

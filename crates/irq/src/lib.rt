// The interrupts: which source a core takes. A board keeps a `Latch`, lends the two banks, and puts a `Pending` together from its blocks
// whenever it asks. A bank (0x1eef100, for cores other than 0 0x1eef300) is 32 words, a nibble for each of 256 interrupts: bit 0 enables it,
// bits 1 to 3 are its priority. Lend both banks for one lifetime.
#![tactic(auto)]

ghost use Rattle.std.specs.Prelude.{◌≡◌, ◌<◌, length};
ghost use Rattle.irq.specs.Banks.{bank_words, bank_of, nibble, enabled_for, bank_read, bank_written};
ghost use Rattle.irq.specs.Latch.{latch_new, latch_set, latch_cleared, set_read, clear_read};
ghost use Rattle.irq.specs.Sources.{devices, timers, latched, any_pending_of};
ghost use Rattle.irq.specs.Choice.{considered, walked, chosen_of, choice_of};

pub const IRQ_EXC: u8 = 1;

pub const IRQ_OS_TICK: u8 = 3;

pub const IRQ_TMR0: u8 = 4;

pub const IRQ_TMR1: u8 = 5;

pub const IRQ_TMR2: u8 = 6;

pub const IRQ_TMR3: u8 = 7;

pub const IRQ_ALNK0: u8 = 11;

pub const IRQ_SPI1: u8 = 16;

pub const IRQ_UART1: u8 = 20;

pub const IRQ_SARADC: u8 = 24;

pub const IRQ_SPI2: u8 = 37;

pub const IRQ_TIMER5: u8 = 63;

// ---- the latch ----------------------------------------------------------------

// What software raises (bit b is interrupt 120 + b), and the processor's exception. A flag is 0 or not 0.
#[repr(C)]
#[derive(Clone, Copy)]
pub struct Latch {
    pub ilat: u32,
    pub exc_pending: u32,
}

impl Latch {
    pub fn new() -> Self
        ensures { result ≡ latch_new }
    {
        Latch {
            ilat: 0,
            exc_pending: 0,
        }
    }

    // The set word (0x1eef1a0) written.
    pub fn set(mut self, v: u32) -> Self
        ensures { result ≡ latch_set self v }
    {
        self.ilat = self.ilat | v;
        self
    }

    // The clear word (0x1eef1a4) written.
    pub fn clear(mut self, v: u32) -> Self
        ensures { result ≡ latch_cleared self v }
    {
        self.ilat = self.ilat & !v;
        self
    }

    pub fn read_set(self) -> u32
        ensures { result ≡ set_read self }
    {
        self.ilat
    }

    // The clear word reads 0: the stock handler of interrupt 122 acknowledges with `[0x1eef1a4] |= 4`, and a read-back of every pending bit there
    // would clear a pending context switch too.
    pub fn read_clear(self) -> u32
        ensures { result ≡ clear_read self }
    {
        0
    }
}

// ---- the banks ----------------------------------------------------------------

// Core 0's bank, or for any other core the second: the lent slice itself.
pub fn bank<'a>(core: u32, icfg: &'a [u32], icfg1: &'a [u32]) -> &'a [u32]
    ensures value { result ≡ bank_of core icfg.entry icfg1.entry }
    ensures words { result.now ≡ bank_of core icfg.now icfg1.now }
{
    if core == 0 {
        return icfg;
    }
    icfg1
}

// The word at a byte offset, whichever of its four bytes is addressed.
pub fn read_bank(bank: &[u32], offset: u32) -> u32
    requires { (length bank.now ≡ bank_words) × (offset < 0x80) }
    ensures { result ≡ bank_read bank.now offset }
{
    bank[(offset / 4) as usize]
}

pub fn write_bank(bank: &mut [u32], offset: u32, v: u32)
    requires { (length bank.old ≡ bank_words) × (offset < 0x80) }
    ensures memory { bank.new ≡ bank_written bank.old offset v }
{
    bank[(offset / 4) as usize] = v;
}

fn nibble(bank: &[u32], n: u8) -> u32
    requires { length bank.now ≡ bank_words }
    ensures { result ≡ nibble bank.now n }
{
    (bank[(n / 8) as usize] >> (n % 8 * 4)) % 16
}

// Has a core the interrupt enabled?
pub fn irq_enabled<'a>(core: u32, n: u8, icfg: &'a [u32], icfg1: &'a [u32]) -> bool
    requires { (length icfg.now ≡ bank_words) × (length icfg1.now ≡ bank_words) }
    ensures { result ≡ enabled_for core n icfg.now icfg1.now }
{
    nibble(bank(core, icfg, icfg1), n) & 1 != 0
}

// ---- the choice ---------------------------------------------------------------

// The interrupt to take and its priority.
#[derive(Clone, Copy, Debug, PartialEq, Eq)]
pub struct Choice {
    pub irq: u8,
    pub prio: u8,
}

// A walk over the sources by one bank: the best so far.
#[derive(Clone, Copy)]
struct Walk<'a> {
    bank: &'a [u32],
    best: Option<Choice>,
}

impl<'a> Walk<'a> {
    // The source comes after those walked before, so it needs a higher priority than theirs.
    #[tactic(auto, unfolding(crate::specs::Choice::considered))]
    fn source(self, n: u8, raised: bool) -> Walk<'a>
        requires { length self.bank.now ≡ bank_words }
        ensures bank { result.bank ≡ self.entry.bank }
        ensures best { result.best ≡ considered self.entry.bank.now n raised self.entry.best }
    {
        if !raised {
            return self;
        }
        let nib = nibble(self.bank, n);
        if nib & 1 == 0 {
            return self;
        }
        let prio = (nib / 2) as u8;
        match self.best {
            Some(best) if prio <= best.prio => self,
            _ => Walk {
                bank: self.bank,
                best: Some(Choice { irq: n, prio }),
            },
        }
    }
}

// What pends, as the blocks say it: the flags of `Latch`, the timers, the tick, SPI, the ADC, the UART's line; of audio whether any of bits 4 to 7
// of its pendings is set and, apart from that, whether CON0's bit 11 lets it through.
#[derive(Clone, Copy)]
pub struct Pending {
    pub ilat: u32,
    pub exc: bool,
    pub t5: bool,
    pub tick: bool,
    pub spi1: bool,
    pub adc: bool,
    pub spi2: bool,
    pub uart: bool,
    pub tmr0: bool,
    pub tmr1: bool,
    pub tmr2: bool,
    pub tmr3: bool,
    pub audio: bool,
    pub audio_on: bool,
}

impl Pending {
    // Anything at all, before enables and priorities: all 32 bits of the latch, audio also while CON0 holds it back.
    pub fn any_pending(self) -> bool
        ensures { result ≡ any_pending_of self }
    {
        self.exc
            | self.t5
            | self.tick
            | self.spi1
            | self.adc
            | self.spi2
            | self.uart
            | self.tmr0
            | self.tmr1
            | self.tmr2
            | self.tmr3
            | self.audio
            | (self.ilat != 0)
    }

    // Core 0's choice.
    pub fn pending_irq<'a>(self, icfg: &'a [u32], icfg1: &'a [u32]) -> Option<Choice>
        requires { (length icfg.now ≡ bank_words) × (length icfg1.now ≡ bank_words) }
        ensures { result ≡ choice_of self 0 icfg.now icfg1.now }
    {
        self.pending_irq_for(0, icfg, icfg1)
    }

    // The pending enabled source of the highest priority for a core, the earliest on a tie.
    pub fn pending_irq_for<'a>(self, core: u32, icfg: &'a [u32], icfg1: &'a [u32]) -> Option<Choice>
        requires { (length icfg.now ≡ bank_words) × (length icfg1.now ≡ bank_words) }
        ensures { result ≡ choice_of self core icfg.now icfg1.now }
    {
        if !self.any_pending() {
            return None;
        }
        self.chosen(core, bank(core, icfg, icfg1))
    }

    // The sources in the order that decides a tie.
    #[tactic(auto, unfolding(crate::specs::Choice::walked, crate::specs::Choice::chosen_of))]
    fn chosen(self, core: u32, bank: &[u32]) -> Option<Choice>
        requires { length bank.now ≡ bank_words }
        ensures { result ≡ chosen_of self core bank.now }
    {
        let start = Walk { bank, best: None };
        let first = self.devices(core, start);
        let second = self.timers(core, first);
        self.latched(core, second).best
    }

    // The exception, which core 0 alone sees, TIMER5, the tick and the serial blocks.
    #[tactic(auto, unfolding(crate::specs::Choice::walked))]
    fn devices<'a>(self, core: u32, walk: Walk<'a>) -> Walk<'a>
        requires { length walk.bank.now ≡ bank_words }
        ensures bank { result.bank ≡ walk.entry.bank }
        ensures best { result.best ≡ walked core walk.entry.bank.now (devices self) walk.entry.best }
    {
        walk.source(IRQ_EXC, (core == 0) & self.exc)
            .source(IRQ_TIMER5, self.t5)
            .source(IRQ_OS_TICK, self.tick)
            .source(IRQ_SPI1, self.spi1)
            .source(IRQ_SARADC, self.adc)
            .source(IRQ_SPI2, self.spi2)
            .source(IRQ_UART1, self.uart)
    }

    // Timers 0 to 3, and audio where CON0 lets it through.
    #[tactic(auto, unfolding(crate::specs::Choice::walked))]
    fn timers<'a>(self, core: u32, walk: Walk<'a>) -> Walk<'a>
        requires { length walk.bank.now ≡ bank_words }
        ensures bank { result.bank ≡ walk.entry.bank }
        ensures best { result.best ≡ walked core walk.entry.bank.now (timers self) walk.entry.best }
    {
        walk.source(IRQ_TMR0, self.tmr0)
            .source(IRQ_TMR1, self.tmr1)
            .source(IRQ_TMR2, self.tmr2)
            .source(IRQ_TMR3, self.tmr3)
            .source(IRQ_ALNK0, self.audio_on & self.audio)
    }

    // Eight bits of the latch have an interrupt; mostly none of them is set.
    fn latched<'a>(self, core: u32, walk: Walk<'a>) -> Walk<'a>
        requires { length walk.bank.now ≡ bank_words }
        ensures bank { result.bank ≡ walk.entry.bank }
        ensures best { result.best ≡ walked core walk.entry.bank.now (latched self) walk.entry.best }
    {
        if self.ilat % 256 == 0 {
            return walk;
        }
        walk.source(120, self.ilat & 0x01 != 0)
            .source(121, self.ilat & 0x02 != 0)
            .source(122, self.ilat & 0x04 != 0)
            .source(123, self.ilat & 0x08 != 0)
            .source(124, self.ilat & 0x10 != 0)
            .source(125, self.ilat & 0x20 != 0)
            .source(126, self.ilat & 0x40 != 0)
            .source(127, self.ilat & 0x80 != 0)
    }
}

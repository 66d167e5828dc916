// P33, the power domain's analog control registers (supplies, watchdog, reset source), reached through a byte-serial port: CON at 0x13e08,
// DAT at 0x13e0c.
//
// Lend REGS bytes and make a port of them; hand the port and the same bytes to each call, and go on with the port that it answers. A call that
// is refused says why and leaves port and bytes as they were.
//
// A transfer writes a byte to DAT and sets CON bit 4; the byte that comes back is read from DAT. Each access is three transfers with CON bit 0
// (chip select) held: a command (bit 7 read; bits 5 and 6 the write's operation; bits 0 and 1 the address's top bits), the address's low byte,
// and the data. CON bit 8 selects the RTC domain's registers. Plain registers, all 0 at power-on, but for two that act: WDT_CON (bit 4 runs the
// watchdog, bits 0 to 3 are its period, bit 6 written feeds it) and PR_PWR (bit 4 written resets the chip). The bits that act read 0, so a
// feed in a polling loop changes nothing there. Whoever keeps the chip takes the event after each access.
#![tactic(auto)]

ghost use Rattle.std.specs.Prelude.{◌≡◌, ◌<◌, ◌^◌, length, get_or, set};
ghost use Rattle.times.specs.Watchdog.{wdt_ms};
ghost use Rattle.p33.specs.P33.{
  memory_bytes,
  port_new,
  refusal,
  unless_refused,
  port_after,
  new_of,
  new_in,
  eventless,
  taken_of,
  reset_of,
  reset_in,
  chip_reset_of,
  chip_reset_in,
  reg_of,
  place_of,
  snap_of,
  read_of,
  write_of,
  write_in,
  written_of,
  written_in,
  transfer_of,
  transfer_in,
  access_of,
  access_in,
  operation_of,
  kept_of,
  noted,
  counted,
};
ghost use Rattle.p33.specs.Sameness.{same_snap, same_record, same_of};

use base::{COUNT_MAX, Refusal};

// What a register write asks of the chip.
#[derive(Clone, Copy, Debug, PartialEq, Eq)]
pub enum Event {
    // WDT_CON written: with `fed`, its count cleared.
    Wdt { fed: bool },
    // PR_PWR bit 4: a chip reset.
    Reset,
}

#[derive(Clone, Copy, Debug, Default, PartialEq, Eq)]
pub struct P33 {
    pub con: u32,
    pub dat: u32,
    // transfers since chip select, and what the first two said
    pub step: u8,
    pub cmd: u8,
    pub addr: u16,
    // register writes that changed a value
    pub changed: u64,
    // what the last of them asks of the chip, until it is taken
    pub event: Option<Event>,
}

// The port in brief: con, dat, step, cmd, addr, changed. Equal snaps of ONE port at two times say that con, dat, step, cmd, addr and all
// registers are as they were. They say nothing of the event: a feed of a running watchdog leaves an event and an equal snap. And of two ports they
// say nothing at all: their registers may differ. To compare ports use `same`.
#[derive(Clone, Copy, Debug, PartialEq, Eq)]
pub struct Snap(pub u32, pub u32, pub u8, pub u8, pub u16, pub u64);

#[derive(Clone, Copy, Debug, PartialEq, Eq)]
pub struct Taken {
    pub event: Option<Event>,
    pub port: P33,
}

pub const CON: u32 = 0x13e08;

pub const DAT: u32 = 0x13e0c;

pub const RST_SRC: u16 = 0x12;

pub const WDT_CON: u16 = 0x80;

pub const PR_PWR: u16 = 0xa0;

// The register memory: the main domain at 0, the RTC domain at 0x400.
pub const REGS: usize = 0x800;

impl P33 {
    // A port at power-on, its memory zeroed.
    #[tactic(auto, unfolding(crate::specs::P33::new_of, crate::specs::P33::new_in))]
    pub fn new(regs: &mut [u8]) -> Result<Self, Refusal>
        ensures value { result ≡ new_of regs.old }
        ensures memory { regs.new ≡ new_in regs.old }
    {
        if regs.len() != REGS {
            return Err(Refusal::Size);
        }
        regs.fill(0);
        Ok(P33::default())
    }

    // The watchdog's period for `WDT_CON` bits 0 to 3, in ms.
    pub fn wdt_ms(con: u8) -> u64
        ensures { result ≡ wdt_ms con }
    {
        times::wdt_ms(con)
    }

    // The register write the chip acts on, if the last access made one.
    pub fn take_event(self) -> Taken
        ensures { result ≡ taken_of self }
    {
        Taken {
            event: self.event,
            port: P33 {
                event: None,
                ..self
            },
        }
    }

    // What turns a write or a reset away.
    fn accepts(self, regs: &[u8]) -> Result<(), Refusal>
        ensures { result ≡ unless_refused (refusal self regs.now) tt }
    {
        if regs.len() != REGS {
            return Err(Refusal::Size);
        }
        if COUNT_MAX <= self.changed {
            return Err(Refusal::Count);
        }
        Ok(())
    }

    // A chip reset: the cause in `RST_SRC` (0x04 the watchdog, 0x40 PR_PWR), the watchdog stopped, the port idle.
    #[tactic(auto, unfolding(crate::specs::P33::reset_of, crate::specs::P33::reset_in))]
    pub fn chip_reset(self, regs: &mut [u8], cause: u8) -> Result<Self, Refusal>
        ensures value { result ≡ reset_of self regs.old }
        ensures memory { regs.new ≡ reset_in self regs.old cause }
    {
        self.accepts(regs)?;
        Ok(self.chip_reset_whole(regs, cause))
    }

    // The reset itself, for callers that know the memory's length and the count.
    fn chip_reset_whole(self, regs: &mut [u8], cause: u8) -> Self
        requires { (length regs.old ≡ memory_bytes) × (self.changed < 2 ^ 62) }
        ensures value { result ≡ chip_reset_of self }
        ensures memory { regs.new ≡ chip_reset_in regs.old cause }
    {
        regs[RST_SRC as usize] = cause;
        regs[WDT_CON as usize] = 0;
        P33 {
            con: 0,
            dat: 0,
            step: 0,
            changed: self.changed + 1,
            event: None,
            ..self
        }
    }

    // A register's value as the firmware last left it (`rtc`: the RTC domain's bank).
    #[tactic(auto, unfolding(crate::specs::P33::reg_of))]
    pub fn reg(regs: &[u8], addr: u16, rtc: bool) -> Result<u8, Refusal>
        ensures { result ≡ reg_of regs.now addr rtc }
    {
        if regs.len() != REGS {
            return Err(Refusal::Size);
        }
        Ok(regs[P33::index(addr, rtc)])
    }

    fn index(addr: u16, rtc: bool) -> usize
        ensures value { result ≡ place_of addr rtc }
        ensures bounded { result < memory_bytes }
    {
        let low = (addr % 0x400) as usize;
        if rtc {
            return 0x400 + low;
        }
        low
    }

    pub fn snap(self) -> Snap
        ensures { result ≡ snap_of self }
    {
        Snap(
            self.con,
            self.dat,
            self.step,
            self.cmd,
            self.addr,
            self.changed,
        )
    }

    // Every word but CON reads DAT.
    #[tactic(auto, unfolding(crate::specs::P33::read_of))]
    pub fn read(self, addr: u32) -> u32
        ensures { result ≡ read_of self addr }
    {
        if addr & !3 == CON {
            // transfers finish at once: never busy, never still starting
            return self.con & !0x12;
        }
        self.dat
    }

    // Every word but DAT writes CON.
    #[tactic(auto, unfolding(crate::specs::P33::write_of, crate::specs::P33::write_in))]
    pub fn write(self, regs: &mut [u8], addr: u32, value: u32) -> Result<Self, Refusal>
        ensures value { result ≡ write_of self regs.old addr value }
        ensures memory { regs.new ≡ write_in self regs.old addr value }
    {
        self.accepts(regs)?;
        Ok(self.write_whole(regs, addr, value))
    }

    // The write itself, for callers that know the memory's length and the count.
    #[tactic(auto, unfolding(crate::specs::P33::written_of, crate::specs::P33::written_in))]
    fn write_whole(mut self, regs: &mut [u8], addr: u32, value: u32) -> Self
        requires { (length regs.old ≡ memory_bytes) × (self.changed < 2 ^ 62) }
        ensures value { result ≡ written_of self regs.old addr value }
        ensures memory { regs.new ≡ written_in self regs.old addr value }
    {
        if addr & !3 == DAT {
            self.dat = value;
            return self;
        }
        self.con = value;
        if value & 1 == 0 {
            // deselected: the next transfer is a new command
            self.step = 0;
            return self;
        }
        if value & 0x10 == 0 {
            return self;
        }
        self.transfer(regs, (self.dat % 0x100) as u8)
    }

    // A byte across: the command, the address's low byte, the data, and nothing after that. What comes back is left in DAT.
    #[tactic(auto, unfolding(crate::specs::P33::transfer_of, crate::specs::P33::transfer_in))]
    fn transfer(mut self, regs: &mut [u8], b: u8) -> Self
        requires { (length regs.old ≡ memory_bytes) × (self.changed < 2 ^ 62) }
        ensures value { result ≡ transfer_of self regs.old b }
        ensures memory { regs.new ≡ transfer_in self regs.old b }
    {
        let step = self.step;
        self.step = step.saturating_add(1);
        self.dat = 0;
        match step {
            0 => {
                self.cmd = b;
                self.addr = ((b % 4) as u16) * 0x100;
                self
            }
            1 => {
                self.addr |= b as u16;
                self
            }
            2 => self.access(regs, b),
            _ => self,
        }
    }

    // The third transfer: a read's value comes back, or a write is done to its half of the memory.
    #[tactic(auto, using(crate::proofs::Halves::rtc_access, crate::proofs::Halves::rtc_access_in, crate::proofs::Halves::main_access, crate::proofs::Halves::main_access_in), unfolding(crate::specs::P33::access_of, crate::specs::P33::access_in))]
    fn access(mut self, regs: &mut [u8], b: u8) -> Self
        requires { (length regs.old ≡ memory_bytes) × (self.changed < 2 ^ 62) }
        ensures value { result ≡ access_of self regs.old b }
        ensures memory { regs.new ≡ access_in self regs.old b }
    {
        let rtc = self.con & 0x100 != 0;
        let low = P33::index(self.addr, false);
        let i = P33::index(self.addr, rtc);
        let was = regs[i];
        if self.cmd & 0x80 != 0 {
            self.dat = was as u32;
            return self;
        }
        let v = operation(self.cmd, was, b);
        let k = kept(i, v);
        if rtc {
            return self.put(&mut regs[0x400..], low, k).noted(i, v);
        }
        self.put(regs, low, k).noted(i, v)
    }

    // The event of a value written at a place of the memory: the RTC half's register 0x80 is no watchdog.
    #[tactic(auto, unfolding(crate::specs::P33::noted))]
    fn noted(mut self, i: usize, v: u8) -> Self
        ensures { result ≡ noted self i v }
    {
        if i == WDT_CON as usize {
            let fed = v & 0x40 != 0;
            self.event = Some(Event::Wdt { fed });
        } else if (i == PR_PWR as usize) & (v & 0x10 != 0) {
            self.event = Some(Event::Reset);
        }
        self
    }

    // The one-register update, of either half: counted where the value is another.
    fn put(mut self, half: &mut [u8], i: usize, v: u8) -> Self
        requires { (i < length half.old) × (self.changed < 2 ^ 62) }
        ensures value { result ≡ counted self (get_or half.old i 0) v }
        ensures memory { half.new ≡ set half.old i v }
    {
        if v == half[i] {
            return self;
        }
        half[i] = v;
        self.changed += 1;
        self
    }
}

// What a command makes of a register's value and the byte that came.
#[tactic(auto, unfolding(crate::specs::P33::operation_of))]
fn operation(cmd: u8, was: u8, b: u8) -> u8
    ensures { result ≡ operation_of cmd was b }
{
    match cmd / 32 % 4 {
        0 => b,
        1 => was | b,
        2 => was & b,
        _ => was ^ b,
    }
}

// What a register keeps of a value: the bits that act read 0.
#[tactic(auto, unfolding(crate::specs::P33::kept_of))]
fn kept(i: usize, v: u8) -> u8
    ensures { result ≡ kept_of i v }
{
    if i == WDT_CON as usize {
        return v & !0x40;
    }
    if (i == PR_PWR as usize) & (v & 0x10 != 0) {
        return v & !0x10;
    }
    v
}

// ---- sameness

// Equality of two snaps.
pub fn same_snap(a: Snap, b: Snap) -> bool
    ensures { result ≡ same_snap a b }
{
    a == b
}

// Two ports are the same when con, dat, step, cmd, addr and all registers agree; the count and the event play no part.
#[tactic(auto, using(crate::proofs::Sameness::equal_is_same), unfolding(crate::specs::Sameness::same_of))]
pub fn same(a: P33, regs_a: &[u8], b: P33, regs_b: &[u8]) -> Result<bool, Refusal>
    ensures { result ≡ same_of a regs_a.now b regs_b.now }
{
    if regs_a.len() != REGS || regs_b.len() != REGS {
        return Err(Refusal::Size);
    }
    Ok(same_record(a, b) & (regs_a == regs_b))
}

fn same_record(a: P33, b: P33) -> bool
    ensures { result ≡ same_record a b }
{
    (a.con, a.dat, a.step, a.cmd, a.addr) == (b.con, b.dat, b.step, b.cmd, b.addr)
}

// ---- the record lent: each is the call of the same name above, with the port updated where the caller keeps it

#[tactic(auto, unfolding(crate::specs::P33::write_of))]
pub fn write_in_place(p: &mut P33, regs: &mut [u8], addr: u32, value: u32) -> Result<(), Refusal>
    ensures value { result ≡ unless_refused (refusal p.old regs.old) tt }
    ensures port { p.new ≡ port_after (write_of p.old regs.old addr value) p.old }
    ensures memory { regs.new ≡ write_in p.old regs.old addr value }
{
    *p = p.write(regs, addr, value)?;
    Ok(())
}

#[tactic(auto, unfolding(crate::specs::P33::reset_of))]
pub fn chip_reset_in_place(p: &mut P33, regs: &mut [u8], cause: u8) -> Result<(), Refusal>
    ensures value { result ≡ unless_refused (refusal p.old regs.old) tt }
    ensures port { p.new ≡ port_after (reset_of p.old regs.old) p.old }
    ensures memory { regs.new ≡ reset_in p.old regs.old cause }
{
    *p = p.chip_reset(regs, cause)?;
    Ok(())
}

pub fn take_event_in_place(p: &mut P33) -> Option<Event>
    ensures value { result ≡ p.old.event }
    ensures port { p.new ≡ eventless p.old }
{
    p.event.take()
}

// Bridges: by value outside, through the lent record inside.

#[tactic(auto, unfolding(crate::specs::P33::write_of))]
pub fn write_through(p: P33, regs: &mut [u8], addr: u32, value: u32) -> Result<P33, Refusal>
    ensures value { result ≡ write_of p regs.old addr value }
    ensures memory { regs.new ≡ write_in p regs.old addr value }
{
    let mut q = p;
    write_in_place(&mut q, regs, addr, value)?;
    Ok(q)
}

#[tactic(auto, unfolding(crate::specs::P33::reset_of))]
pub fn chip_reset_through(p: P33, regs: &mut [u8], cause: u8) -> Result<P33, Refusal>
    ensures value { result ≡ reset_of p regs.old }
    ensures memory { regs.new ≡ reset_in p regs.old cause }
{
    let mut q = p;
    chip_reset_in_place(&mut q, regs, cause)?;
    Ok(q)
}

pub fn take_event_through(p: P33) -> Taken
    ensures { result ≡ taken_of p }
{
    let mut q = p;
    let event = take_event_in_place(&mut q);
    Taken { event, port: q }
}

// The P33 port's calls. Its record crosses with the event as a number: 0 none, 1 the watchdog's control written, 2 the same with a feed, 3 a reset; any other number is read as none. A call that is
// turned away hands the record back as it came, such a number too.
ghost use Rattle.std.specs.Prelude.{◌≡◌};
ghost use Rattle.base.specs.Bits.{when_of};
ghost use Rattle.times.specs.Watchdog.{wdt_ms};
ghost use Rattle.p33.specs.P33.{
  new_of,
  new_in,
  taken_of,
  reset_of,
  reset_in,
  reg_of,
  read_of,
  snap_of,
  write_of,
  write_in,
};
ghost use Rattle.p33.specs.Sameness.{same_snap, same_of};
ghost use Rattle.capi_answers.specs.Ports.{port_in, of_port_new, of_port_done, of_taken, of_register, of_compared};
ghost use Rattle.capi.specs.Flags.{is_yes};

use base::when;
use capi_answers::ports::{of_port_done, of_port_new};
use capi_answers::{Port, PortAnswered, Said};
use p33::P33;

// A port at power-on; its memory is zeroed. SIZE.
pub fn fm1_port_new(regs: &mut [u8]) -> PortAnswered
    ensures value { result ≡ of_port_new (new_of regs.old) }
    ensures memory { regs.new ≡ new_in regs.old }
{
    of_port_new(P33::new(regs))
}

// CON or DAT.
pub fn fm1_port_read(p: Port, addr: u32) -> u32
    ensures { result ≡ read_of (port_in p) addr }
{
    P33::from(p).read(addr)
}

// A write to CON or DAT. SIZE, COUNT.
pub fn fm1_port_write(p: Port, regs: &mut [u8], addr: u32, value: u32) -> PortAnswered
    ensures { (result ≡ of_port_done p (write_of (port_in p) regs.old addr value)) × (regs.new ≡ write_in (port_in p) regs.old addr value) }
{
    of_port_done(p, P33::from(p).write(regs, addr, value))
}

// A chip reset and its cause. SIZE, COUNT.
pub fn fm1_port_chip_reset(p: Port, regs: &mut [u8], cause: u8) -> PortAnswered
    ensures { (result ≡ of_port_done p (reset_of (port_in p) regs.old)) × (regs.new ≡ reset_in (port_in p) regs.old cause) }
{
    of_port_done(p, P33::from(p).chip_reset(regs, cause))
}

// The event, as `value`; it is taken.
pub fn fm1_port_take_event(p: Port) -> PortAnswered
    ensures { result ≡ of_taken (taken_of (port_in p)) }
{
    PortAnswered::from(P33::from(p).take_event())
}

// A register of the main domain, or of the RTC's where `rtc` is not 0. SIZE.
pub fn fm1_port_reg(regs: &[u8], addr: u16, rtc: u8) -> Said
    ensures { result ≡ of_register (reg_of regs.now addr (is_yes rtc)) }
{
    Said::from(P33::reg(regs, addr, rtc != 0))
}

// Whether two ports are the same. SIZE.
pub fn fm1_port_same(a: Port, regs_a: &[u8], b: Port, regs_b: &[u8]) -> Said
    ensures { result ≡ of_compared (same_of (port_in a) regs_a.now (port_in b) regs_b.now) }
{
    Said::from(p33::same(P33::from(a), regs_a, P33::from(b), regs_b))
}

// Whether one port at two times has equal snaps.
pub fn fm1_port_same_snap(a: Port, b: Port) -> u32
    ensures { result ≡ when_of (same_snap (snap_of (port_in a)) (snap_of (port_in b))) 1 }
{
    let x = P33::from(a).snap();
    let y = P33::from(b).snap();
    when(p33::same_snap(x, y), 1)
}

// The watchdog's period in ms for a control byte.
pub fn fm1_wdt_ms(con: u8) -> u64
    ensures { result ≡ wdt_ms con }
{
    P33::wdt_ms(con)
}

// The P33 port's calls. Its record crosses with the event as a number: 0 none, 1 the watchdog's control written, 2 the same with a feed, 3 a reset; any other number is read as none. A call that is
// turned away hands the record back as it came, such a number too.
ghost use Rattle.std.specs.Prelude.{◌≡◌};
ghost use Rattle.base.specs.Bits.{when_of};
ghost use Rattle.times.specs.Watchdog.{wdt_ms};
ghost use Rattle.p33.specs.P33.{
  new_of,
  new_in,
  taken_of,
  reset_of,
  reset_in,
  reg_of,
  read_of,
  snap_of,
  write_of,
  write_in,
};
ghost use Rattle.p33.specs.Sameness.{same_snap, same_of};
ghost use Rattle.capi_answers.specs.Ports.{port_in, of_port_new, of_port_done, of_taken, of_register, of_compared};
ghost use Rattle.capi.specs.Flags.{is_yes};

use capi_answers::{Port, PortAnswered, Said};

// A port at power-on; its memory is zeroed. SIZE.
#[unsafe(no_mangle)]
pub extern "C" fn fm1_port_new(regs: &mut [u8]) -> PortAnswered
    ensures value { result ≡ of_port_new (new_of regs.old) }
    ensures memory { regs.new ≡ new_in regs.old }
{
    capi::ports::fm1_port_new(regs)
}

// CON or DAT.
#[unsafe(no_mangle)]
pub extern "C" fn fm1_port_read(p: Port, addr: u32) -> u32
    ensures { result ≡ read_of (port_in p) addr }
{
    capi::ports::fm1_port_read(p, addr)
}

// A write to CON or DAT. SIZE, COUNT.
#[unsafe(no_mangle)]
pub extern "C" fn fm1_port_write(p: Port, regs: &mut [u8], addr: u32, value: u32) -> PortAnswered
    ensures { (result ≡ of_port_done p (write_of (port_in p) regs.old addr value)) × (regs.new ≡ write_in (port_in p) regs.old addr value) }
{
    capi::ports::fm1_port_write(p, regs, addr, value)
}

// A chip reset and its cause. SIZE, COUNT.
#[unsafe(no_mangle)]
pub extern "C" fn fm1_port_chip_reset(p: Port, regs: &mut [u8], cause: u8) -> PortAnswered
    ensures { (result ≡ of_port_done p (reset_of (port_in p) regs.old)) × (regs.new ≡ reset_in (port_in p) regs.old cause) }
{
    capi::ports::fm1_port_chip_reset(p, regs, cause)
}

// The event, as `value`; it is taken.
#[unsafe(no_mangle)]
pub extern "C" fn fm1_port_take_event(p: Port) -> PortAnswered
    ensures { result ≡ of_taken (taken_of (port_in p)) }
{
    capi::ports::fm1_port_take_event(p)
}

// A register of the main domain, or of the RTC's where `rtc` is not 0. SIZE.
#[unsafe(no_mangle)]
pub extern "C" fn fm1_port_reg(regs: &[u8], addr: u16, rtc: u8) -> Said
    ensures { result ≡ of_register (reg_of regs.now addr (is_yes rtc)) }
{
    capi::ports::fm1_port_reg(regs, addr, rtc)
}

// Whether two ports are the same. SIZE.
#[unsafe(no_mangle)]
pub extern "C" fn fm1_port_same(a: Port, regs_a: &[u8], b: Port, regs_b: &[u8]) -> Said
    ensures { result ≡ of_compared (same_of (port_in a) regs_a.now (port_in b) regs_b.now) }
{
    capi::ports::fm1_port_same(a, regs_a, b, regs_b)
}

// Whether one port at two times has equal snaps.
#[unsafe(no_mangle)]
pub extern "C" fn fm1_port_same_snap(a: Port, b: Port) -> u32
    ensures { result ≡ when_of (same_snap (snap_of (port_in a)) (snap_of (port_in b))) 1 }
{
    capi::ports::fm1_port_same_snap(a, b)
}

// The watchdog's period in ms for a control byte.
#[unsafe(no_mangle)]
pub extern "C" fn fm1_wdt_ms(con: u8) -> u64
    ensures { result ≡ wdt_ms con }
{
    capi::ports::fm1_wdt_ms(con)
}

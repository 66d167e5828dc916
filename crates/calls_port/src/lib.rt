// The port's calls for `calls`: the port and its register memory, lent, and one that was kept aside with its registers. Writes, resets and taken events go through
// the record that is lent by `&mut`, so that what is compared with the original is that form.
#![tactic(auto)]

ghost use Rattle.std.specs.Prelude.{◌≡◌};
ghost use Rattle.calls_port.specs.Ports.{
  aside_after,
  carried_aside,
  carried_in,
  carried_of,
  done_of,
  event_answer,
  event_of,
  kept_of,
  looked_of,
  ported_of,
  register_answer,
  regs_after,
  same_answer,
  snap_answer,
  sum_of,
};

use base::Refusal;
use line_answer::Answer;
use line_ask::{Ask, PortAsk};
use p33::{Event, P33, Snap};

#[derive(Clone, Copy)]
pub struct Ports {
    pub port: P33,
    pub kept: P33,
}

#[derive(Clone, Copy)]
pub struct Ported {
    pub ports: Ports,
    pub answer: Answer,
}

// The ports after a line, and its answer: the one given, where the line asks nothing of the port.
#[tactic(auto, unfolding(crate::specs::Ports::ported_of, crate::specs::Ports::regs_after, crate::specs::Ports::aside_after))]
pub fn on_port(
    p: Ports,
    ask: Ask,
    a: Answer,
    regs: &mut [u8; 2048],
    aside: &mut [u8; 2048],
) -> Ported
    ensures value { result ≡ ported_of p ask a regs.old aside.old }
    ensures memory { regs.new ≡ regs_after p ask regs.old }
    ensures kept { aside.new ≡ aside_after ask regs.old aside.old }
{
    match ask {
        Ask::Port(call) => carried(p, call, regs, aside),
        _ => looked(p, a),
    }
}

#[tactic(auto, unfolding(crate::specs::Ports::carried_of, crate::specs::Ports::carried_in, crate::specs::Ports::carried_aside))]
fn carried(p: Ports, call: PortAsk, regs: &mut [u8; 2048], aside: &mut [u8; 2048]) -> Ported
    ensures value { result ≡ carried_of p call regs.old aside.old }
    ensures memory { regs.new ≡ carried_in p call regs.old }
    ensures kept { aside.new ≡ carried_aside call regs.old aside.old }
{
    let port = p.port;
    let kept = p.kept;
    match call {
        PortAsk::Write { addr, value } => done(p, p33::write_through(port, regs, addr, value)),
        PortAsk::New => done(p, P33::new(regs)),
        PortAsk::Reset { cause } => done(p, p33::chip_reset_through(port, regs, cause)),
        PortAsk::Event => event(p),
        PortAsk::Keep => keep(p, regs, aside),
        PortAsk::Read { addr } => looked(p, Answer::Hex(port.read(addr))),
        PortAsk::Reg { addr, rtc } => looked(p, reg(P33::reg(regs, addr, rtc))),
        PortAsk::Ms { con } => looked(p, Answer::Number(P33::wdt_ms(con))),
        PortAsk::Same => looked(p, same(p33::same(port, regs, kept, aside))),
        PortAsk::Snap => looked(p, snap(port.snap())),
        PortAsk::Sum => looked(p, Answer::Sum(sum(regs))),
    }
}

// ---- calls that change the port, or the one aside

fn done(mut p: Ports, outcome: Result<P33, Refusal>) -> Ported
    ensures { result ≡ done_of p outcome }
{
    let refused = match outcome {
        Ok(port) => {
            p.port = port;
            0
        }
        Err(refusal) => u32::from(refusal),
    };
    Ported {
        ports: p,
        answer: Answer::Number(u64::from(refused)),
    }
}

// The port copied aside.
fn keep(mut p: Ports, regs: &[u8; 2048], aside: &mut [u8; 2048]) -> Ported
    ensures value { result ≡ kept_of p }
    ensures kept { aside.new ≡ regs.now }
{
    let port = p.port;
    *aside = *regs;
    p.kept = port;
    Ported {
        ports: p,
        answer: Answer::Number(0),
    }
}

fn event(mut p: Ports) -> Ported
    ensures { result ≡ event_of p }
{
    let port = p.port;
    let taken = p33::take_event_through(port);
    let event = taken.event;
    let after = taken.port;
    p.port = after;
    Ported {
        ports: p,
        answer: event_answer(event),
    }
}

#[tactic(auto, unfolding(crate::specs::Ports::event_answer))]
fn event_answer(event: Option<Event>) -> Answer
    ensures { result ≡ event_answer event }
{
    match event {
        None => Answer::NoValue,
        Some(Event::Wdt { fed }) => Answer::Watchdog { fed },
        Some(Event::Reset) => Answer::Reset,
    }
}

// ---- what leaves the port as it is

fn looked(ports: Ports, answer: Answer) -> Ported
    ensures { result ≡ looked_of ports answer }
{
    Ported { ports, answer }
}

fn reg(found: Result<u8, Refusal>) -> Answer
    ensures { result ≡ register_answer found }
{
    match found {
        Ok(value) => Answer::Byte(value),
        Err(refusal) => Answer::Refused(refusal.into()),
    }
}

fn same(compared: Result<bool, Refusal>) -> Answer
    ensures { result ≡ same_answer compared }
{
    match compared {
        Ok(same) => Answer::Flag(same),
        Err(refusal) => Answer::Refused(refusal.into()),
    }
}

fn snap(s: Snap) -> Answer
    ensures { result ≡ snap_answer s }
{
    Answer::Snap {
        con: s.0,
        dat: s.1,
        step: s.2,
        cmd: s.3,
        addr: s.4,
        changed: s.5,
    }
}

// FNV-1a on 64 bits.
fn sum(regs: &[u8; 2048]) -> u64
    ensures { result ≡ sum_of 2048 regs.now }
{
    let mut h: u64 = 0xcbf2_9ce4_8422_2325;
    for b in regs {
        h = (h ^ u64::from(*b)).wrapping_mul(0x100_0000_01b3);
    }
    h
}

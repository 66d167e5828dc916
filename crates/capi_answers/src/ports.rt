// The P33 port's record with its event as a number (0 none, 1 the watchdog's control written, 2 the same with a feed, 3 a reset; any other number is read as none), and its answers.
ghost use Rattle.std.specs.Prelude.{◌≡◌};
ghost use Rattle.capi_answers.specs.Ports.{
  number_of,
  event_of,
  port_in,
  port_out,
  of_port_new,
  of_port_done,
  of_taken,
  of_register,
  of_compared,
};

use crate::{Port, PortAnswered, Said, told};
use base::{Refusal, when};
use p33::{Event, P33, Taken};

// Functions, since no `From` between an `Option` and a `u32` can stand outside of std.
#[tactic(auto, unfolding(crate::specs::Ports::number_of, p33::specs::Told::told_event))]
pub fn number_of(event: Option<Event>) -> u32
    ensures { result ≡ number_of event }
{
    match event {
        None => 0,
        Some(Event::Wdt { fed: false }) => 1,
        Some(Event::Wdt { fed: true }) => 2,
        Some(Event::Reset) => 3,
    }
}

#[tactic(auto, unfolding(crate::specs::Ports::event_of))]
pub fn event_of(n: u32) -> Option<Event>
    ensures { result ≡ event_of n }
{
    match n {
        1 => Some(Event::Wdt { fed: false }),
        2 => Some(Event::Wdt { fed: true }),
        3 => Some(Event::Reset),
        _ => None,
    }
}

impl From<Port> for P33 {
    ghost from_gives = { λ p q. q ≡ port_in p };

    fn from(p: Port) -> P33 {
        P33 {
            con: p.con,
            dat: p.dat,
            step: p.step,
            cmd: p.cmd,
            addr: p.addr,
            changed: p.changed,
            event: event_of(p.event),
        }
    }
}

impl From<P33> for Port {
    ghost from_gives = { λ p q. q ≡ port_out p };

    fn from(p: P33) -> Port {
        Port {
            changed: p.changed,
            con: p.con,
            dat: p.dat,
            event: number_of(p.event),
            addr: p.addr,
            step: p.step,
            cmd: p.cmd,
        }
    }
}

// A refused making hands back a port of zeros.
#[tactic(auto, unfolding(crate::specs::Ports::of_port_done, crate::specs::Ports::number_of, p33::specs::Told::told_event))]
pub fn of_port_new(made: Result<P33, Refusal>) -> PortAnswered
    ensures { result ≡ of_port_new made }
{
    of_port_done(Port::from(P33::default()), made)
}

// Where the call was turned away, the port `given` as it came: its event may be a number that is read as none.
#[tactic(auto, unfolding(crate::specs::Ports::of_port_done))]
pub fn of_port_done(given: Port, done: Result<P33, Refusal>) -> PortAnswered
    ensures { result ≡ of_port_done given done }
{
    match done {
        Ok(port) => PortAnswered {
            port: Port::from(port),
            said: told(0, 0, 0),
        },
        Err(refusal) => PortAnswered {
            port: given,
            said: told(0, u32::from(refusal), 0),
        },
    }
}

impl From<Taken> for PortAnswered {
    ghost from_gives = { λ taken answered. answered ≡ of_taken taken };

    #[tactic(auto, using(crate::proofs::Events::event_said))]
    fn from(taken: Taken) -> PortAnswered {
        let n = number_of(taken.event);
        PortAnswered {
            port: Port::from(taken.port),
            said: told(n as u64, 0, when(n != 0, 1)),
        }
    }
}

impl From<Result<u8, Refusal>> for Said {
    ghost from_gives = { λ read said. said ≡ of_register read };

    fn from(read: Result<u8, Refusal>) -> Said {
        match read {
            Ok(value) => told(value as u64, 0, 0),
            Err(refusal) => told(0, u32::from(refusal), 0),
        }
    }
}

impl From<Result<bool, Refusal>> for Said {
    ghost from_gives = { λ compared said. said ≡ of_compared compared };

    fn from(compared: Result<bool, Refusal>) -> Said {
        match compared {
            Ok(same) => told(0, 0, when(same, 1)),
            Err(refusal) => told(0, u32::from(refusal), 0),
        }
    }
}

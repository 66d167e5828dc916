// The calls, by their names, with what they take.
ghost use Rattle.std.specs.Prelude.{◌≡◌};
ghost use Rattle.line_ask.specs.Asks.{call_named, act_named, set_named, port_named, call_in, called, push_in, setting_in, set_as, port_in, port_as, action_in, acted, id_in, id_named, id_of};

use crate::numbers::{Hex, Signed};
use crate::words::Words;
use crate::{Ask, PortAsk, Setting};
use records::Action;
use text::{decimal, find, first, unhex};

#[derive(Clone, Copy, Debug, PartialEq, Eq)]
enum Call {
    Step,
    Read,
    Write,
    Tick,
    Led,
    State,
    Room,
    Ms,
    NextTick,
    Pending,
    CyclesOf,
    Irq,
    Enabled,
    Idle,
    Spi1Off,
    Shift,
    Usb,
    Wdt,
    Spi1,
    Spi2,
    New,
    Reset,
    Push,
    Apply,
    Set,
    Port,
    KeyId,
    EncId,
}

const CALLS: [(&[u8], Call); 28] = [
    (b"step", Call::Step),
    (b"read", Call::Read),
    (b"write", Call::Write),
    (b"tick", Call::Tick),
    (b"led", Call::Led),
    (b"state", Call::State),
    (b"room", Call::Room),
    (b"ms", Call::Ms),
    (b"nexttick", Call::NextTick),
    (b"pending", Call::Pending),
    (b"cycles_of", Call::CyclesOf),
    (b"irq", Call::Irq),
    (b"enabled", Call::Enabled),
    (b"idle", Call::Idle),
    (b"spi1off", Call::Spi1Off),
    (b"srbyte", Call::Shift),
    (b"usb", Call::Usb),
    (b"wdt", Call::Wdt),
    (b"spi1", Call::Spi1),
    (b"spi2", Call::Spi2),
    (b"new", Call::New),
    (b"reset", Call::Reset),
    (b"push", Call::Push),
    (b"apply", Call::Apply),
    (b"set", Call::Set),
    (b"p33", Call::Port),
    (b"keyid", Call::KeyId),
    (b"encid", Call::EncId),
];

impl Call {
    fn named(name: &[u8]) -> Option<Call>
        ensures { result ≡ call_named name.now }
    {
        find(&CALLS, name)
    }
}

// A name of a call, and its numbers.
#[tactic(auto, unfolding(crate::specs::Asks::call_in))]
pub fn call_in(words: Words) -> Option<Ask>
    ensures { result ≡ call_in words.entry.line.now words.entry.word }
{
    called(Call::named(words.bytes())?, words.next())
}

#[tactic(auto, unfolding(crate::specs::Asks::called))]
fn called(call: Call, words: Words) -> Option<Ask>
    ensures { result ≡ called call words.entry.line.now words.entry.word }
{
    match call {
        Call::Step => words.one().map(|cycles| Ask::Step { cycles }),
        Call::Read => words.one().map(|Hex(addr)| Ask::Read { addr }),
        Call::Write => {
            let (Hex(addr), Hex(value)) = words.two()?;
            Some(Ask::Write { addr, value })
        }
        Call::Tick => words.is_empty().then_some(Ask::Tick),
        Call::Led => words.is_empty().then_some(Ask::Led),
        Call::State => words.is_empty().then_some(Ask::State),
        Call::Room => words.is_empty().then_some(Ask::Room),
        Call::Ms => words.is_empty().then_some(Ask::Ms),
        Call::NextTick => words.is_empty().then_some(Ask::NextTick),
        Call::Pending => words.is_empty().then_some(Ask::Pending),
        Call::CyclesOf => words.one().map(|ms| Ask::CyclesOf { ms }),
        Call::Irq => words.one().map(|core| Ask::Irq { core }),
        Call::Enabled => {
            let (core, irq) = words.two()?;
            Some(Ask::Enabled { core, irq })
        }
        Call::Idle => words.is_empty().then_some(Ask::Idle),
        Call::Spi1Off => words.is_empty().then_some(Ask::Spi1Off),
        Call::Shift => words.one().map(|byte| Ask::Shift { byte }),
        Call::Usb => {
            let (at, period) = words.two()?;
            Some(Ask::Usb { at, period })
        }
        Call::Wdt => words.one().map(|at| Ask::Wdt { at }),
        Call::Spi1 => {
            let (bytes, baud, irq) = words.three()?;
            Some(Ask::Spi1 { bytes, baud, irq })
        }
        Call::Spi2 => {
            let (bytes, baud, irq) = words.three()?;
            Some(Ask::Spi2 { bytes, baud, irq })
        }
        Call::New => words.one().map(|hz| Ask::New { hz }),
        Call::Reset => words.is_empty().then_some(Ask::Reset),
        Call::Push => pushed(words),
        Call::Apply => action_in(words).map(|action| Ask::Apply { action }),
        Call::Set => setting_in(words).map(Ask::Set),
        Call::Port => port_in(words).map(Ask::Port),
        Call::KeyId => id_in(words, true).map(Ask::Name),
        Call::EncId => id_in(words, false).map(Ask::Name),
    }
}

// An action with its time.
#[tactic(auto, unfolding(crate::specs::Asks::push_in))]
fn pushed(words: Words) -> Option<Ask>
    ensures { result ≡ push_in words.entry.line.now words.entry.word }
{
    let time = decimal(words.bytes())?;
    let action = action_in(words.next())?;
    Some(Ask::Push { time, action })
}

// ---- actions

#[derive(Clone, Copy, Debug, PartialEq, Eq)]
enum Act {
    Midi,
    Key,
    Enc,
    Adc,
    KeyVel,
    Pressure,
}

const ACTIONS: [(&[u8], Act); 6] = [
    (b"midi", Act::Midi),
    (b"key", Act::Key),
    (b"enc", Act::Enc),
    (b"adc", Act::Adc),
    (b"vel", Act::KeyVel),
    (b"pressure", Act::Pressure),
];

impl Act {
    fn named(name: &[u8]) -> Option<Act>
        ensures { result ≡ act_named name.now }
    {
        find(&ACTIONS, name)
    }
}

#[tactic(auto, unfolding(crate::specs::Asks::action_in))]
fn action_in(words: Words) -> Option<Action>
    ensures { result ≡ action_in words.entry.line.now words.entry.word }
{
    acted(Act::named(words.bytes())?, words.next())
}

#[tactic(auto, unfolding(crate::specs::Asks::acted))]
fn acted(act: Act, words: Words) -> Option<Action>
    ensures { result ≡ acted act words.entry.line.now words.entry.word }
{
    match act {
        Act::Midi => words.one().map(|b| Action::Midi { b }),
        Act::Key => {
            let (id, down) = words.two()?;
            Some(Action::Key { id, down })
        }
        Act::Enc => {
            let (enc, Signed(clicks)) = words.two()?;
            Some(Action::Enc { enc, clicks })
        }
        Act::Adc => {
            let (ch, value) = words.two()?;
            Some(Action::Adc { ch, value })
        }
        Act::KeyVel => words.one().map(|vel| Action::KeyVel { vel }),
        Act::Pressure => {
            let (id, vel) = words.two()?;
            Some(Action::Pressure { id, vel })
        }
    }
}

// ---- `set`

#[derive(Clone, Copy, Debug, PartialEq, Eq)]
enum Set {
    CycleTicks,
    RoomCap,
    SkipIdle,
    InIsr,
    Exc,
    Spi2Pending,
}

const SETTINGS: [(&[u8], Set); 6] = [
    (b"cycle_ticks", Set::CycleTicks),
    (b"room_cap", Set::RoomCap),
    (b"skip_idle", Set::SkipIdle),
    (b"in_isr", Set::InIsr),
    (b"exc", Set::Exc),
    (b"spi2", Set::Spi2Pending),
];

impl Set {
    fn named(name: &[u8]) -> Option<Set>
        ensures { result ≡ set_named name.now }
    {
        find(&SETTINGS, name)
    }
}

#[tactic(auto, unfolding(crate::specs::Asks::setting_in))]
fn setting_in(words: Words) -> Option<Setting>
    ensures { result ≡ setting_in words.entry.line.now words.entry.word }
{
    set_as(Set::named(words.bytes())?, words.next())
}

#[tactic(auto, unfolding(crate::specs::Asks::set_as))]
fn set_as(set: Set, words: Words) -> Option<Setting>
    ensures { result ≡ set_as set words.entry.line.now words.entry.word }
{
    match set {
        Set::CycleTicks => words.one().map(Setting::CycleTicks),
        Set::RoomCap => words.one().map(Setting::RoomCap),
        Set::SkipIdle => words.one().map(Setting::SkipIdle),
        Set::InIsr => words.one().map(Setting::InIsr),
        Set::Exc => words.one().map(Setting::Exc),
        Set::Spi2Pending => words.one().map(Setting::Spi2Pending),
    }
}

// ---- the port's calls

#[derive(Clone, Copy, Debug, PartialEq, Eq)]
enum PortCall {
    Write,
    Read,
    Event,
    Reg,
    Same,
    Snap,
    Sum,
    Keep,
    Ms,
    New,
    Reset,
}

const PORT_CALLS: [(&[u8], PortCall); 11] = [
    (b"write", PortCall::Write),
    (b"read", PortCall::Read),
    (b"event", PortCall::Event),
    (b"reg", PortCall::Reg),
    (b"same", PortCall::Same),
    (b"snap", PortCall::Snap),
    (b"sum", PortCall::Sum),
    (b"keep", PortCall::Keep),
    (b"ms", PortCall::Ms),
    (b"new", PortCall::New),
    (b"reset", PortCall::Reset),
];

impl PortCall {
    fn named(name: &[u8]) -> Option<PortCall>
        ensures { result ≡ port_named name.now }
    {
        find(&PORT_CALLS, name)
    }
}

#[tactic(auto, unfolding(crate::specs::Asks::port_in))]
fn port_in(words: Words) -> Option<PortAsk>
    ensures { result ≡ port_in words.entry.line.now words.entry.word }
{
    port_as(PortCall::named(words.bytes())?, words.next())
}

#[tactic(auto, unfolding(crate::specs::Asks::port_as))]
fn port_as(call: PortCall, words: Words) -> Option<PortAsk>
    ensures { result ≡ port_as call words.entry.line.now words.entry.word }
{
    match call {
        PortCall::Write => {
            let (Hex(addr), Hex(value)) = words.two()?;
            Some(PortAsk::Write { addr, value })
        }
        PortCall::Read => words.one().map(|Hex(addr)| PortAsk::Read { addr }),
        PortCall::Event => words.is_empty().then_some(PortAsk::Event),
        PortCall::Reg => {
            let (addr, rtc) = words.two()?;
            Some(PortAsk::Reg { addr, rtc })
        }
        PortCall::Same => words.is_empty().then_some(PortAsk::Same),
        PortCall::Snap => words.is_empty().then_some(PortAsk::Snap),
        PortCall::Sum => words.is_empty().then_some(PortAsk::Sum),
        PortCall::Keep => words.is_empty().then_some(PortAsk::Keep),
        PortCall::Ms => words.one().map(|con| PortAsk::Ms { con }),
        PortCall::New => words.is_empty().then_some(PortAsk::New),
        PortCall::Reset => words.one().map(|cause| PortAsk::Reset { cause }),
    }
}

// ---- names

// One word, a name as pairs of hex digits: a key's or an encoder's id, or none.
#[tactic(auto, unfolding(crate::specs::Asks::id_in))]
pub fn id_in(words: Words, key: bool) -> Option<Option<u8>>
    ensures { result ≡ id_in words.entry.line.now words.entry.word key }
{
    if !words.next().is_empty() {
        return None;
    }
    id_named(words.bytes(), key)
}

// A line has room for no more than 2,045 bytes in hex.
#[tactic(auto, unfolding(crate::specs::Asks::id_named))]
fn id_named(word: &[u8], key: bool) -> Option<Option<u8>>
    ensures { result ≡ id_named word.now key }
{
    let mut name = [0u8; 2048];
    let n = unhex(word, &mut name)?;
    Some(id_of(first(&name, n), key))
}

#[tactic(auto, unfolding(crate::specs::Asks::id_of))]
fn id_of(name: &[u8], key: bool) -> Option<u8>
    ensures { result ≡ id_of name.now key }
{
    if key {
        names::key_id(name)
    } else {
        names::enc_id(name)
    }
}

// Actions and the record layout: a script's entries, a step's action output and the driver's input are records.
//
// A reader starts at offset 0, decodes, and goes on at `next` until none is left or one is broken. A writer encodes at an
// offset and goes on where the answer says; where a record does not fit, nothing is written.
#![tactic(auto)]

ghost use Rattle.std.specs.Prelude.{◌≡◌, ◌++◌, ℕ, ◌+◌, ◌-◌, ◌*◌, ◌≤◌, ◌<◌, ◌^◌, length, drop, MatchOption};
ghost use Rattle.std.proofs.lemmas.List.Edits.{sets};
ghost use Rattle.records.specs.Le.{le, number_at};
ghost use Rattle.records.specs.Layout.{length_of, kind_of, kind_of_order, head_of, body_of, body_of_order, bytes_of_timed, bytes_of_order};
ghost use Rattle.records.specs.Kinds.{number_of, kind_of_body, bytes_of, body_in, Found};
ghost use Rattle.records.specs.Decoded.{timed_of, record_of};
ghost use Rattle.records.specs.Encoded.{answer_of, written_of};

// The actions of the FM-1, as the source names them. `clicks` is an i32, kept as its bits.
#[derive(Clone, Copy, Debug, PartialEq, Eq)]
pub enum Action {
    Key { id: u8, down: bool },
    Enc { enc: u8, clicks: u32 },
    Adc { ch: u8, value: u16 },
    Midi { b: u8 },
    KeyVel { vel: u8 },
    Pressure { id: u8, vel: u8 },
}

// What only the driver takes.
#[derive(Clone, Copy, Debug, PartialEq, Eq)]
pub enum Order {
    Read { addr: u32 },
    Write { addr: u32, value: u32 },
    Step { cycles: u64 },
}

// A record that breaks the layout, by its first byte's offset.
#[derive(Clone, Copy, Debug, PartialEq, Eq)]
pub struct Broken {
    pub at: usize,
}

// What is found where only actions are looked for, and where the next record begins.
#[derive(Clone, Copy, Debug, PartialEq, Eq)]
pub struct Timed {
    pub time: u64,
    pub action: Action,
    pub next: usize,
}

// What the driver finds, and where the next record begins.
#[derive(Clone, Copy, Debug, PartialEq, Eq)]
pub struct Record {
    pub body: Body,
    pub next: usize,
}

#[derive(Clone, Copy, Debug, PartialEq, Eq)]
pub enum Body {
    Timed { time: u64, action: Action },
    Order(Order),
}

// The kinds. Document 01 gives them in this order.
#[derive(Clone, Copy, Debug, PartialEq, Eq)]
enum Kind {
    Key,
    Enc,
    Adc,
    Midi,
    KeyVel,
    Pressure,
    Read,
    Write,
    Step,
}

impl Kind {
    #[tactic(auto, using(base::specs::Tests::tests), unfolding(crate::specs::Layout::length_of))]
    fn numbered(number: u16) -> Option<Kind>
        ensures { MatchOption result (length_of number ≡ 0) (λ kind. number_of kind ≡ number) }
    {
        match number {
            1 => Some(Kind::Key),
            2 => Some(Kind::Enc),
            3 => Some(Kind::Adc),
            4 => Some(Kind::Midi),
            5 => Some(Kind::KeyVel),
            6 => Some(Kind::Pressure),
            0x101 => Some(Kind::Read),
            0x102 => Some(Kind::Write),
            0x103 => Some(Kind::Step),
            _ => None,
        }
    }

    fn number(self) -> u16
        ensures { result ≡ number_of self }
    {
        match self {
            Kind::Key => 1,
            Kind::Enc => 2,
            Kind::Adc => 3,
            Kind::Midi => 4,
            Kind::KeyVel => 5,
            Kind::Pressure => 6,
            Kind::Read => 0x101,
            Kind::Write => 0x102,
            Kind::Step => 0x103,
        }
    }

    // The bytes of a whole record.
    #[tactic(auto, unfolding(crate::specs::Layout::length_of))]
    fn length(self) -> usize
        ensures { result ≡ length_of (number_of self) }
    {
        match self {
            Kind::Key => 14,
            Kind::Enc => 17,
            Kind::Adc => 15,
            Kind::Midi => 13,
            Kind::KeyVel => 13,
            Kind::Pressure => 14,
            Kind::Read => 8,
            Kind::Write => 12,
            Kind::Step => 12,
        }
    }
}

// A record begins with its length and its kind. An order's numbers follow, or the time (8) and then an action's, of
// which the first is a byte.
const HEAD: usize = 4;

const SECOND_OF_ORDER: usize = HEAD + 4;

const FIRST: usize = HEAD + 8;

const SECOND: usize = FIRST + 1;

// The record of kinds 1 to 6 at an offset, or none past the last byte.
pub fn decode_timed(bytes: &[u8], at: usize) -> Result<Option<Timed>, Broken>
    ensures { result ≡ timed_of (drop at bytes.now) at }
{
    let Some(Record { body, next }) = decode(bytes, at)? else {
        return Ok(None);
    };
    // to one who looks for actions alone, the driver's own kinds break the layout
    let Body::Timed { time, action } = body else {
        return Err(Broken { at });
    };
    Ok(Some(Timed { time, action, next }))
}

// The record at an offset, the driver's own kinds among them, or none past the last byte.
pub fn decode(bytes: &[u8], at: usize) -> Result<Option<Record>, Broken>
    ensures { result ≡ record_of (drop at bytes.now) at }
{
    if bytes.len() <= at {
        return Ok(None);
    }
    let s = &bytes[at..];
    let Some(kind) = whole_kind(s) else {
        return Err(Broken { at });
    };
    let body = body_in(kind, s);
    Ok(Some(Record {
        body,
        next: at + kind.length(),
    }))
}

// Writes a record of kinds 1 to 6 at an offset and answers where the next one goes, or writes nothing where it does not fit.
pub fn encode_timed(out: &mut [u8], at: usize, time: u64, action: Action) -> Option<usize>
    ensures answer { result ≡ answer_of out.old at (bytes_of_timed time action) }
    ensures bytes { out.new ≡ written_of out.old at (bytes_of_timed time action) }
{
    encode(out, at, Body::Timed { time, action })
}

// The same of the driver's own kinds.
pub fn encode_order(out: &mut [u8], at: usize, order: Order) -> Option<usize>
    ensures answer { result ≡ answer_of out.old at (bytes_of_order order) }
    ensures bytes { out.new ≡ written_of out.old at (bytes_of_order order) }
{
    encode(out, at, Body::Order(order))
}

// ---- reading

// The kind of the record that `s` begins with, none where it breaks the layout.
fn whole_kind(s: &[u8]) -> Option<Kind>
    ensures { Found s.now result }
{
    if s.len() < HEAD {
        return None;
    }
    let kind = Kind::numbered(u16_at(s, 2))?;
    let len = u16_at(s, 0) as usize;
    if len != kind.length() || s.len() < len {
        return None;
    }
    if kind == Kind::Key && 1 < s[SECOND] {
        return None;
    }
    Some(kind)
}

#[tactic(auto, unfolding(crate::specs::Layout::length_of, crate::specs::Layout::order_in))]
fn body_in(kind: Kind, s: &[u8]) -> Body
    requires { length_of (number_of kind) ≤ length s.now }
    ensures { result ≡ body_in (number_of kind) s.now }
{
    match kind {
        Kind::Key => at_time(
            s,
            Action::Key {
                id: s[FIRST],
                down: s[SECOND] == 1,
            },
        ),
        Kind::Enc => at_time(
            s,
            Action::Enc {
                enc: s[FIRST],
                clicks: u32_at(s, SECOND),
            },
        ),
        Kind::Adc => at_time(
            s,
            Action::Adc {
                ch: s[FIRST],
                value: u16_at(s, SECOND),
            },
        ),
        Kind::Midi => at_time(s, Action::Midi { b: s[FIRST] }),
        Kind::KeyVel => at_time(s, Action::KeyVel { vel: s[FIRST] }),
        Kind::Pressure => at_time(
            s,
            Action::Pressure {
                id: s[FIRST],
                vel: s[SECOND],
            },
        ),
        Kind::Read => Body::Order(Order::Read {
            addr: u32_at(s, HEAD),
        }),
        Kind::Write => Body::Order(Order::Write {
            addr: u32_at(s, HEAD),
            value: u32_at(s, SECOND_OF_ORDER),
        }),
        Kind::Step => Body::Order(Order::Step {
            cycles: u64_at(s, HEAD),
        }),
    }
}

fn at_time(s: &[u8], action: Action) -> Body
    requires { 12 ≤ length s.now }
    ensures { result ≡ Body.Timed (number_at 4 8 s.now) action }
{
    Body::Timed {
        time: u64_at(s, HEAD),
        action,
    }
}

fn u16_at(s: &[u8], i: usize) -> u16
    requires { i + 2 ≤ length s.now }
    ensures { result ≡ number_at i 2 s.now }
{
    u16::from_le_bytes([s[i], s[i + 1]])
}

fn u32_at(s: &[u8], i: usize) -> u32
    requires { i + 4 ≤ length s.now }
    ensures { result ≡ number_at i 4 s.now }
{
    u32::from_le_bytes([s[i], s[i + 1], s[i + 2], s[i + 3]])
}

fn u64_at(s: &[u8], i: usize) -> u64
    requires { i + 8 ≤ length s.now }
    ensures { result ≡ number_at i 8 s.now }
{
    u64::from_le_bytes([
        s[i],
        s[i + 1],
        s[i + 2],
        s[i + 3],
        s[i + 4],
        s[i + 5],
        s[i + 6],
        s[i + 7],
    ])
}

// ---- writing

fn encode(out: &mut [u8], at: usize, body: Body) -> Option<usize>
    ensures answer { result ≡ answer_of out.old at (bytes_of body) }
    ensures bytes { out.new ≡ written_of out.old at (bytes_of body) }
{
    let len = kind_of(body).length();
    if out.len().saturating_sub(at) < len {
        return None;
    }
    put(out, at, body);
    Some(at + len)
}

fn put(out: &mut [u8], at: usize, body: Body)
    requires { at + length_of (kind_of_body body) ≤ length out.old }
    ensures { out.new ≡ sets out.old at (bytes_of body) }
{
    let kind = kind_of(body);
    put_head(out, at, kind);
    let len = kind.length();
    match body {
        Body::Timed { time, action } => {
            put_number(out, at + HEAD, 8, time);
            put_number(out, at + FIRST, len - FIRST, body_of(action));
        }
        Body::Order(order) => put_number(out, at + HEAD, len - HEAD, body_of_order(order)),
    }
}

fn put_head(out: &mut [u8], at: usize, kind: Kind)
    requires { at + 4 ≤ length out.old }
    ensures { out.new ≡ sets out.old at (head_of (number_of kind)) }
{
    put_number(out, at, 2, kind.length() as u64);
    put_number(out, at + 2, 2, kind.number() as u64);
}

// Stores the `k` bytes of `n` from `at` on.
fn put_number(out: &mut [u8], at: usize, k: usize, n: u64)
    requires { at + k ≤ length out.old }
    ensures { out.new ≡ sets out.old at (le k n) }
{
    let mut left = n;
    for i in at..at + k {
        out[i] = (left % 256) as u8;
        left /= 256;
    }
}

fn kind_of(body: Body) -> Kind
    ensures { number_of result ≡ kind_of_body body }
{
    match body {
        Body::Timed { time: _, action } => match action {
            Action::Key { .. } => Kind::Key,
            Action::Enc { .. } => Kind::Enc,
            Action::Adc { .. } => Kind::Adc,
            Action::Midi { .. } => Kind::Midi,
            Action::KeyVel { .. } => Kind::KeyVel,
            Action::Pressure { .. } => Kind::Pressure,
        },
        Body::Order(order) => match order {
            Order::Read { .. } => Kind::Read,
            Order::Write { .. } => Kind::Write,
            Order::Step { .. } => Kind::Step,
        },
    }
}

// A body's bytes as one number: none is longer than eight.
fn body_of(action: Action) -> u64
    ensures { le (length_of (kind_of action) - 12) result ≡ body_of action }
{
    match action {
        Action::Key { id, down } => byte_and(id, u32::from(down)),
        Action::Enc { enc, clicks } => byte_and(enc, clicks),
        Action::Adc { ch, value } => byte_and(ch, value as u32),
        Action::Midi { b } => b as u64,
        Action::KeyVel { vel } => vel as u64,
        Action::Pressure { id, vel } => byte_and(id, vel as u32),
    }
}

fn body_of_order(order: Order) -> u64
    ensures { le (length_of (kind_of_order order) - 4) result ≡ body_of_order order }
{
    match order {
        Order::Read { addr } => addr as u64,
        Order::Write { addr, value } => word_and(addr, value),
        Order::Step { cycles } => cycles,
    }
}

// Two numbers as one, the first in the lowest byte.
fn byte_and(first: u8, second: u32) -> u64
    ensures { (k : ℕ) → le (1 + k) result ≡ le 1 first ++ le k second }
{
    (first as u64) + 256 * (second as u64)
}

// The same, the first in the lowest four bytes.
fn word_and(first: u32, second: u32) -> u64
    ensures { (k : ℕ) → le (4 + k) result ≡ le 4 first ++ le k second }
{
    (first as u64) + 0x1_0000_0000 * (second as u64)
}

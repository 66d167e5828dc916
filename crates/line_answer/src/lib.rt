// What `calls` and `asks` answer, as text behind the bytes that wait in a buffer: the line itself, ` = ` and its answer. A byte for which there is no room is
// left out, as everywhere in `text`.
#![tactic(auto)]

mod forms;
mod records;

ghost use Rattle.std.specs.Prelude.{◌≡◌, length};
ghost use Rattle.text.specs.Putting.{place_after_all, put_all};
ghost use Rattle.line_answer.specs.Answers.{answer_text, byte_text, clock_text, half_text, light_text, lights_text, line_text, star_text, unless_refused, value_text};

use forms::put_form;
pub use records::Record;
use records::put_record;
use text::{put, put_decimal, put_text};

// What a line came to.
#[derive(Clone, Copy, Debug, PartialEq, Eq)]
pub enum Answer {
    Number(u64),
    Pair(u64, u64),
    Flag(bool),
    Hex(u32),
    // a register of the port
    Byte(u8),
    // a sum over registers
    Sum(u64),
    NoValue,
    // the refusal's number
    Refused(u32),
    // what is no call
    NoCall,
    // a register of the board, or none; clock and `skipped` while idle time is skipped
    Value {
        value: Option<u32>,
        clock: Option<(u64, u64)>,
    },
    // the audio half's address and words, the byte's place and value
    Stepped {
        clock: u64,
        half: Option<(u32, u32)>,
        byte: Option<(u32, u8)>,
        usb: bool,
        wdt: bool,
        applied: u32,
    },
    State {
        clock: u64,
        due: u64,
        skipped: u64,
        halves: u64,
        queued: u32,
        dropped: u64,
        script: u32,
        wire: u64,
        done: u64,
        vel: u64,
    },
    // the port's events
    Watchdog {
        fed: bool,
    },
    Reset,
    // the port
    Snap {
        con: u32,
        dat: u32,
        step: u8,
        cmd: u8,
        addr: u16,
        changed: u64,
    },
    // the span, before the LEDs that were lit
    Lights {
        span: u64,
    },
    // where the next record begins, and whether this one comes back as the bytes that it was read from
    Recorded {
        what: Record,
        next: usize,
        same: bool,
    },
    // no record
    Broken {
        at: usize,
    },
    // no more records
    End,
    // a line that has no room: it is not repeated
    LongLine,
    // a line that asks nothing: it has no answer
    NoLine,
}

impl Answer {
    // A result, or why there is none.
    #[tactic(auto, unfolding(crate::specs::Answers::unless_refused))]
    pub fn unless_refused(self, refused: u32) -> Answer
        ensures { result ≡ unless_refused refused self }
    {
        if refused == 0 {
            return self;
        }
        Answer::Refused(refused)
    }
}

// ---- as text

// The line with its answer.
#[tactic(auto, unfolding(crate::specs::Answers::line_text))]
pub fn put_line(out: &mut [u8], to: usize, line: &[u8], a: Answer, lights: &[u64; 41]) -> usize
    ensures place { result ≡ place_after_all (length out.old) to (line_text line.now a lights.now) }
    ensures bytes { out.new ≡ put_all out.old to (line_text line.now a lights.now) }
{
    match a {
        Answer::NoLine => to,
        Answer::LongLine => put_text(out, to, b"? = ?\n"),
        _ => {
            let repeated = put_text(out, to, line);
            let equals = put_text(out, repeated, b" = ");
            let said = put_answer(out, equals, a, lights);
            put_text(out, said, b"\n")
        }
    }
}

#[tactic(auto, unfolding(crate::specs::Answers::answer_text))]
fn put_answer(out: &mut [u8], to: usize, a: Answer, lights: &[u64; 41]) -> usize
    ensures place { result ≡ place_after_all (length out.old) to (answer_text a lights.now) }
    ensures bytes { out.new ≡ put_all out.old to (answer_text a lights.now) }
{
    match a {
        Answer::Number(n) => put_form(out, to, b"%", &[n]),
        Answer::Pair(n, m) => put_form(out, to, b"% %", &[n, m]),
        Answer::Flag(is) => put_form(out, to, b"%", &[base::when(is, 1) as u64]),
        Answer::Hex(n) => put_form(out, to, b"$", &[n as u64]),
        Answer::Byte(b) => put_form(out, to, b"&", &[b as u64]),
        Answer::Sum(n) => put_form(out, to, b"@", &[n]),
        Answer::NoValue => put_text(out, to, b"none"),
        Answer::Refused(number) => put_form(out, to, b"E %", &[number as u64]),
        Answer::NoCall => put_text(out, to, b"?"),
        Answer::Value { value, clock } => {
            let told = put_value(out, to, value);
            put_clock(out, told, clock)
        }
        Answer::Stepped {
            clock,
            half,
            byte,
            usb,
            wdt,
            applied,
        } => {
            let told = put_form(out, to, b"% ", &[clock]);
            let heard = put_half(out, told, half);
            let space = put_text(out, heard, b" ");
            let got = put_byte(out, space, byte);
            put_form(
                out,
                got,
                b" % % %",
                &[
                    base::when(usb, 1) as u64,
                    base::when(wdt, 1) as u64,
                    applied as u64,
                ],
            )
        }
        Answer::State {
            clock,
            due,
            skipped,
            halves,
            queued,
            dropped,
            script,
            wire,
            done,
            vel,
        } => put_form(
            out,
            to,
            b"clock % due % skipped % halves % queued % dropped % script % wire % done % vel %",
            &[
                clock,
                due,
                skipped,
                halves,
                queued as u64,
                dropped,
                script as u64,
                wire,
                done,
                vel,
            ],
        ),
        Answer::Watchdog { fed } => put_form(out, to, b"wdt %", &[base::when(fed, 1) as u64]),
        Answer::Reset => put_text(out, to, b"reset"),
        Answer::Snap {
            con,
            dat,
            step,
            cmd,
            addr,
            changed,
        } => put_form(
            out,
            to,
            b"% % % % % %",
            &[
                con as u64,
                dat as u64,
                step as u64,
                cmd as u64,
                addr as u64,
                changed,
            ],
        ),
        Answer::Lights { span } => {
            let spanned = put_decimal(out, to, span);
            put_lights(out, spanned, lights)
        }
        Answer::Recorded { what, next, same } => {
            let told = put_record(out, to, what);
            let placed = put_form(out, told, b" next %", &[next as u64]);
            put_star(out, placed, same)
        }
        Answer::Broken { at } => put_form(out, to, b"broken %", &[at as u64]),
        Answer::End => put_text(out, to, b"end"),
        Answer::LongLine => to,
        Answer::NoLine => to,
    }
}

#[tactic(auto, unfolding(crate::specs::Answers::value_text))]
fn put_value(out: &mut [u8], to: usize, value: Option<u32>) -> usize
    ensures place { result ≡ place_after_all (length out.old) to (value_text value) }
    ensures bytes { out.new ≡ put_all out.old to (value_text value) }
{
    match value {
        Some(v) => put_form(out, to, b"$", &[v as u64]),
        None => put_text(out, to, b"none"),
    }
}

#[tactic(auto, unfolding(crate::specs::Answers::clock_text, text::specs::Putting::place_after_all, text::specs::Putting::put_all))]
fn put_clock(out: &mut [u8], to: usize, clock: Option<(u64, u64)>) -> usize
    ensures place { result ≡ place_after_all (length out.old) to (clock_text clock) }
    ensures bytes { out.new ≡ put_all out.old to (clock_text clock) }
{
    match clock {
        Some((cycles, skipped)) => put_form(out, to, b" % %", &[cycles, skipped]),
        None => to,
    }
}

#[tactic(auto, unfolding(crate::specs::Answers::half_text))]
fn put_half(out: &mut [u8], to: usize, half: Option<(u32, u32)>) -> usize
    ensures place { result ≡ place_after_all (length out.old) to (half_text half) }
    ensures bytes { out.new ≡ put_all out.old to (half_text half) }
{
    match half {
        Some((addr, words)) => put_form(out, to, b"$/%", &[addr as u64, words as u64]),
        None => put_text(out, to, b"-"),
    }
}

#[tactic(auto, unfolding(crate::specs::Answers::byte_text))]
fn put_byte(out: &mut [u8], to: usize, byte: Option<(u32, u8)>) -> usize
    ensures place { result ≡ place_after_all (length out.old) to (byte_text byte) }
    ensures bytes { out.new ≡ put_all out.old to (byte_text byte) }
{
    match byte {
        Some((addr, b)) => put_form(out, to, b"$/&", &[addr as u64, b as u64]),
        None => put_text(out, to, b"-"),
    }
}

// A record that does not come back has a star.
#[tactic(auto, unfolding(crate::specs::Answers::star_text, text::specs::Putting::place_after_all, text::specs::Putting::put_all))]
fn put_star(out: &mut [u8], to: usize, same: bool) -> usize
    ensures place { result ≡ place_after_all (length out.old) to (star_text same) }
    ensures bytes { out.new ≡ put_all out.old to (star_text same) }
{
    if same { to } else { put_text(out, to, b" *") }
}

fn put_lights(out: &mut [u8], to: usize, lights: &[u64; 41]) -> usize
    ensures place { result ≡ place_after_all (length out.old) to (lights_text 0 lights.now) }
    ensures bytes { out.new ≡ put_all out.old to (lights_text 0 lights.now) }
{
    let mut end = to;
    for (id, lit) in lights.iter().enumerate() {
        end = put_light(out, end, id as u64, *lit);
    }
    end
}

// An LED that was not lit is left out.
#[tactic(auto, unfolding(crate::specs::Answers::light_text, text::specs::Putting::place_after_all, text::specs::Putting::put_all))]
fn put_light(out: &mut [u8], to: usize, id: u64, lit: u64) -> usize
    ensures place { result ≡ place_after_all (length out.old) to (light_text id lit) }
    ensures bytes { out.new ≡ put_all out.old to (light_text id lit) }
{
    if lit == 0 {
        return to;
    }
    put_form(out, to, b" %:%", &[id, lit])
}

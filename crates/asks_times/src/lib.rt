// Times and forces by lines of text, as `asks` takes them: a question's number, or `None` where the line asks nothing that is known here or lies outside
// 01's domain. `line_ask` reads the words: a table says which questions there are. The rate is the last number.
#![tactic(auto)]

mod conversions;
mod force;
mod rate;

ghost use Rattle.std.specs.Prelude.{◌≡◌};
ghost use Rattle.asks_times.specs.Questions.{question_named, reckoned_in, number_of, mul_div_of};

use conversions::{
    count, cycles, half, milliseconds, spi1, spi2, timeout, timer5_count, timer5_period,
};
use force::of_velocity;
pub use force::ramp_in;
use line_ask::Words;
use rate::Rate;
use text::find;
use times::{Cycles, RampTime};

#[derive(Clone, Copy, Debug, PartialEq, Eq)]
enum Question {
    MulDiv,
    Watchdog,
    Velocity,
    Byte,
    Press,
    Release,
    Pressure,
    Spi1,
    Spi2,
    Timer4,
    Timer5Count,
    Ms,
    Cycles,
    Timer5,
    Count,
    Half,
    Timeout,
}

const QUESTIONS: [(&[u8], Question); 17] = [
    (b"muldiv", Question::MulDiv),
    (b"wdt", Question::Watchdog),
    (b"velocity", Question::Velocity),
    (b"byte", Question::Byte),
    (b"press", Question::Press),
    (b"release", Question::Release),
    (b"pressure", Question::Pressure),
    (b"spi1of", Question::Spi1),
    (b"spi2of", Question::Spi2),
    (b"t4", Question::Timer4),
    (b"t5count", Question::Timer5Count),
    (b"ms", Question::Ms),
    (b"cycles", Question::Cycles),
    (b"t5", Question::Timer5),
    (b"count", Question::Count),
    (b"half", Question::Half),
    (b"timeout", Question::Timeout),
];

impl Question {
    fn named(name: &[u8]) -> Option<Question>
        ensures { result ≡ question_named name.now }
    {
        find(&QUESTIONS, name)
    }
}

// The line's first word names the question.
#[tactic(auto, unfolding(crate::specs::Questions::reckoned_in))]
pub fn reckoned(words: Words) -> Option<u64>
    ensures { result ≡ reckoned_in words.entry.line.now words.entry.word }
{
    number_of(Question::named(words.bytes())?, words.next())
}

#[tactic(auto, unfolding(crate::specs::Questions::number_of))]
fn number_of(q: Question, words: Words) -> Option<u64>
    ensures { result ≡ number_of q words.entry.line.now words.entry.word }
{
    match q {
        Question::MulDiv => {
            let (a, b, c) = words.three()?;
            mul_div(a, b, c)
        }
        Question::Watchdog => Some(times::wdt_ms(words.one()?)),
        Question::Velocity => Some(of_velocity(words.one()?)),
        Question::Byte => {
            let Rate(hz) = words.one()?;
            Some(times::midi_byte_time(hz).0)
        }
        Question::Press => {
            let Rate(hz) = words.one()?;
            Some(times::ms_cycles(RampTime::Press, hz).0)
        }
        Question::Release => {
            let Rate(hz) = words.one()?;
            Some(times::ms_cycles(RampTime::Release, hz).0)
        }
        Question::Pressure => {
            let Rate(hz) = words.one()?;
            Some(times::ms_cycles(RampTime::Pressure, hz).0)
        }
        Question::Spi1 => {
            let (bytes, baud, Rate(hz)) = words.three()?;
            spi1(bytes, baud, hz)
        }
        Question::Spi2 => {
            let (bytes, baud, Rate(hz)) = words.three()?;
            spi2(bytes, baud, hz)
        }
        Question::Timer4 => {
            let (n, Rate(hz)) = words.two()?;
            Some(u64::from(times::mhz24_of_cycles(Cycles(n), hz).0))
        }
        Question::Timer5Count => {
            let (n, Rate(hz)) = words.two()?;
            timer5_count(Cycles(n), hz)
        }
        Question::Ms => {
            let (n, Rate(hz)) = words.two()?;
            milliseconds(Cycles(n), hz)
        }
        Question::Cycles => {
            let (ms, Rate(hz)) = words.two()?;
            cycles(ms, hz)
        }
        Question::Timer5 => {
            let (period, Rate(hz)) = words.two()?;
            Some(timer5_period(period, hz))
        }
        Question::Count => {
            let (code, Rate(hz)) = words.two()?;
            count(code, hz)
        }
        Question::Half => {
            let (len, Rate(hz)) = words.two()?;
            Some(half(len, hz))
        }
        Question::Timeout => {
            let (wait, Rate(hz)) = words.two()?;
            Some(timeout(wait, hz))
        }
    }
}

#[tactic(auto, unfolding(crate::specs::Questions::mul_div_of))]
fn mul_div(a: u64, b: u64, c: u64) -> Option<u64>
    ensures { result ≡ mul_div_of a b c }
{
    if c == 0 {
        return None;
    }
    Some(u64::from(times::mul_div(a, b, c)))
}

// A record at an offset of some bytes, as an answer that `line_answer` shows: its time and action, or what it orders, and where the next one begins.
#![tactic(auto)]

mod again;

ghost use Rattle.std.specs.Prelude.{◌≡◌};
ghost use Rattle.asks_records.specs.Recited.{record_in, bytes_answer, record_answer, body_answer, action_record, clicks_record, order_record};

use again::{order_again, timed_again};
use line_answer::{Answer, Record};
use line_ask::Words;
use records::{Action, Body, Broken, Order};
use text::{first, unhex};

// `HEX AT` and no word more: some bytes as pairs of hex digits, and an offset of them.
#[tactic(auto, unfolding(crate::specs::Recited::record_in))]
pub fn record_in(words: Words) -> Option<Answer>
    ensures { result ≡ record_in words.entry.line.now words.entry.word }
{
    let at: u64 = words.next().one()?;
    in_bytes(words.bytes(), at as usize)
}

// A line has room for no more than 2,045 bytes in hex.
#[tactic(auto, unfolding(crate::specs::Recited::bytes_answer))]
fn in_bytes(word: &[u8], at: usize) -> Option<Answer>
    ensures { result ≡ bytes_answer word.now at }
{
    let mut bytes = [0u8; 2048];
    let n = unhex(word, &mut bytes)?;
    Some(recited(first(&bytes, n), at))
}

// A record that does not come back as the bytes that it was read from is not the same.
#[tactic(auto, unfolding(crate::specs::Recited::record_answer, crate::specs::Recited::found_answer))]
fn recited(bytes: &[u8], at: usize) -> Answer
    ensures { result ≡ record_answer bytes.now at }
{
    match records::decode(bytes, at) {
        Ok(Some(record)) => of_body(bytes, at, record.body, record.next),
        Ok(None) => Answer::End,
        Err(Broken { at: place }) => Answer::Broken { at: place },
    }
}

#[tactic(auto, unfolding(crate::specs::Recited::body_answer))]
fn of_body(bytes: &[u8], at: usize, body: Body, next: usize) -> Answer
    ensures { result ≡ body_answer bytes.now at body next }
{
    match body {
        Body::Timed { time, action } => Answer::Recorded {
            what: of_action(action, time),
            next,
            same: timed_again(bytes, at, next, time, action),
        },
        Body::Order(order) => Answer::Recorded {
            what: of_order(order),
            next,
            same: order_again(bytes, at, next, order),
        },
    }
}

#[tactic(auto, unfolding(crate::specs::Recited::action_record))]
fn of_action(action: Action, time: u64) -> Record
    ensures { result ≡ action_record action time }
{
    match action {
        Action::Key { id, down } => Record::Key { time, id, down },
        Action::Enc { enc, clicks } => of_clicks(time, enc, clicks),
        Action::Adc { ch, value } => Record::Adc { time, ch, value },
        Action::Midi { b } => Record::Midi { time, b },
        Action::KeyVel { vel } => Record::KeyVel { time, vel },
        Action::Pressure { id, vel } => Record::Pressure { time, id, vel },
    }
}

// Clicks are the bits of an i32; below 0 they are told with a minus.
#[tactic(auto, unfolding(crate::specs::Recited::clicks_record))]
fn of_clicks(time: u64, enc: u8, clicks: u32) -> Record
    ensures { result ≡ clicks_record time enc clicks }
{
    if base::i32_is_negative(clicks) {
        return Record::EncBack {
            time,
            enc,
            clicks: clicks.wrapping_neg(),
        };
    }
    Record::Enc { time, enc, clicks }
}

#[tactic(auto, unfolding(crate::specs::Recited::order_record))]
fn of_order(order: Order) -> Record
    ensures { result ≡ order_record order }
{
    match order {
        Order::Read { addr } => Record::Read { addr },
        Order::Write { addr, value } => Record::Write { addr, value },
        Order::Step { cycles } => Record::Step { cycles },
    }
}

// What a line asks, and its answer. `line_ask` reads the words, `asks_times` and `asks_records` work out the result, `line_answer` shows it.
ghost use Rattle.std.specs.Prelude.{◌≡◌};
ghost use Rattle.asks.specs.Answered.{question_named, answer_to, answer_in, asked_of, id_answer};

use asks_records::record_in;
use asks_times::{ramp_in, reckoned};
use line_answer::Answer;
use line_ask::{Words, id_in};
use text::{find, is_passed_over};

// The questions that do not take plain numbers alone.
#[derive(Clone, Copy, Debug, PartialEq, Eq)]
enum Question {
    KeyId,
    EncId,
    Force,
    Record,
}

const QUESTIONS: [(&[u8], Question); 4] = [
    (b"keyid", Question::KeyId),
    (b"encid", Question::EncId),
    (b"force", Question::Force),
    (b"record", Question::Record),
];

impl Question {
    fn named(name: &[u8]) -> Option<Question>
        ensures { result ≡ question_named name.now }
    {
        find(&QUESTIONS, name)
    }
}

#[tactic(auto, unfolding(crate::specs::Answered::answer_to))]
pub fn answer(line: &[u8]) -> Answer
    ensures { result ≡ answer_to line.now }
{
    if is_passed_over(line) {
        return Answer::NoLine;
    }
    answer_in(Words::of(line)).unwrap_or(Answer::NoCall)
}

#[tactic(auto, unfolding(crate::specs::Answered::answer_in))]
fn answer_in(words: Words) -> Option<Answer>
    ensures { result ≡ answer_in words.entry.line.now words.entry.word }
{
    match Question::named(words.bytes()) {
        Some(q) => asked_of(q, words.next()),
        None => reckoned(words).map(Answer::Number),
    }
}

#[tactic(auto, unfolding(crate::specs::Answered::asked_of))]
fn asked_of(q: Question, words: Words) -> Option<Answer>
    ensures { result ≡ asked_of q words.entry.line.now words.entry.word }
{
    match q {
        Question::KeyId => id_in(words, true).map(id_answer),
        Question::EncId => id_in(words, false).map(id_answer),
        Question::Force => ramp_in(words).map(Answer::Number),
        Question::Record => record_in(words),
    }
}

#[tactic(auto, unfolding(crate::specs::Answered::id_answer))]
fn id_answer(id: Option<u8>) -> Answer
    ensures { result ≡ id_answer id }
{
    match id {
        Some(k) => Answer::Number(u64::from(k)),
        None => Answer::NoValue,
    }
}

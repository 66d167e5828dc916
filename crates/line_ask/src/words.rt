// A line's words, one after the other.
ghost use Rattle.std.specs.Prelude.{◌≡◌};
ghost use Rattle.text.specs.Spans.{word_at, bytes_in};
ghost use Rattle.line_ask.specs.WordsIn.{behind, is_none};

use text::{Span, bytes_of, word};

// A word of a line, empty where there is none, and with it what stands behind.
#[derive(Clone, Copy)]
pub struct Words<'a> {
    pub line: &'a [u8],
    pub word: Span,
}

impl<'a> Words<'a> {
    // From the first word on.
    pub fn of(line: &'a [u8]) -> Words<'a>
        ensures { result ≡ record { line = line.entry; word = word_at line.now 0 } }
    {
        let word = word(line, 0);
        Words { line, word }
    }

    // From the next word on.
    pub fn next(self) -> Words<'a>
        ensures { result ≡ record { line = self.entry.line; word = behind self.entry.line.now self.entry.word } }
    {
        let word = word(self.line, self.word.to);
        Words {
            line: self.line,
            word,
        }
    }

    pub fn bytes(self) -> &'a [u8]
        ensures { result.now ≡ bytes_in self.entry.line.now self.entry.word }
    {
        bytes_of(self.line, self.word)
    }

    // No word is left.
    pub fn is_empty(self) -> bool
        ensures { result ≡ is_none self.entry.word }
    {
        self.word.from == self.word.to
    }
}

// Standard input, a line at a time: bytes are read where none are left (`filled`), and go to the line up to its end (`taken`).
ghost use Rattle.std.specs.Prelude.{◌≡◌};
ghost use Rattle.calls.specs.Lines.{reader_new, begun_of, Filled, line_after, went_to, taken_of};

use line_ask::LINE;
use text::{STDIN, Span, bytes_of, first, line_end, put_text};

// Room for what is read or written at once.
pub const BUFFER: usize = 65536;

// Where the bytes that were read go on, how long the line is, and which end it has come to.
#[derive(Clone, Copy)]
pub struct Reader {
    pub at: usize,
    pub got: usize,
    pub len: usize,
    pub end: End,
}

#[derive(Clone, Copy, Debug, PartialEq, Eq)]
pub enum End {
    // none: the line goes on
    Open,
    // the line's
    Line,
    // the input's, and the line's
    Input,
}

impl Reader {
    pub fn new() -> Reader
        ensures { result ≡ reader_new }
    {
        Reader {
            at: 0,
            got: 0,
            len: 0,
            end: End::Open,
        }
    }

    // The next line begins.
    pub fn begun(mut self) -> Reader
        ensures { result ≡ begun_of self }
    {
        self.len = 0;
        self.end = End::Open;
        self
    }

    // Bytes to go on with: more are read where none are left. No more is the input's end, and the line's, which may have no end of its own.
    pub fn filled(mut self, input: &mut [u8; BUFFER]) -> Reader
        ensures { Filled input.old self input.new result }
    {
        if self.at < self.got {
            return self;
        }
        let got = io::read_full(STDIN, input);
        self.at = 0;
        self.got = got;
        self.end = if got == 0 { End::Input } else { End::Open };
        self
    }

    // The bytes up to the line's end, or all there are. A line that fills its room is too long, and stays so.
    #[tactic(auto, unfolding(crate::specs::Lines::taken_of))]
    pub fn taken(self, input: &[u8; BUFFER], line: &mut [u8; LINE]) -> Reader
        ensures value { result ≡ taken_of input.now line.old self }
        ensures bytes { line.new ≡ line_after input.now line.old self }
    {
        let bytes = first(input, self.got);
        let to = line_end(bytes, self.at);
        let part = Span { from: self.at, to };
        let len = put_text(line, self.len, bytes_of(bytes, part));
        if to < bytes.len() {
            return self.went(to + 1, len, End::Line);
        }
        self.went(to, len, self.end)
    }

    fn went(self, at: usize, len: usize, end: End) -> Reader
        ensures { result ≡ went_to self at len end }
    {
        Reader {
            at,
            got: self.got,
            len,
            end,
        }
    }
}

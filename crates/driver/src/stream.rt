// What was read of the input and not yet passed, in a buffer that is filled again and again: the one place where the driver reads.
ghost use Rattle.std.specs.Prelude.{◌≡◌, false, ◌+◌, ◌-◌, ◌≤◌, ◌<◌, ◌^◌, length, take, drop};
ghost use Rattle.driver.specs.Stream.{unread_of, Fed};

use text::STDIN;

// The bytes of the buffer from `at` up to `len`; the first of them has the offset `base` in the input. After `last` nothing is to be read.
#[derive(Clone, Copy)]
pub struct Stream {
    pub base: usize,
    pub at: usize,
    pub len: usize,
    pub last: bool,
}

// No record is longer.
const LONGEST: usize = 17;

impl Stream {
    pub fn start() -> Self
        ensures { (result.base ≡ 0) × (result.at ≡ 0) × (result.len ≡ 0) × (result.last ≡ false) }
    {
        Stream {
            base: 0,
            at: 0,
            len: 0,
            last: false,
        }
    }

    // Where fewer bytes are left than a record may have, they go to the front, and the rest of the buffer is filled.
    pub fn fed(self, input: &mut [u8]) -> Self
        requires { (self.at ≤ self.len) × (self.len ≤ length input.old) × (17 ≤ length input.old) }
        ensures { (result.base ≡ self.base) × Fed input.old self.at self.len self.last input.new result.at result.len result.last }
    {
        if self.last {
            return self;
        }
        let left = self.len - self.at;
        if LONGEST <= left {
            return self;
        }
        bring(input, self.at, left);
        let got = filled(input, left);
        Stream {
            base: self.base,
            at: 0,
            len: left + got,
            last: got < input.len() - left,
        }
    }

    pub fn unread(self, input: &[u8]) -> &[u8]
        requires { (self.at ≤ self.len) × (self.len ≤ length input.now) }
        ensures { (result.now ≡ unread_of input.now self.at self.len) × (length result.now ≡ self.len - self.at) }
    {
        &input[self.at..self.len]
    }

    // So many bytes further on.
    pub fn passed(self, n: usize) -> Self
        requires { (self.at + n < 2 ^ 64) × (self.base + n < 2 ^ 64) }
        ensures { (result.base ≡ self.base + n) × (result.at ≡ self.at + n) × (result.len ≡ self.len) × (result.last ≡ self.last) }
    {
        Stream {
            base: self.base + n,
            at: self.at + n,
            len: self.len,
            last: self.last,
        }
    }
}

// `n` bytes from a place on, to the front.
fn bring(input: &mut [u8], from: usize, n: usize)
    requires { from + n ≤ length input.old }
    ensures { take n input.new ≡ take n (drop from input.old) }
{
    input.copy_within(from..from + n, 0);
}

// Reads behind the first bytes, which stay; answers how many came.
fn filled(input: &mut [u8], from: usize) -> usize
    requires { from ≤ length input.old }
    ensures { (from + result ≤ length input.old) × (take from input.new ≡ take from input.old) }
{
    io::read_full(STDIN, &mut input[from..])
}

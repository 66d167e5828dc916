// Lines of text: words and numbers read out of them, and what is put behind the bytes that wait in a buffer.
//
// A writer puts each text at the place that the last one answered; a byte for which there is no room is left out. A
// reader takes `word(line, 0)`, then goes on at that word's `to`, until a word is empty.
#![tactic(auto)]

mod tables;

ghost use Rattle.std.specs.Prelude.{◌≡◌, true, ◌++◌, ◌≤◌, length, drop};
ghost use Rattle.text.specs.Putting.{place_after, put_byte, place_after_all, put_all, decimal_of, hex_of, first_of};
ghost use Rattle.text.specs.Spans.{run_end, line_end, word_at, bytes_in, is_text, is_passed_over};
ghost use Rattle.text.specs.Numerals.{digit_in, all_digits, decimal_in, hex_in};
ghost use Rattle.text.specs.HexBytes.{is_dash, is_pairs, pairs, unhexed_answer, unhexed_bytes};

pub use tables::find;

// The descriptors that a program reads and writes.
pub const STDIN: i32 = 0;

pub const STDOUT: i32 = 1;

// A word's place in its line.
#[derive(Clone, Copy, Debug, PartialEq, Eq)]
pub struct Span {
    pub from: usize,
    pub to: usize,
}

// ---- writing

// One byte behind the others, where there is room.
pub fn put(out: &mut [u8], at: usize, b: u8) -> usize
    ensures place { result ≡ place_after (length out.old) at }
    ensures bytes { out.new ≡ put_byte out.old at b }
{
    if at < out.len() {
        out[at] = b;
        return at + 1;
    }
    at
}

pub fn put_text(out: &mut [u8], at: usize, text: &[u8]) -> usize
    ensures place { result ≡ place_after_all (length out.old) at text.now }
    ensures bytes { out.new ≡ put_all out.old at text.now }
{
    let mut to = at;
    for b in text {
        to = put(out, to, *b);
    }
    to
}

// A number in decimal.
pub fn put_decimal(out: &mut [u8], at: usize, n: u64) -> usize
    ensures place { result ≡ place_after_all (length out.old) at (decimal_of n) }
    ensures bytes { out.new ≡ put_all out.old at (decimal_of n) }
{
    let mut digits = [0u8; 20];
    let k = io::decimal(n, &mut digits);
    put_text(out, at, &digits[..k])
}

// A number in hexadecimal, in lower case, with zeros in front up to `width` digits.
pub fn put_hex(out: &mut [u8], at: usize, n: u64, width: usize) -> usize
    ensures place { result ≡ place_after_all (length out.old) at (hex_of n width) }
    ensures bytes { out.new ≡ put_all out.old at (hex_of n width) }
{
    let mut digits = [0u8; 16];
    let k = io::hex(n, width, &mut digits);
    put_text(out, at, &digits[..k])
}

// ---- reading

// The first n bytes; none where there are not so many.
pub fn first(s: &[u8], n: usize) -> &[u8]
    ensures { result.now ≡ first_of s.now n }
{
    s.get(..n).unwrap_or(&[])
}

// The first place from `at` on where a run of marks, or of other bytes, ends.
fn run_end(line: &[u8], at: usize, mark: u8, marks: bool) -> usize
    ensures { result ≡ run_end mark marks line.now at }
{
    for i in at..line.len() {
        if (line[i] == mark) != marks {
            return i;
        }
    }
    at.max(line.len())
}

// The place of the next line feed from `at` on, or the end: where a line that begins at `at` ends.
pub fn line_end(bytes: &[u8], at: usize) -> usize
    ensures { result ≡ line_end bytes.now at }
{
    run_end(bytes, at, b'\n', false)
}

// The next word from `at` on; empty where there is none.
pub fn word(line: &[u8], at: usize) -> Span
    ensures { result ≡ word_at line.now at }
{
    let from = run_end(line, at, b' ', true);
    let to = run_end(line, from, b' ', false);
    Span { from, to }
}

// Empty, all spaces, or a remark.
pub fn is_passed_over(line: &[u8]) -> bool
    ensures { result ≡ is_passed_over line.now }
{
    if line.is_empty() {
        return true;
    }
    if line[0] == b'#' {
        return true;
    }
    line.len() <= run_end(line, 0, b' ', true)
}

// The span is inside the line and its bytes are the text.
pub fn is(line: &[u8], w: Span, text: &[u8]) -> bool
    ensures { result ≡ is_text line.now w text.now }
{
    match line.get(w.from..w.to) {
        Some(bytes) => check::same(bytes, text),
        None => false,
    }
}

// The word's bytes; none where it is not inside the line.
#[tactic(auto, unfolding(crate::specs::Spans::bytes_in))]
pub fn bytes_of(line: &[u8], w: Span) -> &[u8]
    ensures { result.now ≡ bytes_in line.now w }
{
    line.get(w.from..w.to).unwrap_or(&[])
}

// ---- the bytes of a word

// The value of a digit of the base.
#[tactic(auto, unfolding(crate::specs::Numerals::digit_of))]
fn digit(b: u8, base: u8) -> Option<u8>
    requires { base ≤ 16 }
    ensures { result ≡ digit_in base b }
{
    let d = match b {
        b'0'..=b'9' => b - b'0',
        b'A'..=b'F' => b - b'A' + 10,
        b'a'..=b'f' => b - b'a' + 10,
        _ => return None,
    };
    (d < base).then_some(d)
}

// One or more decimal digits that fit 64 bits.
pub fn decimal(s: &[u8]) -> Option<u64>
    ensures { result ≡ decimal_in s.now }
{
    if s.is_empty() {
        return None;
    }
    let mut n: u64 = 0;
    for b in s {
        let d = digit(*b, 10)?;
        n = n.checked_mul(10)?.checked_add(u64::from(d))?;
    }
    Some(n)
}

// One to `most` hex digits, and no more than 16, which fit 64 bits.
pub fn hex(s: &[u8], most: usize) -> Option<u64>
    ensures { result ≡ hex_in most s.now }
{
    if s.is_empty() {
        return None;
    }
    if most < s.len() {
        return None;
    }
    if 16 < s.len() {
        return None;
    }
    let mut n: u64 = 0;
    for b in s {
        let d = digit(*b, 16)?;
        n = n * 16 + u64::from(d);
    }
    Some(n)
}

// Pairs of hex digits as bytes at the front of `out`, so many, `-` for none. Where the word is no such thing, or they do not fit,
// `out` stays as it was.
pub fn unhex(s: &[u8], out: &mut [u8]) -> Option<usize>
    ensures answer { result ≡ unhexed_answer s.now out.old }
    ensures bytes { out.new ≡ unhexed_bytes s.now out.old }
{
    if is_dash(s) {
        return Some(0);
    }
    if !is_pairs(s) {
        return None;
    }
    let n = s.len() / 2;
    if out.len() < n {
        return None;
    }
    write_pairs(s, out);
    Some(n)
}

fn is_dash(s: &[u8]) -> bool
    ensures { result ≡ is_dash s.now }
{
    matches!(s, [b'-'])
}

fn is_pairs(s: &[u8]) -> bool
    ensures { result ≡ is_pairs s.now }
{
    !s.is_empty() && s.len() % 2 == 0 && all_hex(s)
}

fn all_hex(s: &[u8]) -> bool
    ensures { result ≡ all_digits 16 s.now }
{
    for b in s {
        if digit(*b, 16).is_none() {
            return false;
        }
    }
    true
}

// The digits were looked at before, so that nothing is written of a word that is no bytes.
fn write_pairs(s: &[u8], out: &mut [u8])
    requires s_value { all_digits 16 s.now ≡ true }
    requires s_in_bounds { length (pairs s.now) ≤ length out.old }
    ensures { out.new ≡ pairs s.now ++ drop (length (pairs s.now)) out.old }
{
    for i in 0..s.len() / 2 {
        let high = digit(s[2 * i], 16).unwrap_or(0);
        let low = digit(s[2 * i + 1], 16).unwrap_or(0);
        out[i] = high * 16 + low;
    }
}

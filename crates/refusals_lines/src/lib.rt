// What `refusals_whole` and `refusals_limits` share: a line's names and numbers, and the line written again with its answer.
#![tactic(auto)]

ghost use Rattle.std.specs.Prelude.{◌≡◌, ◌++◌, length};
ghost use Rattle.text.specs.Putting.{place_after_all, put_all, decimal_of};
ghost use Rattle.refusals_lines.specs.Lines.{number_in, numbers_in, answer_text, line_text};

use text::{Span, bytes_of, decimal, is, put_decimal, put_text, word};

// What came back: no number, one, or three.
#[derive(Clone, Copy, Debug, PartialEq, Eq)]
pub enum Answer {
    Nothing,
    One(u32),
    Three(u32, u32, u32),
}

// The five words from `at` on as numbers.
pub fn numbers_of(line: &[u8], at: usize) -> [u64; 5]
    ensures { result ≡ numbers_in line.now at }
{
    let one = word(line, at);
    let two = word(line, one.to);
    let three = word(line, two.to);
    let four = word(line, three.to);
    let five = word(line, four.to);
    [
        number(line, one),
        number(line, two),
        number(line, three),
        number(line, four),
        number(line, five),
    ]
}

fn number(line: &[u8], w: Span) -> u64
    ensures { result ≡ number_in line.now w }
{
    decimal(bytes_of(line, w)).unwrap_or(0)
}

// ---- writing

// The line, what came back, and its end.
pub fn put_line(out: &mut [u8], line: &[u8], a: Answer) -> usize
    ensures place { result ≡ place_after_all (length out.old) 0 (line_text line.now a) }
    ensures bytes { out.new ≡ put_all out.old 0 (line_text line.now a) }
{
    let repeated = put_text(out, 0, line);
    let said = put_answer(out, repeated, a);
    put_text(out, said, b"\n")
}

#[tactic(auto, unfolding(crate::specs::Lines::answer_text, text::specs::Putting::place_after_all, text::specs::Putting::put_all))]
fn put_answer(out: &mut [u8], at: usize, a: Answer) -> usize
    ensures place { result ≡ place_after_all (length out.old) at (answer_text a) }
    ensures bytes { out.new ≡ put_all out.old at (answer_text a) }
{
    match a {
        Answer::Nothing => at,
        Answer::One(n) => put_number(out, at, b" = ", n),
        Answer::Three(n, m, l) => {
            let one = put_number(out, at, b" = ", n);
            let two = put_number(out, one, b" ", m);
            put_number(out, two, b" ", l)
        }
    }
}

fn put_number(out: &mut [u8], at: usize, mark: &[u8], n: u32) -> usize
    ensures place { result ≡ place_after_all (length out.old) at (mark.now ++ decimal_of n) }
    ensures bytes { out.new ≡ put_all out.old at (mark.now ++ decimal_of n) }
{
    let marked = put_text(out, at, mark);
    put_decimal(out, marked, n as u64)
}

// A form is a text in which marks stand for numbers, in turn: `%` for one in decimal; `$`, `&` and `@` for one in hexadecimal, of 8, 2 and 16 digits.
ghost use Rattle.std.specs.Prelude.{◌≡◌, get_or, length};
ghost use Rattle.text.specs.Putting.{place_after_all, put_all};
ghost use Rattle.line_answer.specs.Forms.{form_text, mark_of, mark_text, numbers_behind};

use text::{put, put_decimal, put_hex};

#[derive(Clone, Copy, Debug, PartialEq, Eq)]
pub enum Mark {
    Decimal,
    // so many digits
    Hex(usize),
    // what stands for itself
    Text(u8),
}

pub fn put_form(out: &mut [u8], to: usize, form: &[u8], numbers: &[u64]) -> usize
    ensures place { result ≡ place_after_all (length out.old) to (form_text form.now numbers.now) }
    ensures bytes { out.new ≡ put_all out.old to (form_text form.now numbers.now) }
{
    let mut at = to;
    let mut left = numbers;
    for b in form {
        let mark = mark_of(*b);
        at = put_mark(out, at, mark, first_of(left));
        left = behind(left, mark);
    }
    at
}

#[tactic(auto, unfolding(crate::specs::Forms::mark_of))]
fn mark_of(b: u8) -> Mark
    ensures { result ≡ mark_of b }
{
    match b {
        b'%' => Mark::Decimal,
        b'$' => Mark::Hex(8),
        b'&' => Mark::Hex(2),
        b'@' => Mark::Hex(16),
        _ => Mark::Text(b),
    }
}

#[tactic(auto, unfolding(crate::specs::Forms::mark_text, text::specs::Putting::place_after_all, text::specs::Putting::put_all))]
fn put_mark(out: &mut [u8], to: usize, mark: Mark, n: u64) -> usize
    ensures place { result ≡ place_after_all (length out.old) to (mark_text mark n) }
    ensures bytes { out.new ≡ put_all out.old to (mark_text mark n) }
{
    match mark {
        Mark::Decimal => put_decimal(out, to, n),
        Mark::Hex(digits) => put_hex(out, to, n, digits),
        Mark::Text(b) => put(out, to, b),
    }
}

// The number that comes next.
fn first_of(numbers: &[u64]) -> u64
    ensures { result ≡ get_or numbers.now 0 0 }
{
    match numbers.first() {
        Some(n) => *n,
        None => 0,
    }
}

// The numbers behind a mark.
#[tactic(auto, unfolding(crate::specs::Forms::numbers_behind))]
fn behind(numbers: &[u64], mark: Mark) -> &[u64]
    ensures { result.now ≡ numbers_behind numbers.now mark }
{
    match mark {
        Mark::Text(_) => numbers,
        _ => match numbers.split_first() {
            Some((_, rest)) => rest,
            None => numbers,
        },
    }
}

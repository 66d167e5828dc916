// Words as numbers of a type.
ghost use Rattle.std.specs.Prelude.{◌≡◌, ℕ, List, Option};
ghost use Rattle.text.specs.Numerals.{decimal_in};
ghost use Rattle.line_ask.specs.Numbers.{u32_of, u16_of, u8_of, flag_of, hex_of, signed_of, positive_of, negative_of, one_in, two_in, three_in};

use crate::words::Words;
use text::{decimal, hex};

// A number that a word stands for.
pub trait Number: Copy {
    ghost number_of: { List ℕ → Option Self };

    fn number_of(word: &[u8]) -> Option<Self>
        ensures { result ≡ number_of word.now };
}

impl Number for u64 {
    ghost number_of = { decimal_in };

    fn number_of(word: &[u8]) -> Option<u64> {
        decimal(word)
    }
}

impl Number for u32 {
    ghost number_of = { u32_of };

    fn number_of(word: &[u8]) -> Option<u32> {
        u32::try_from(decimal(word)?).ok()
    }
}

impl Number for u16 {
    ghost number_of = { u16_of };

    fn number_of(word: &[u8]) -> Option<u16> {
        u16::try_from(decimal(word)?).ok()
    }
}

impl Number for u8 {
    ghost number_of = { u8_of };

    fn number_of(word: &[u8]) -> Option<u8> {
        u8::try_from(decimal(word)?).ok()
    }
}

// A flag, 0 or 1.
impl Number for bool {
    ghost number_of = { flag_of };

    fn number_of(word: &[u8]) -> Option<bool> {
        match decimal(word)? {
            0 => Some(false),
            1 => Some(true),
            _ => None,
        }
    }
}

// A number of 32 bits in hexadecimal.
#[derive(Clone, Copy, Debug, PartialEq, Eq)]
pub struct Hex(pub u32);

impl Number for Hex {
    ghost number_of = { hex_of };

    fn number_of(word: &[u8]) -> Option<Hex> {
        let n = u32::try_from(hex(word, 8)?).ok()?;
        Some(Hex(n))
    }
}

// A number of 32 bits with a sign, as its bits.
#[derive(Clone, Copy, Debug, PartialEq, Eq)]
pub struct Signed(pub u32);

impl Number for Signed {
    ghost number_of = { signed_of };

    fn number_of(word: &[u8]) -> Option<Signed> {
        let [first, digits @ ..] = word else {
            return None;
        };
        if *first == b'-' {
            return negative(decimal(digits)?);
        }
        positive(decimal(word)?)
    }
}

#[tactic(auto, unfolding(crate::specs::Numbers::positive_of))]
fn positive(n: u64) -> Option<Signed>
    ensures { result ≡ positive_of n }
{
    if 0x7fff_ffff < n {
        return None;
    }
    Some(Signed(n as u32))
}

// So much below 0.
#[tactic(auto, unfolding(crate::specs::Numbers::negative_of))]
fn negative(n: u64) -> Option<Signed>
    ensures { result ≡ negative_of n }
{
    if 0x8000_0000 < n {
        return None;
    }
    Some(Signed(((0x1_0000_0000 - n) % 0x1_0000_0000) as u32))
}

// The words that are left as numbers, and no word more.
impl<'a> Words<'a> {
    pub fn one<A: Number>(self) -> Option<A>
        ensures { result ≡ one_in A.number_of self.entry.line.now self.entry.word }
    {
        if !self.next().is_empty() {
            return None;
        }
        A::number_of(self.bytes())
    }

    pub fn two<A: Number, B: Number>(self) -> Option<(A, B)>
        ensures { result ≡ two_in A.number_of B.number_of self.entry.line.now self.entry.word }
    {
        let a = A::number_of(self.bytes())?;
        let b = self.next().one()?;
        Some((a, b))
    }

    pub fn three<A: Number, B: Number, C: Number>(self) -> Option<(A, B, C)>
        ensures { result ≡ three_in A.number_of B.number_of C.number_of self.entry.line.now self.entry.word }
    {
        let a = A::number_of(self.bytes())?;
        let (b, c) = self.next().two()?;
        Some((a, b, c))
    }
}

// Names of keys and encoders, as scripts write them, to their ids: `key_id(b"Bb4")` is `Some(31)`, `enc_id(b"select")` is `Some(0)`.
// Names are bytes in any case; what is no name is `None`, and nothing is refused.
#![tactic(auto)]

ghost use Rattle.std.specs.Prelude.{◌≡◌, ℕ, ◌∷◌, ◌+◌, ◌<◌, ◌≤◌, option_and_then};
ghost use Rattle.names.specs.Ascii.{uppers};
ghost use Rattle.names.specs.Words.{starts_with, is_word, look_up, find_row};
ghost use Rattle.names.specs.Numbers.{digits, number_of, among, numbered};
ghost use Rattle.names.specs.Midi.{semitone_of, in_octave, after_letter, note_number, key_of_number};
ghost use Rattle.names.specs.Names.{buttons, key_id_of, encoders, enc_id_of};

// The matrix has 41 keys: 14 buttons, then the 27 notes F3 to G5. It has 7 encoders.
const KEYS: u8 = 41;

const NOTES: u8 = 27;

const FIRST_NOTE_ID: u8 = 14;

const ENCODERS: u8 = 7;

// The MIDI key numbers of the first and the last note.
const F3: u32 = 53;

const G5: u32 = 79;

// The buttons and the encoders, each name in upper case with its id.
const BUTTON_NAMES: [(&[u8], u8); 14] = [
    (b"OCTDN", 0),
    (b"OCTUP", 1),
    (b"FX", 2),
    (b"SCL", 3),
    (b"ENV", 4),
    (b"LFO", 5),
    (b"EDIT", 6),
    (b"GLO", 7),
    (b"HOME", 8),
    (b"SAVE", 9),
    (b"ARP", 10),
    (b"SEQ", 11),
    (b"PLAY", 12),
    (b"REC", 13),
];

const ENCODER_NAMES: [(&[u8], u8); 9] = [
    (b"SELECT", 0),
    (b"ALGO", 1),
    (b"ALGORITHM", 1),
    (b"PRESET", 6),
    (b"PRESETS", 6),
    (b"K1", 2),
    (b"K2", 3),
    (b"K3", 4),
    (b"K4", 5),
];

// The name begins with the word, which is in upper case.
#[tactic(auto, using(crate::proofs::OnWords::too_short, crate::proofs::OnWords::all_passed, crate::proofs::OnWords::word_ends, crate::proofs::OnWords::word_goes_on, crate::proofs::OnBytes::uppers_length))]
fn starts_with(name: &[u8], word: &[u8]) -> bool
    ensures { result ≡ starts_with (uppers name.now) word.now }
{
    if name.len() < word.len() {
        return false;
    }
    for (b, w) in name.iter().zip(word) {
        if b.to_ascii_uppercase() != *w {
            return false;
        }
    }
    true
}

#[tactic(auto, using(crate::proofs::OnBytes::uppers_length))]
fn is(name: &[u8], word: &[u8]) -> bool
    ensures { result ≡ is_word (uppers name.now) word.now }
{
    name.len() == word.len() && starts_with(name, word)
}

// Where the value reaches `count` the answer is none, whatever follows: so it never grows past u32.
#[tactic(auto, using(crate::proofs::OnNumbers::no_digits, crate::proofs::OnNumbers::digits_begin, crate::proofs::OnNumbers::digits_end, crate::proofs::OnNumbers::digits_break, crate::proofs::OnNumbers::digits_go_on, crate::proofs::OnNumbers::out_of_range))]
fn digits(name: &[u8], count: u8, first: u8) -> Option<u8>
    requires { (0 < count) × (first + count ≤ 256) }
    ensures { result ≡ option_and_then (among count first) (digits (uppers name.now)) }
{
    if name.is_empty() {
        return None;
    }
    let mut value: u32 = 0;
    for b in name {
        if !b.is_ascii_digit() {
            return None;
        }
        value = value * 10 + (*b - b'0') as u32;
        if count as u32 <= value {
            return None;
        }
    }
    Some(first + value as u8)
}

#[tactic(auto, using(crate::proofs::OnNumbers::no_number, crate::proofs::OnNumbers::number_of_plus, crate::proofs::OnNumbers::number_of_digits))]
fn number(name: &[u8], count: u8, first: u8) -> Option<u8>
    requires { (0 < count) × (first + count ≤ 256) }
    ensures { result ≡ option_and_then (among count first) (number_of (uppers name.now)) }
{
    let (sign, rest) = name.split_first()?;
    if *sign == b'+' {
        digits(rest, count, first)
    } else {
        digits(name, count, first)
    }
}

#[tactic(auto, using(crate::proofs::OnWords::as_long, crate::proofs::OnBytes::uppers_length, crate::proofs::OnBytes::uppers_drop), unfolding(crate::specs::Numbers::numbered))]
fn numbered(name: &[u8], prefix: &[u8], count: u8, first: u8) -> Option<u8>
    requires { (0 < count) × (first + count ≤ 256) }
    ensures { result ≡ numbered prefix.now count first (uppers name.now) }
{
    if !starts_with(name, prefix) {
        return None;
    }
    number(&name[prefix.len()..], count, first)
}

// The id beside the first word that is the name.
fn find(table: &[(&[u8], u8)], name: &[u8]) -> Option<u8>
    ensures { result ≡ find_row table.now (uppers name.now) }
{
    for (word, id) in table {
        if is(name, word) {
            return Some(*id);
        }
    }
    None
}

#[tactic(auto, unfolding(crate::specs::Words::look_up, crate::specs::Words::find_row))]
fn button(name: &[u8]) -> Option<u8>
    ensures { result ≡ look_up buttons (uppers name.now) }
{
    find(&BUTTON_NAMES, name)
}

#[tactic(auto, unfolding(crate::specs::Midi::semitone_of))]
fn semitone(letter: u8) -> Option<u8>
    ensures { result ≡ semitone_of letter }
{
    match letter {
        b'C' => Some(0),
        b'D' => Some(2),
        b'E' => Some(4),
        b'F' => Some(5),
        b'G' => Some(7),
        b'A' => Some(9),
        b'B' => Some(11),
        _ => None,
    }
}

#[tactic(auto, unfolding(crate::specs::Midi::key_of_number))]
fn key_of_number(number: u32) -> Option<u8>
    ensures { result ≡ key_of_number number }
{
    if number < F3 || G5 < number {
        return None;
    }
    Some((number - F3) as u8 + FIRST_NOTE_ID)
}

// From octave 10 on every key number is past G5's.
#[tactic(auto, using(crate::proofs::OnNotes::octave_past))]
fn in_octave(name: &[u8], semitone: u8, sharp: u8, flat: u8) -> Option<u8>
    requires { flat ≤ 1 }
    ensures { result ≡ option_and_then key_of_number (in_octave semitone sharp flat (uppers name.now)) }
{
    let octave = number(name, 10, 0)?;
    key_of_number(12 * (octave as u32 + 1) + semitone as u32 + sharp as u32 - flat as u32)
}

// A flat stands in a name of three bytes alone.
#[tactic(auto, using(crate::proofs::OnNotes::nothing_read, crate::proofs::OnNotes::sharp_read, crate::proofs::OnNotes::flat_read, crate::proofs::OnNotes::natural_read))]
fn after_letter(rest: &[u8], semitone: u8) -> Option<u8>
    ensures { (letter : ℕ) → result ≡ option_and_then key_of_number (after_letter (letter ∷ uppers rest.now) semitone) }
{
    let (sign, octave) = rest.split_first()?;
    let sign = sign.to_ascii_uppercase();
    if sign == b'#' {
        return in_octave(octave, semitone, 1, 0);
    }
    if sign == b'B' && octave.len() == 1 {
        return in_octave(octave, semitone, 0, 1);
    }
    in_octave(rest, semitone, 0, 0)
}

#[tactic(auto, using(crate::proofs::OnNotes::no_note, crate::proofs::OnNotes::no_letter, crate::proofs::OnNotes::letter_of_note))]
fn note_name(name: &[u8]) -> Option<u8>
    ensures { result ≡ option_and_then key_of_number (note_number (uppers name.now)) }
{
    let (letter, rest) = name.split_first()?;
    let semitone = semitone(letter.to_ascii_uppercase())?;
    after_letter(rest, semitone)
}

#[tactic(auto, unfolding(crate::specs::Names::key_id_of, crate::specs::Names::key_of))]
pub fn key_id(name: &[u8]) -> Option<u8>
    ensures { result ≡ key_id_of name.now }
{
    // The source answers at a K whatever follows it; no note and no N begins so, and going on finds none.
    button(name)
        .or_else(|| numbered(name, b"K", KEYS, 0))
        .or_else(|| note_name(name))
        .or_else(|| numbered(name, b"N", NOTES, FIRST_NOTE_ID))
}

#[tactic(auto, unfolding(crate::specs::Words::look_up, crate::specs::Words::find_row))]
fn encoder(name: &[u8]) -> Option<u8>
    ensures { result ≡ look_up encoders (uppers name.now) }
{
    find(&ENCODER_NAMES, name)
}

#[tactic(auto, unfolding(crate::specs::Names::enc_id_of, crate::specs::Names::enc_of))]
pub fn enc_id(name: &[u8]) -> Option<u8>
    ensures { result ≡ enc_id_of name.now }
{
    encoder(name).or_else(|| numbered(name, b"ENC", ENCODERS, 0))
}

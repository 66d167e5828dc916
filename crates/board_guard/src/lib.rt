// What every public call begins with, and how one ends that hands the record back: is the record whole, do the banks have their lengths, by document 01's numbers; turned away, with the record as
// it was, or accepted, with the chip that the call made.
#![tactic(auto)]

ghost use Rattle.std.specs.Prelude.{◌≡◌, not};
ghost use Rattle.state.specs.State.{board_whole};
ghost use Rattle.board_guard.specs.Answers.{answered, turned_of, done_of};
ghost use Rattle.board_guard.specs.Refusals.{size_of, whole_refused, banks_refused};

use base::{SIZE, STATE};
use state::{Board, Chip};

pub const BANK_WORDS: usize = 32;

#[repr(C)]
#[derive(Clone, Copy)]
pub struct Done {
    pub board: Board,
    pub refused: u32,
}

pub fn broken(b: Board) -> bool
    ensures { result ≡ not (board_whole b) }
{
    if b.whole() {
        return false;
    }
    true
}

pub fn turned_away(b: Board, n: u32) -> Done
    ensures { result ≡ turned_of b n }
{
    let same = b;
    Done {
        board: same,
        refused: n,
    }
}

pub fn accepted(mut b: Board, c: Chip) -> Done
    ensures { result ≡ done_of b c }
{
    b.chip = c;
    Done {
        board: b,
        refused: 0,
    }
}

// Both banks' lengths: SIZE where one is not a bank's.
#[tactic(auto, unfolding(crate::specs::Refusals::size_of))]
pub fn size(first: usize, second: usize) -> u32
    ensures { result ≡ size_of first second }
{
    if first != BANK_WORDS {
        return SIZE;
    }
    if second != BANK_WORDS {
        return SIZE;
    }
    0
}

// Both banks' lengths, then the record: SIZE, STATE or 0.
#[tactic(auto, unfolding(crate::specs::Refusals::banks_refused, crate::specs::Refusals::whole_refused))]
pub fn banks(b: Board, first: usize, second: usize) -> u32
    ensures { result ≡ banks_refused b first second }
{
    if size(first, second) != 0 {
        return SIZE;
    }
    if broken(b) {
        return STATE;
    }
    0
}

// The board with the chip that a call makes, where the call asks for a whole record and nothing else.
#[tactic(auto, unfolding(crate::specs::Refusals::whole_refused))]
pub fn settled(b: Board, c: Chip) -> Done
    ensures { result ≡ answered b (whole_refused b) c }
{
    if broken(b) {
        return turned_away(b, STATE);
    }
    accepted(b, c)
}

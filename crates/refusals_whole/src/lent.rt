// The step, the push and an action, lent as much memory as is asked for: a little more is there than any of them wants.
ghost use Rattle.std.specs.Prelude.{◌≡◌};
ghost use Rattle.refusals_whole.specs.Lent.{step_tried, stepped_of, push_tried, pushed_in, action_of, apply_tried, applied_in};

use records::Action;
use state::Board;

// Where more is asked for than is there.
const NO_ROOM: u32 = 99;

// Every entry of the script has the time that its front shall have.
pub fn step(b: Board, cycles: u64, bytes: u64, words: u64, room: u64, front: u64) -> u32
    ensures { result ≡ step_tried b cycles bytes words room front }
{
    let mut queue = [0u8; 3200];
    let script = [front; 520];
    let mut out = [0u8; 4400];
    stepped(
        b,
        cycles,
        &mut queue,
        bytes as usize,
        &script,
        words as usize,
        &mut out,
        room as usize,
    )
}

#[tactic(auto, unfolding(crate::specs::Lent::stepped_of))]
fn stepped(
    b: Board,
    cycles: u64,
    queue: &mut [u8],
    bytes: usize,
    script: &[u64],
    words: usize,
    out: &mut [u8],
    room: usize,
) -> u32
    ensures { result ≡ stepped_of b cycles queue.old bytes script.now words out.old room }
{
    if bytes <= queue.len() {
        if words <= script.len() {
            if room <= out.len() {
                return board_words::advance(
                    b,
                    cycles,
                    &mut queue[..bytes],
                    &script[..words],
                    &mut out[..room],
                )
                .refused;
            }
        }
    }
    NO_ROOM
}

pub fn push(b: Board, words: u64, front: u64) -> u32
    ensures { result ≡ push_tried b words front }
{
    let mut script = [front; 520];
    pushed(b, &mut script, words as usize)
}

#[tactic(auto, unfolding(crate::specs::Lent::pushed_in))]
fn pushed(b: Board, script: &mut [u64], words: usize) -> u32
    ensures { result ≡ pushed_in b script.old words }
{
    if words <= script.len() {
        return board_words::push(b, &mut script[..words], 0, Action::Midi { b: 0x90 }).refused;
    }
    NO_ROOM
}

pub fn apply(b: Board, kind: u64, bytes: u64) -> u32
    ensures { result ≡ apply_tried b kind bytes }
{
    let mut queue = [0u8; 3200];
    applied(b, action(kind), &mut queue, bytes as usize)
}

fn action(kind: u64) -> Action
    ensures { result ≡ action_of kind }
{
    if kind == 0 {
        return Action::Midi { b: 0x90 };
    }
    Action::KeyVel { vel: 1 }
}

#[tactic(auto, unfolding(crate::specs::Lent::applied_in))]
fn applied(b: Board, a: Action, queue: &mut [u8], bytes: usize) -> u32
    ensures { result ≡ applied_in b a queue.old bytes }
{
    if bytes <= queue.len() {
        return board::apply(b, a, &mut queue[..bytes]).refused;
    }
    NO_ROOM
}

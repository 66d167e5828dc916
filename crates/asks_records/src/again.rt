// A record written anew: whether it is the bytes from `at` to `next` again.
ghost use Rattle.std.specs.Prelude.{◌≡◌};
ghost use Rattle.records.specs.Layout.{bytes_of_timed, bytes_of_order};
ghost use Rattle.asks_records.specs.Again.{is_again, is_copied};

use records::{Action, Order};
use text::{Span, first, is};

#[tactic(auto, unfolding(crate::specs::Again::is_again))]
pub fn timed_again(bytes: &[u8], at: usize, next: usize, time: u64, action: Action) -> bool
    ensures { result ≡ is_again bytes.now at next (bytes_of_timed time action) }
{
    let mut copy = [0u8; 32];
    let wrote = records::encode_timed(&mut copy, 0, time, action);
    is_copied(bytes, at, next, wrote, &copy)
}

#[tactic(auto, unfolding(crate::specs::Again::is_again))]
pub fn order_again(bytes: &[u8], at: usize, next: usize, order: Order) -> bool
    ensures { result ≡ is_again bytes.now at next (bytes_of_order order) }
{
    let mut copy = [0u8; 32];
    let wrote = records::encode_order(&mut copy, 0, order);
    is_copied(bytes, at, next, wrote, &copy)
}

#[tactic(auto, unfolding(crate::specs::Again::is_copied))]
fn is_copied(bytes: &[u8], at: usize, next: usize, wrote: Option<usize>, copy: &[u8; 32]) -> bool
    ensures { result ≡ is_copied bytes.now at next wrote copy.now }
{
    let Some(n) = wrote else {
        return false;
    };
    is(bytes, Span { from: at, to: next }, first(copy, n))
}

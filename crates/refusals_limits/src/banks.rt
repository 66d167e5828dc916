// The calls that are lent both banks, as many words of each as is asked for: a few more are there than a bank has.
ghost use Rattle.std.specs.Prelude.{◌≡◌};
ghost use Rattle.refusals_limits.specs.Lent.{made_tried, made_with, banked_tried, cut_of, banks_of};

use state::Board;

// Where more is asked for than is there.
const NO_ROOM: u32 = 99;

pub fn made(hz: u64, bytes: u64, entries: u64, first: u64, second: u64) -> u32
    ensures { result ≡ made_tried hz bytes entries first second }
{
    let mut icfg = [0u32; 40];
    let mut icfg1 = [0u32; 40];
    made_with(
        hz,
        bytes as usize,
        entries as usize,
        &mut icfg,
        first as usize,
        &mut icfg1,
        second as usize,
    )
}

#[tactic(auto, unfolding(crate::specs::Lent::made_with))]
fn made_with(
    hz: u64,
    bytes: usize,
    entries: usize,
    icfg: &mut [u32],
    first: usize,
    icfg1: &mut [u32],
    second: usize,
) -> u32
    ensures { result ≡ made_with hz bytes entries icfg.old first icfg1.old second }
{
    if first <= icfg.len() {
        if second <= icfg1.len() {
            return board::made(
                hz,
                bytes,
                entries,
                &mut icfg[..first],
                &mut icfg1[..second],
            ).refused;
        }
    }
    NO_ROOM
}

#[derive(Clone, Copy, Debug, PartialEq, Eq)]
pub enum Lent {
    Read,
    IrqEnabled,
    PendingIrqFor,
    PendingIrq,
    Write,
    ChipReset,
}

pub fn banked(b: Board, call: Lent, a: u32, first: u64, second: u64) -> u32
    ensures { result ≡ banked_tried b call a first second }
{
    let mut icfg = [0u32; 40];
    let mut icfg1 = [0u32; 40];
    cut(
        b,
        call,
        a,
        &mut icfg,
        first as usize,
        &mut icfg1,
        second as usize,
    )
}

#[tactic(auto, unfolding(crate::specs::Lent::cut_of))]
fn cut(
    b: Board,
    call: Lent,
    a: u32,
    icfg: &mut [u32],
    first: usize,
    icfg1: &mut [u32],
    second: usize,
) -> u32
    ensures { result ≡ cut_of b call a icfg.old first icfg1.old second }
{
    if first <= icfg.len() {
        if second <= icfg1.len() {
            return with_banks(b, call, a, &mut icfg[..first], &mut icfg1[..second]);
        }
    }
    NO_ROOM
}

#[tactic(auto, unfolding(crate::specs::Lent::banks_of))]
fn with_banks(b: Board, call: Lent, a: u32, icfg: &mut [u32], icfg1: &mut [u32]) -> u32
    ensures { result ≡ banks_of b call a icfg.old icfg1.old }
{
    match call {
        Lent::Read => board::read(b, a, icfg, icfg1).refused,
        Lent::IrqEnabled => board::irq_enabled(b, a, 1, icfg, icfg1).refused,
        Lent::PendingIrqFor => board::pending_irq_for(b, a, icfg, icfg1).refused,
        Lent::PendingIrq => board::pending_irq(b, icfg, icfg1).refused,
        Lent::Write => board::write(b, a, 1, icfg, icfg1).refused,
        Lent::ChipReset => board::chip_reset(b, icfg, icfg1).refused,
    }
}

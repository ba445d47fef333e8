//! What a worker does with the cut that it shares with the others.
ghost use Rattle.std.specs.Prelude.{◌≡◌, ◌≢◌, ◌≤◌, ℕ, true, Some};
ghost use Rattle.plinq_ops.specs.Cut.{no_cut};
ghost use Rattle.plinq_ops.specs.declared.frag_end.FragEnd.TheVariants.{Dropped, More};
ghost use Rattle.plinq_ops.specs.declared.order.Order.TheVariants.{ByArrival, ByKey};
ghost use Rattle.plinq_cut.specs.Cutting.{is_cut_of};
ghost use Rattle.plinq_cut.specs.Passes.{IsPassOf, least};

use crate::cut_pass::CutPass;
use crate::cut_word::CutWord;
use crate::stop_keys::StopKeys;
use plinq_lambda::Lambda;
use plinq_ops::{ChunkResult, FragEnd, Order, Plan};

/// The cut under which a worker looks at its next chunk: none by arrival, where no key stands before another.
pub fn cut_now<L: Lambda, E: StopKeys>(
    plan: &Plan<'_, L>,
    cut: &CutWord<E>,
    pass: &mut CutPass,
) -> u64
    requires { IsPassOf cut.now pass.old }
    ensures pass { IsPassOf cut.now pass.new }
    ensures cut { is_cut_of E.stops_at result ≡ true }
    ensures seen { plan.now.order ≡ ByKey → result ≤ least pass.old }
    ensures least { plan.now.order ≡ ByKey → least pass.new ≡ result }
    ensures uncut { plan.now.order ≡ ByArrival → result ≡ no_cut }
{
    match plan.order {
        Order::ByKey => cut.read(pass),
        Order::ByArrival => u64::MAX,
    }
}

/// Lowers the cut to the key at which a result ends the run, by key; or what was made of one, which ends as it does.
pub fn cut_off<L: Lambda, M, E: StopKeys>(
    plan: &Plan<'_, L>,
    cut: &CutWord<E>,
    pass: &mut CutPass,
    made: &ChunkResult<M>,
)
    requires pass { IsPassOf cut.now pass.old }
    requires stop_key { (key : ℕ) → made.now.ending ≢ Dropped → made.now.stop ≡ Some key → E.stops_at key ≡ true }
    ensures pass { IsPassOf cut.now pass.new }
    ensures lowers { (key : ℕ) → plan.now.order ≡ ByKey → made.now.ending ≢ More → made.now.ending ≢ Dropped → made.now.stop ≡ Some key → least pass.new ≤ key }
    ensures seen { least pass.new ≤ least pass.old }
{
    if plan.order == Order::ByArrival {
        return;
    }
    match made.ending {
        FragEnd::End | FragEnd::Fault(_) => {
            if let Some(key) = made.stop {
                cut.lower(pass, key);
            }
        }
        _ => {}
    }
}

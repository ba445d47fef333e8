//! The calls of the lock, and those of the cut.
ghost use Rattle.std.specs.Prelude.{◌≡◌, ◌≢◌, ◌≤◌, ◌^◌, ℕ, [], true, Some};
ghost use Rattle.plinq_cut.specs.OfPlan.{AreStopKeys};
ghost use Rattle.plinq_cut.specs.Passes.{IsPassOf as IsCutPassOf};
ghost use Rattle.plinq_keyed.specs.History.{tickets_below};
ghost use Rattle.plinq_ops.specs.declared.frag_end.FragEnd.TheVariants.{Dropped};
ghost use Rattle.plinq_ticket.specs.Passes.{IsPassOf, IsHeldOf, held_found, held_origin, held_ticket, held_value};
ghost use Rattle.plinq_ticket.specs.Shares.{AddsAtMostOne};

use plinq_cut::{CutPass, CutWord, StopKeys, cut_now, cut_off};
use plinq_keyed::Guarded;
use plinq_lambda::Lambda;
use plinq_ops::{ChunkResult, Plan};
use plinq_source::{OutOfMemory, Source};
use plinq_ticket::{Held, LockFault, Pass, TicketLock};
use std::alloc::Global;
use std::sync::Wait;

fn made<V: Guarded>(alloc: Global, value: V) -> Result<(TicketLock<V>, Pass<V>), LockFault>
    requires { V.history value ≡ [] }
{
    TicketLock::new(alloc, value)
}

fn made_from<V: Guarded>(
    alloc: Global,
    value: V,
    t: u64,
) -> Result<(TicketLock<V>, Pass<V>), LockFault>
    requires within { t ≤ 2 ^ 62 }
    requires below { tickets_below t (V.history value) ≡ true }
{
    TicketLock::with_first_ticket(alloc, value, t)
}

fn entered<V: Guarded, R: Wait>(
    lock: &TicketLock<V>,
    rt: &R,
    pass: Pass<V>,
) -> Result<Held<V>, (Pass<V>, LockFault)>
    requires { IsPassOf lock.now pass }
{
    lock.enter(rt, pass)
}

fn tried<V: Guarded>(lock: &TicketLock<V>, pass: Pass<V>) -> Result<Held<V>, (Pass<V>, LockFault)>
    requires { IsPassOf lock.now pass }
{
    lock.try_enter(pass)
}

fn ticket<V: Guarded>(held: &Held<V>) -> u64 {
    held.ticket()
}

fn value<V: Guarded>(held: &Held<V>) -> &V {
    held.value()
}

fn value_mut<V: Guarded>(held: &mut Held<V>) -> &mut V {
    held.value_mut()
}

fn left<V: Guarded>(lock: &TicketLock<V>, held: Held<V>) -> Pass<V>
    requires lock { IsHeldOf lock.now held }
    requires origin { V.origin (held_value held) ≡ held_origin held }
    requires adds { AddsAtMostOne (held_ticket held) (held_found held) (V.history (held_value held)) }
{
    lock.leave(held)
}

fn split<V: Guarded>(lock: &TicketLock<V>, pass: Pass<V>) -> (Pass<V>, Pass<V>)
    requires { IsPassOf lock.now pass }
{
    lock.split(pass)
}

fn joined<V: Guarded>(lock: &TicketLock<V>, pass: Pass<V>, other: Pass<V>) -> Pass<V>
    requires { IsPassOf lock.now pass × IsPassOf lock.now other }
{
    lock.join(pass, other)
}

fn finished<V: Guarded>(lock: TicketLock<V>, pass: Pass<V>) -> Result<V, (Option<V>, LockFault)>
    requires { IsPassOf lock pass }
{
    lock.finish(pass)
}

fn cut<E: StopKeys, L: Lambda, S: Source<Item = L::Item>>(
    alloc: Global,
    plan: &Plan<'_, L>,
    source: &S,
) -> Result<(CutWord<E>, CutPass), OutOfMemory>
    requires { AreStopKeys L.meaning plan.now (S.whole source.now) E.stops_at }
{
    CutWord::new(alloc, plan, source)
}

fn lowered<E: StopKeys>(cut: &CutWord<E>, pass: &mut CutPass, key: u64)
    requires pass { IsCutPassOf cut.now pass.old }
    requires stop_key { E.stops_at key ≡ true }
{
    cut.lower(pass, key);
}

fn read<E: StopKeys>(cut: &CutWord<E>, pass: &mut CutPass) -> u64
    requires { IsCutPassOf cut.now pass.old }
{
    cut.read(pass)
}

fn parted<E: StopKeys>(cut: &CutWord<E>, pass: &mut CutPass) -> CutPass
    requires { IsCutPassOf cut.now pass.old }
{
    cut.split(pass)
}

fn rejoined<E: StopKeys>(cut: &CutWord<E>, first: CutPass, second: CutPass) -> CutPass
    requires { IsCutPassOf cut.now first × IsCutPassOf cut.now second }
{
    cut.join(first, second)
}

fn read_for<L: Lambda, E: StopKeys>(plan: &Plan<'_, L>, cut: &CutWord<E>, pass: &mut CutPass) -> u64
    requires { IsCutPassOf cut.now pass.old }
{
    cut_now(plan, cut, pass)
}

fn lowered_for<L: Lambda, M, E: StopKeys>(
    plan: &Plan<'_, L>,
    cut: &CutWord<E>,
    pass: &mut CutPass,
    made: &ChunkResult<M>,
)
    requires pass { IsCutPassOf cut.now pass.old }
    requires stop_key { (key : ℕ) → made.now.ending ≢ Dropped → made.now.stop ≡ Some key → E.stops_at key ≡ true }
{
    cut_off(plan, cut, pass, made);
}

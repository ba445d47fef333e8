ghost use Rattle.std.specs.Prelude.{◌≡◌, ◌≤◌, true, IfOk, min};
ghost use Rattle.plinq_ops.specs.Cut.{no_cut};
ghost use Rattle.plinq_cut.specs.Cutting.{is_cut_of};
ghost use Rattle.plinq_cut.specs.OfPlan.{AreStopKeys};
ghost use Rattle.plinq_cut.specs.Passes.{IsPassOf, least};

use crate::cut_pass::CutPass;
use crate::cut_word::{CutWord, WORD};
use crate::plays::{Cut, Glue, Lower, See};
use crate::stop_keys::StopKeys;
use atomic_table::Table;
use plinq_lambda::Lambda;
use plinq_ops::Plan;
use plinq_source::{OutOfMemory, Source};
use std::alloc::Global;

impl<E: StopKeys> CutWord<E> {
    /// A cut that cuts off nothing yet, and a pass. The plan and the source only say which keys end the run, for life.
    ///
    /// # Errors
    ///
    /// [`OutOfMemory`] if there is no room for the number.
    pub fn new<L: Lambda, S: Source<Item = L::Item>>(
        alloc: Global,
        _plan: &Plan<'_, L>,
        _source: &S,
    ) -> Result<(CutWord<E>, CutPass), OutOfMemory>
        requires stop_keys { AreStopKeys L.meaning _plan.now (S.whole _source.now) E.stops_at }
        ensures pass { IfOk result (λ made. IsPassOf made.0 made.1) }
        ensures nothing { IfOk result (λ made. least made.1 ≡ no_cut) }
    {
        let Ok((table, seat)) = Table::of_words(alloc, &[u64::MAX], &()) else {
            return Err(OutOfMemory);
        };
        Ok((CutWord { table }, CutPass { seat }))
    }

    /// The cut, as it is now: no key above it needs to be looked at.
    pub fn read(&self, pass: &mut CutPass) -> u64
        requires { IsPassOf self.now pass.old }
        ensures pass { IsPassOf self.now pass.new }
        ensures cut { is_cut_of E.stops_at result ≡ true }
        ensures seen { result ≤ least pass.old }
        ensures least { least pass.new ≡ result }
    {
        self.table.shared.load::<See<E>>(&mut pass.seat, WORD)
    }

    /// Lowers the cut to a key that ends the run, if it is above.
    pub fn lower(&self, pass: &mut CutPass, key: u64)
        requires pass { IsPassOf self.now pass.old }
        requires stop_key { E.stops_at key ≡ true }
        ensures pass { IsPassOf self.now pass.new }
        ensures cut { is_cut_of E.stops_at (least pass.new) ≡ true }
        ensures seen { least pass.new ≤ min key (least pass.old) }
    {
        self.table
            .shared
            .fetch_min::<Lower<E>>(&mut pass.seat, WORD, key);
    }

    /// A second pass beside this one, which has seen what this one has.
    pub fn split(&self, pass: &mut CutPass) -> CutPass
        requires { IsPassOf self.now pass.old }
        ensures passes { IsPassOf self.now pass.new × IsPassOf self.now result }
        ensures least { (least pass.new ≡ least pass.old) × (least result ≡ least pass.old) }
    {
        let seat = self.table.shared.split_seat::<Cut>(&mut pass.seat);
        CutPass { seat }
    }

    /// Two passes become one, which has seen what both have.
    pub fn join(&self, first: CutPass, second: CutPass) -> CutPass
        requires { IsPassOf self.now first × IsPassOf self.now second }
        ensures pass { IsPassOf self.now result }
        ensures least { least result ≡ min (least first) (least second) }
    {
        let CutPass { mut seat } = first;
        let CutPass { seat: second } = second;
        self.table.shared.join_seat::<Glue>(&mut seat, second);
        CutPass { seat }
    }
}

ghost use Rattle.std.specs.Prelude.{◌≡◌, ◌≤◌};
ghost use Rattle.plinq_ops.specs.Query.{empty_query, with_order, with_option, with_degree_of, AddsOp, merge_in_force, degree_in_force};

use crate::build_fault::BuildFault;
use crate::merge_option::MergeOption;
use crate::op::Op;
use std::alloc::Global;
use std::marker::Model;

/// A query: LINQ's operators in the order in which they were called, and its settings.
///
/// Each builder call takes the query and hands it back with the call in it; a refused call hands it back
/// unchanged beside the [`BuildFault`], so that nothing is lost.
///
/// ```text
/// let query = Query::new(alloc).as_ordered()?.filter(Formula::Even)?.take(10)?;
/// let (items, ending) = sequential(alloc, &query, &mut source)?;
/// ```
#[derive(Drop)]
pub struct Query<L> {
    ops: Vec<Op<L>>,
    ordered: bool,
    merge: Option<MergeOption>,
    degree: Option<u64>,
}

impl<L> Model for Query<L> {
    ghost use Rattle.std.specs.Prelude.{◌≤◌};
    ghost use Rattle.plinq_ops.specs.Query.{QueryView, degree_in_force};

    ghost Value = { QueryView L };

    ghost view = { λ q. record { ops = q.ops.items; ordered = q.ordered; merge = q.merge; degree = q.degree } };

    ghost invariant = { λ q. (1 ≤ degree_in_force q.degree) × (degree_in_force q.degree ≤ 64) };
}

/// What a builder call answers.
pub type Built<L> = Result<Query<L>, (Query<L>, BuildFault)>;

impl<L: Drop> Query<L> {
    /// A query with no operator and no setting: it gives what its source gives.
    pub fn new(alloc: Global) -> Query<L>
        ensures { result ≡ empty_query }
    {
        Query {
            ops: Vec::new(alloc),
            ordered: false,
            merge: None,
            degree: None,
        }
    }

    /// The query keeps the order of its source (.NET's `ParallelEnumerable.AsOrdered`). Takes no memory.
    ///
    /// # Errors
    ///
    /// [`BuildFault::NotAtSource`] if an operator or another `as_ordered` stands before; settings may.
    pub fn as_ordered(mut self) -> Built<L>
        ensures { result ≡ with_order self }
    {
        if self.ordered || !self.ops.is_empty() {
            return Err((self, BuildFault::NotAtSource));
        }
        self.ordered = true;
        Ok(self)
    }

    /// From here on the order need not be kept (.NET's `ParallelEnumerable.AsUnordered`).
    ///
    /// # Errors
    ///
    /// [`BuildFault::Memory`] if there is no room for it; the query comes back unchanged.
    pub fn as_unordered(self) -> Built<L>
        ensures { AddsOp self Op.AsUnordered result }
    {
        self.with_op(Op::AsUnordered)
    }

    /// Maps each element (.NET's `Enumerable.Select`).
    ///
    /// # Errors
    ///
    /// [`BuildFault::Memory`] if there is no room for it; the query comes back unchanged.
    pub fn select(self, f: L) -> Built<L>
        ensures { AddsOp self (Op.Select f) result }
    {
        self.with_op(Op::Select(f))
    }

    /// Keeps the elements that pass (.NET's `Enumerable.Where`).
    ///
    /// # Errors
    ///
    /// [`BuildFault::Memory`] if there is no room for it; the query comes back unchanged.
    pub fn filter(self, f: L) -> Built<L>
        ensures { AddsOp self (Op.Filter f) result }
    {
        self.with_op(Op::Filter(f))
    }

    /// Puts each element's expansion in its place (.NET's `Enumerable.SelectMany`).
    ///
    /// # Errors
    ///
    /// [`BuildFault::Memory`] if there is no room for it; the query comes back unchanged.
    pub fn select_many(self, f: L) -> Built<L>
        ensures { AddsOp self (Op.SelectMany f) result }
    {
        self.with_op(Op::SelectMany(f))
    }

    /// Keeps the first `n` elements, none if `n` is negative (.NET's `Enumerable.Take`).
    ///
    /// # Errors
    ///
    /// [`BuildFault::Memory`] if there is no room for it; the query comes back unchanged.
    pub fn take(self, n: i64) -> Built<L>
        ensures { AddsOp self (Op.Take n) result }
    {
        self.with_op(Op::Take(n))
    }

    /// Passes over the first `n` elements, none if `n` is negative (.NET's `Enumerable.Skip`).
    ///
    /// # Errors
    ///
    /// [`BuildFault::Memory`] if there is no room for it; the query comes back unchanged.
    pub fn skip(self, n: i64) -> Built<L>
        ensures { AddsOp self (Op.Skip n) result }
    {
        self.with_op(Op::Skip(n))
    }

    /// Keeps the elements before the first that fails (.NET's `Enumerable.TakeWhile`).
    ///
    /// # Errors
    ///
    /// [`BuildFault::Memory`] if there is no room for it; the query comes back unchanged.
    pub fn take_while(self, f: L) -> Built<L>
        ensures { AddsOp self (Op.TakeWhile f) result }
    {
        self.with_op(Op::TakeWhile(f))
    }

    /// Passes over the elements before the first that fails (.NET's `Enumerable.SkipWhile`).
    ///
    /// # Errors
    ///
    /// [`BuildFault::Memory`] if there is no room for it; the query comes back unchanged.
    pub fn skip_while(self, f: L) -> Built<L>
        ensures { AddsOp self (Op.SkipWhile f) result }
    {
        self.with_op(Op::SkipWhile(f))
    }

    /// Sets the merge option (.NET's `ParallelEnumerable.WithMergeOptions`). Takes no memory.
    ///
    /// # Errors
    ///
    /// [`BuildFault::MergeTwice`] if one was given before, [`MergeOption::Default`] too.
    pub fn with_merge(mut self, option: MergeOption) -> Built<L>
        ensures { result ≡ with_option self option }
    {
        if self.merge.is_some() {
            return Err((self, BuildFault::MergeTwice));
        }
        self.merge = Some(option);
        Ok(self)
    }

    /// Sets the degree of parallelism, the number of workers (.NET's `ParallelEnumerable.WithDegreeOfParallelism`).
    /// Takes no memory.
    ///
    /// # Errors
    ///
    /// [`BuildFault::DegreeTwice`] if one was given before, else [`BuildFault::DegreeOutOfRange`] if `n`
    /// isn't from 1 to 64.
    pub fn with_degree(mut self, n: u64) -> Built<L>
        ensures { result ≡ with_degree_of self n }
    {
        if self.degree.is_some() {
            return Err((self, BuildFault::DegreeTwice));
        }
        if n == 0 || n > 64 {
            return Err((self, BuildFault::DegreeOutOfRange));
        }
        self.degree = Some(n);
        Ok(self)
    }

    /// Adds any operator, as the calls named after the operators do.
    ///
    /// # Errors
    ///
    /// [`BuildFault::Memory`] if there is no room for it; the query comes back unchanged.
    pub fn with_op(mut self, op: Op<L>) -> Built<L>
        ensures { AddsOp self op result }
    {
        match self.ops.push(op) {
            Ok(()) => Ok(self),
            Err(_) => Err((self, BuildFault::Memory)),
        }
    }
}

impl<L> Query<L> {
    /// The operators in order. Takes no memory.
    pub fn ops(&self) -> &[Op<L>]
        ensures { result.now ≡ self.now.ops }
    {
        self.ops.as_slice()
    }

    /// Whether `as_ordered` was called.
    pub fn is_ordered(&self) -> bool
        ensures { result ≡ self.now.ordered }
    {
        self.ordered
    }

    /// The merge option in force, which is [`MergeOption::AutoBuffered`] if none or the default was given.
    pub fn merge_option(&self) -> MergeOption
        ensures { result ≡ merge_in_force self.now.merge }
    {
        match self.merge {
            None | Some(MergeOption::Default) => MergeOption::AutoBuffered,
            Some(option) => option,
        }
    }

    /// The degree of parallelism in force, which is 4 if none was given.
    pub fn degree(&self) -> u64
        ensures value { result ≡ degree_in_force self.now.degree }
        ensures within { (1 ≤ result) × (result ≤ 64) }
    {
        self.degree.unwrap_or(4)
    }
}

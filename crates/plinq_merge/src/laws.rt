//! Laws of what merged results show, each the contract of a function with nothing to do.
//!
//! They speak of results of one source, for a merger by key: whatever was offered of it, and in whatever order.
#![tactic(auto, using(crate::proofs::Whole::of_source))]

ghost use Rattle.std.specs.Prelude.{◌≡◌, ◌≤◌, List, [], length, false, Some};
ghost use Rattle.std.specs.List.{Contains};
ghost use Rattle.plinq_source.specs.declared.ending.Ending.{Ending};
ghost use Rattle.plinq_source.specs.Trace.{Trace};
ghost use Rattle.plinq_lambda.specs.Meaning.{Meaning};
ghost use Rattle.plinq_keyed.specs.declared.record.Record.{Record};
ghost use Rattle.plinq_keyed.specs.History.{IsLegalHistory};
ghost use Rattle.plinq_ops.specs.declared.op.Op.{Op};
ghost use Rattle.plinq_ops.specs.declared.order.Order.TheVariants.{ByKey};
ghost use Rattle.plinq_ops.specs.declared.results.ChunkResult.{ChunkResult};
ghost use Rattle.plinq_ops.specs.Stage.{seq};
ghost use Rattle.plinq_ops.specs.Fragment.{glue};
ghost use Rattle.plinq_ops.specs.Batches.{batches_from};
ghost use Rattle.plinq_ops.specs.Cut.{most_items};
ghost use Rattle.plinq_ops.specs.Row.{IsResultOf, AreOffers};
ghost use Rattle.plinq_merge.specs.Shown.{Merge, answer, shown_batches};
ghost use Rattle.plinq_merge.specs.Whole.{IsTrueTail, AreTrueTails, AreWhole, AreFirstOf};

/// Whatever was offered, the batches that it shows are the first of the sequential answer's.
pub fn shown_is_a_prefix<L, T>()
    ensures { (meaning : L → Meaning T) (worker : List (Op L)) (t : Trace T) (merge : Merge T) (offers : List (ChunkResult T)) →
        length t.items ≤ most_items → merge.order ≡ ByKey → merge.decided ≡ false →
        AreOffers meaning worker t offers → AreTrueTails t offers →
        AreFirstOf (shown_batches merge offers) (batches_from merge.size [] (seq merge.after (glue meaning worker t))) }
{}

/// An answer that has ended is the sequential answer, also if results are missing.
pub fn decided_is_sequential<L, T>()
    ensures { (meaning : L → Meaning T) (worker : List (Op L)) (t : Trace T) (merge : Merge T) (offers : List (ChunkResult T)) (e : Ending) →
        length t.items ≤ most_items → merge.order ≡ ByKey → merge.decided ≡ false →
        AreOffers meaning worker t offers → AreTrueTails t offers → (answer merge offers).ending ≡ Some e →
        answer merge offers ≡ seq merge.after (glue meaning worker t) }
{}

/// If all of the source was offered, the answer is the sequential one.
pub fn whole_is_sequential<L, T>()
    ensures { (meaning : L → Meaning T) (worker : List (Op L)) (t : Trace T) (merge : Merge T) (offers : List (ChunkResult T)) →
        length t.items ≤ most_items → merge.order ≡ ByKey → merge.decided ≡ false →
        AreOffers meaning worker t offers → AreTrueTails t offers → AreWhole t offers →
        answer merge offers ≡ seq merge.after (glue meaning worker t) }
{}

/// The tail of a legal history's chunk gives the source's end, if it gives one.
pub fn tails_tell_the_end<L, T>()
    ensures { (meaning : L → Meaning T) (worker : List (Op L)) (t : Trace T) (h : List Record) (asked : Record) (r : ChunkResult T) →
        IsLegalHistory t h → Contains h asked → IsResultOf meaning worker t asked r → IsTrueTail t r }
{}

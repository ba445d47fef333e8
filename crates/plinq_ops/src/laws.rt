//! Laws of the definitions, each the contract of a function with nothing to do.
//!
//! Those of answers hold whatever the lambdas mean, so they name a meaning where the other contracts have `L.meaning`.
ghost use Rattle.std.specs.Prelude.{◌≡◌, ℕ, Bool, ◌+◌, ◌<◌, ◌≤◌, List, [], ◌++◌, length, take, true, false, Option, Some, None, IfSome, ◌≢◌};
ghost use Rattle.std.specs.List.{list_any, list_all, Contains};
ghost use Rattle.plinq_source.specs.declared.ending.Ending.{Ending};
ghost use Rattle.plinq_source.specs.Trace.{Trace, open_trace, followed_by};
ghost use Rattle.plinq_lambda.specs.Meaning.{Meaning};
ghost use Rattle.plinq_lambda.specs.declared.formula.Formula.{Formula};
ghost use Rattle.plinq_keyed.specs.declared.chunk.Chunk.{Chunk};
ghost use Rattle.plinq_keyed.specs.declared.record.Record.{Record};
ghost use Rattle.plinq_keyed.specs.Keys.{is_among};
ghost use Rattle.plinq_keyed.specs.History.{IsLegalHistory, given_by};
ghost use Rattle.plinq_ops.specs.declared.argument.Argument.{Argument};
ghost use Rattle.plinq_ops.specs.declared.op.Op.{Op};
ghost use Rattle.plinq_ops.specs.declared.order.Order.{Order};
ghost use Rattle.plinq_ops.specs.declared.merge_option.MergeOption.{MergeOption};
ghost use Rattle.plinq_ops.specs.declared.frag_end.FragEnd.TheVariants.{Dropped};
ghost use Rattle.plinq_ops.specs.declared.results.ChunkResult.{ChunkResult};
ghost use Rattle.plinq_ops.specs.Stage.{Stage, seq, seq_after};
ghost use Rattle.plinq_ops.specs.Operator.{op_name, op_argument, op_named};
ghost use Rattle.plinq_ops.specs.MergeWords.{merge_name, merge_named};
ghost use Rattle.plinq_ops.specs.Feeding.{is_empty_take};
ghost use Rattle.plinq_ops.specs.Sequential.{answer_of};
ghost use Rattle.plinq_ops.specs.Batches.{batch_size, batches, batches_from, held_back};
ghost use Rattle.plinq_ops.specs.Answer.{Answer, keeps_order};
ghost use Rattle.plinq_ops.specs.Plan.{worker_part, after_part};
ghost use Rattle.plinq_ops.specs.Fragment.{glue, glued_trace};
ghost use Rattle.plinq_ops.specs.Chunk.{chunk_answer, IsChunkResult, result_trace};
ghost use Rattle.plinq_ops.specs.Cut.{stop_keys, most_items};
ghost use Rattle.plinq_ops.specs.Row.{IsOffer, AreOffers, IsRow, row_trace, IsResultOf, AreResultsOf};

/// What operators make of a trace that follows another: what they make of the first, and if that is open, after it
/// what is left of them makes of the second.
pub fn answer_goes_on<T>()
    ensures { (ss : List (Stage T)) (a b : Trace T) →
        seq ss (followed_by a b) ≡ followed_by (seq ss a) (seq (seq_after ss a) b) }
{}

/// The split law: operators answer what their after part answers to the glued fragments of their worker part, by key
/// or by arrival. With a Take of none they answer nothing and the end, and no worker is needed.
pub fn split_gives_the_answer<L, T>()
    ensures { (meaning : L → Meaning T) (order : Order) (ops : List (Op L)) (t : Trace T) →
        list_any is_empty_take ops ≡ false →
        answer_of meaning ops t ≡ answer_of meaning (after_part order ops) (glue meaning (worker_part order ops) t) }
{}

/// An answer that the first items decide is the answer to all.
pub fn decided_answer_stays<L, T>()
    ensures { (meaning : L → Meaning T) (worker : List (Op L)) (after : List (Stage T)) (t : Trace T) (k : ℕ) (e : Ending) →
        (seq after (glued_trace meaning worker 0 (take k t.items) None)).ending ≡ Some e →
        seq after (glue meaning worker t) ≡ seq after (glued_trace meaning worker 0 (take k t.items) None) }
{}

/// Chunks one after another glue to the whole.
pub fn chunks_glue<L, T>()
    ensures { (meaning : L → Meaning T) (worker : List (Op L)) (key : ℕ) (xs ys : List T) (e : Option Ending) →
        glued_trace meaning worker key (xs ++ ys) e
        ≡ followed_by (glued_trace meaning worker key xs None) (glued_trace meaning worker (key + length xs) ys e) }
{}

/// The source's ending stands after the glued fragments of its items.
pub fn ending_follows<L, T>()
    ensures { (meaning : L → Meaning T) (worker : List (Op L)) (t : Trace T) →
        glue meaning worker t
        ≡ followed_by (glued_trace meaning worker 0 t.items None) (record { items = []; ending = t.ending }) }
{}

/// A chunk whose keys the cut doesn't reach gives its glued fragments.
pub fn chunk_gives_its_fragments<L, T>()
    ensures { (meaning : L → Meaning T) (worker : List (Op L)) (cut key : ℕ) (xs : List T) →
        key + length xs ≤ cut + 1 →
        (chunk_answer meaning worker cut key xs).trace ≡ glued_trace meaning worker key xs None }
{}

/// A result that isn't dropped gives its chunk's answer.
pub fn result_gives_its_answer<L, T>()
    ensures { (meaning : L → Meaning T) (worker : List (Op L)) (cut : ℕ) (chunk : Chunk T) (r : ChunkResult T) →
        IsChunkResult meaning worker cut chunk r → r.ending ≢ Dropped →
        result_trace r ≡ (chunk_answer meaning worker cut chunk.first chunk.items.items).trace }
{}

/// The key at which a result stopped that isn't dropped ends the run: so it is a cut that others may be given.
pub fn stop_ends_the_run<L, T>()
    ensures { (meaning : L → Meaning T) (worker : List (Op L)) (t : Trace T) (r : ChunkResult T) (k : ℕ) →
        IsOffer meaning worker t r → r.ending ≢ Dropped → r.stop ≡ Some k →
        is_among (stop_keys meaning worker 0 t.items) k ≡ true }
{}

/// After items whose fragments leave the run open no result is dropped, whatever its cut: it gives the glued fragments
/// of its chunk.
pub fn nothing_reached_is_dropped<L, T>()
    ensures { (meaning : L → Meaning T) (worker : List (Op L)) (t : Trace T) (r : ChunkResult T) →
        length t.items ≤ most_items → (offer : IsOffer meaning worker t r) →
        (glued_trace meaning worker 0 (take r.first t.items) None).ending ≡ None →
        (result_trace r ≡ glued_trace meaning worker r.first offer.chunk.items.items None) × (r.ending ≢ Dropped) }
{}

/// One result more: after the glued fragments of the items before it, a result gives those up to its last.
pub fn row_goes_on<L, T>()
    ensures { (meaning : L → Meaning T) (worker : List (Op L)) (t : Trace T) (r : ChunkResult T) →
        length t.items ≤ most_items → IsOffer meaning worker t r →
        followed_by (glued_trace meaning worker 0 (take r.first t.items) None) (result_trace r)
        ≡ glued_trace meaning worker 0 (take (r.first + r.count) t.items) None }
{}

/// A row of results from key 0, each with a cut of its own, joins to the glued fragments of the items.
pub fn row_glues<L, T>()
    ensures { (meaning : L → Meaning T) (worker : List (Op L)) (t : Trace T) (rs : List (ChunkResult T)) (to : ℕ) →
        length t.items ≤ most_items → AreOffers meaning worker t rs → IsRow 0 rs to →
        row_trace rs ≡ glued_trace meaning worker 0 (take to t.items) None }
{}

/// The results of a legal history's chunks join to the glued fragments of the items that it handed out.
pub fn history_glues<L, T>()
    ensures { (meaning : L → Meaning T) (worker : List (Op L)) (t : Trace T) (h : List Record) (rs : List (ChunkResult T)) →
        length t.items ≤ most_items → IsLegalHistory t h → AreResultsOf meaning worker t h rs →
        row_trace rs ≡ glued_trace meaning worker 0 (take (given_by t h) t.items) None }
{}

/// The result of the chunk of one record of a legal history is that of a chunk of the source.
pub fn results_are_offers<L, T>()
    ensures { (meaning : L → Meaning T) (worker : List (Op L)) (t : Trace T) (h : List Record) (asked : Record) (r : ChunkResult T) →
        IsLegalHistory t h → Contains h asked → IsResultOf meaning worker t asked r → IsOffer meaning worker t r }
{}

/// The batches of a trace that grows are those so far, and then those of the rest begun with what is held back.
pub fn batches_go_on<T>()
    ensures { (option : MergeOption) (xs : List T) (t : Trace T) →
        batches option (followed_by (open_trace xs) t)
        ≡ batches option (open_trace xs) ++ batches_from (batch_size option) (held_back (batch_size option) [] xs) t }
{}

/// If a batch has a size, fewer items than that are held back.
pub fn fewer_are_held_back<T>()
    ensures { (option : MergeOption) (xs : List T) →
        IfSome (batch_size option) (λ size. length (held_back (batch_size option) [] xs) < size) }
{}

/// The sequential answer is an answer to each query, ordered or not.
pub fn sequential_is_an_answer<L, T>()
    ensures { (meaning : L → Meaning T) (ordered : Bool) (ops : List (Op L)) (t : Trace T) →
        Answer meaning ordered ops t (answer_of meaning ops t) }
{}

/// An ordered query, one with `as_ordered` and no AsUnordered, has no other answer.
pub fn ordered_query_has_one_answer<L, T>()
    ensures { (meaning : L → Meaning T) (ops : List (Op L)) (t u : Trace T) → list_all keeps_order ops ≡ true →
        Answer meaning true ops t u → u ≡ answer_of meaning ops t }
{}

/// An operator is found by its name with what stands after it, and by no other.
pub fn an_operator_is_found_by_its_words()
    ensures found { (op : Op Formula) → op_named (op_argument op) (op_name op) ≡ Some op }
    ensures alone { (argument : Argument) (word : List ℕ) (op : Op Formula) →
        op_named argument word ≡ Some op → (word ≡ op_name op) × (argument ≡ op_argument op) }
{}

/// A merge option is found by its name, and by no other.
pub fn a_merge_option_is_found_by_its_word()
    ensures found { (option : MergeOption) → merge_named (merge_name option) ≡ Some option }
    ensures alone { (word : List ℕ) (option : MergeOption) → merge_named word ≡ Some option → word ≡ merge_name option }
{}

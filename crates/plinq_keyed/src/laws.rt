ghost use Rattle.std.specs.Prelude.{◌≡◌, List, length};
ghost use Rattle.std.specs.List.{range_with_len};
ghost use Rattle.plinq_source.specs.Trace.{Trace};
ghost use Rattle.plinq_keyed.specs.Keys.{keys};
ghost use Rattle.plinq_keyed.specs.declared.record.Record.{Record};
ghost use Rattle.plinq_keyed.specs.History.{IsLegalHistory, is_legal_history, handed_out, given_by, IsPrefix, some_source};

/// What a legal history hands out is a prefix of its source, under the keys 0, 1, 2 and so on, each once.
///
/// This function does nothing: it is there for the law in its contract.
pub fn handed_out_is_a_prefix<T>()
    ensures { (t : Trace T) (h : List Record) → IsLegalHistory t h → IsPrefix t h }
{}

/// The keys of what a legal history hands out count up from 0.
///
/// This function does nothing: it is there for the law in its contract.
pub fn handed_out_keys_count_up<T>()
    ensures { (t : Trace T) (h : List Record) → IsLegalHistory t h → keys (handed_out t h) ≡ range_with_len 0 (given_by t h) }
{}

/// Whether a history is legal depends on how many items its source has and how they end, not on the items.
///
/// This function does nothing: it is there for the law in its contract.
pub fn legality_counts_items<T>()
    ensures { (t : Trace T) (h : List Record) → is_legal_history t h ≡ is_legal_history (some_source (length t.items) t.ending) h }
{}

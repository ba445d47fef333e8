ghost use Rattle.std.specs.Prelude.{◌≡◌, pos, true, [], ◌∷◌, replicate, IfSome};
ghost use Rattle.plinq_keyed.specs.Keys.{is_among};
ghost use Rattle.plinq_lambda.specs.declared.formula.Formula.TheVariants.{Below};
ghost use Rattle.plinq_ops.specs.declared.op.Op.TheVariants.{TakeWhile};
ghost use Rattle.plinq_ops.specs.Cut.{stop_keys};

use plinq_cut::{CutWord, StopKeys};
use plinq_lambda::{Formula, Lambda};
use plinq_ops::Query;
use plinq_source::RepeatSource;
use std::alloc::Global;

/// The keys of nine zeros at which a query ends that takes while they are below 0.
struct KeysOfZeros;

impl StopKeys for KeysOfZeros {
    ghost stops_at = { is_among (stop_keys ⟦<Formula as Lambda>⟧.meaning (TakeWhile (Below (pos 0)) ∷ []) 0 (replicate 9 (pos 0))) };
}

/// A query that keeps the order, and takes while an element is below 0.
fn taking_below_0(alloc: Global) -> Option<Query<Formula>>
    ensures { IfSome result (λ query. query.ordered ≡ true × query.ops ≡ TakeWhile (Below (pos 0)) ∷ []) }
{
    let Ok(query) = Query::new(alloc).as_ordered() else {
        return None;
    };
    match query.take_while(Formula::Below(0)) {
        Ok(query) => Some(query),
        Err(_) => None,
    }
}

/// What two passes read, one after another, as the cut is lowered.
fn read_in_turn(alloc: Global) -> Option<[u64; 5]> {
    let query = taking_below_0(alloc)?;
    let zeros = RepeatSource::new(0, 9).ok()?;
    let (cut, mut pass) = CutWord::<KeysOfZeros>::new(alloc, &query.split(), &zeros).ok()?;
    let none = cut.read(&mut pass);
    cut.lower(&mut pass, 5);
    cut.lower(&mut pass, 8);
    let five = cut.read(&mut pass);
    let mut other = cut.split(&mut pass);
    let five_again = cut.read(&mut other);
    cut.lower(&mut other, 3);
    let three = cut.read(&mut pass);
    let mut both = cut.join(pass, other);
    cut.lower(&mut both, 0);
    Some([none, five, five_again, three, cut.read(&mut both)])
}

#[test]
fn the_least_key_is_read_by_each_pass(rt: HostRuntime) {
    assert!(rt; read_in_turn(rt.alloc()) == Some([u64::MAX, 5, 5, 3, 0]));
}

/// Whether of two cuts at most one is refused, and one that is made has no key.
fn is_made_at_last(alloc: Global) -> bool {
    let Some(query) = taking_below_0(alloc) else {
        return true;
    };
    let Ok(zeros) = RepeatSource::new(0, 9) else {
        return false;
    };
    let mut refused = 0usize;
    for _turn in 0..2 {
        match CutWord::<KeysOfZeros>::new(alloc, &query.split(), &zeros) {
            Ok((cut, mut pass)) => {
                if cut.read(&mut pass) != u64::MAX {
                    return false;
                }
            }
            Err(_) => refused = refused.wrapping_add(1),
        }
    }
    refused <= 1
}

/// Run with each allocation failing in turn.
#[test]
fn a_cut_that_is_refused_is_made_the_next_time(rt: HostRuntime) {
    assert!(rt; is_made_at_last(rt.alloc()));
}

ghost use Rattle.std.specs.Prelude.{◌≡◌};
ghost use Rattle.plinq_ops.specs.Cut.{no_cut};

use crate::stop_keys::StopKeys;
use crate::view::View;
use atomic_table::{Table, TableRule};
use std::alloc::Global;
use std::marker::PhantomData;

/// Where the number stands in the table.
pub(crate) const WORD: usize = 0;

pub struct Cuts<E> {
    of: PhantomData<E>,
}

impl<E: StopKeys> TableRule<(), View, ()> for Cuts<E> {
    ghost use Rattle.plinq_cut.specs.inner.OneWord.{OfOneWord};
    ghost use Rattle.plinq_cut.specs.Cutting.{IsLawful};
    ghost use Rattle.plinq_cut.specs.declared.view.View.TheVariants.{Passing};

    ghost holds = { λ _. OfOneWord (IsLawful E.stops_at) };

    ghost first = { λ _. Passing no_cut };
}

/// The least key at which some worker has seen the run end, as one atomic number that the workers of a query share that
/// is merged by key.
///
/// ```text
/// let (cut, mut pass) = CutWord::<E>::new(alloc, &plan, &source)?; // beyond all keys
/// let mut other = cut.split(&mut pass);                            // one for each worker
/// cut.lower(&mut pass, 5);                                         // the element of key 5 ends the run
/// cut.read(&mut other)                                             // 5
/// ```
#[derive(Drop)]
pub struct CutWord<E: StopKeys> {
    pub(crate) table: Table<(), View, (), Cuts<E>, Global>,
    ghost one: { table.shared.table_id.words ≡ 1 },
}

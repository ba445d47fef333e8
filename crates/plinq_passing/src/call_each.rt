ghost use Rattle.std.specs.Prelude.{◌≡◌};
ghost use Rattle.plinq_merge.specs.Sending.{Leads, RefusesNext};
ghost use Rattle.plinq_closures.specs.inner.Only.{MayCall, MayCall-prop};

use crate::visits::Visits;
use plinq_merge::Sink;

/// A sink that calls what it is lent with each item. A code that it returns refuses the batch, of which it isn't called with the
/// rest.
#[derive(Drop)]
pub(crate) struct CallEach<'a, V: Visits> {
    pub(crate) by: &'a mut V::Called,
    ghost called: { MayCall V.is_called } by { MayCall-prop V.is_called },
}

impl<'a, V: Visits> Sink for CallEach<'a, V> {
    type Item = V::Item;

    ghost accepts = { λ s batch s'. (Leads V.takes s.by.now batch s'.by.now) × (s'.by.ghost_name ≡ s.by.ghost_name) };

    ghost refuses = { λ s batch code s'. (RefusesNext V.takes V.refuses s.by.now batch code s'.by.now) × (s'.by.ghost_name ≡ s.by.ghost_name) };

    fn batch(&mut self, batch: &[V::Item]) -> Result<(), u32> {
        let mut rest = batch;
        while let Some((item, others)) = rest.split_first() {
            V::visit(self.by, *item)?;
            rest = others;
        }
        Ok(())
    }
}

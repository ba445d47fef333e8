ghost use Rattle.std.specs.Prelude.{◌≡◌};

use crate::visits::Visits;
use std::marker::PhantomData;

/// How what is lent is called.
pub(crate) struct Lends<'a, F, V> {
    lent: PhantomData<&'a F>,
    by: PhantomData<V>,
}

impl<'a, F, V: Visits<Called = F>> Visits for Lends<'a, F, V> {
    type Called = &'a mut F;

    type Item = V::Item;

    ghost is_called = { V.is_called };

    ghost takes = { λ s x t. (V.takes s.now x t.now) × (t.ghost_name ≡ s.ghost_name) };

    ghost refuses = { λ s x code t. (V.refuses s.now x code t.now) × (t.ghost_name ≡ s.ghost_name) };

    #[inline(always)]
    fn visit(called: &mut &'a mut F, item: V::Item) -> Result<(), u32> {
        V::visit(called, item)
    }
}

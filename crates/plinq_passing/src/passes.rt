ghost use Rattle.std.specs.Prelude.{◌≡◌, false};
ghost use Rattle.plinq_passing.specs.Passing.{PassesOn, Stops, Carries};

use crate::visits::Visits;
use plinq_steps::Positional;
use std::marker::PhantomData;

/// Steps by position, and what is called with what they make.
#[derive(Drop)]
pub struct Passed<L, C> {
    pub later: L,
    pub to: C,
    pub over: bool,
}

/// How it is given items one by one. It refuses by 0 the item after which no more can be made, and that is over then.
pub struct Passes<L, W> {
    later: PhantomData<L>,
    to: PhantomData<W>,
}

impl<L: Positional, W: Visits<Item = L::To>> Visits for Passes<L, W> {
    type Called = Passed<L, W::Called>;

    type Item = L::From;

    ghost is_called = { ((l : L) → L.is_called l) × W.is_called };

    ghost takes = { λ s x t. (Carries L.turns (PassesOn W.takes W.refuses) s.later s.to x t.later t.to)
        × (L.ended t.later ≡ false) × (t.over ≡ false) };

    ghost refuses = { λ s x code t. Carries L.turns (λ k o k'. Stops W.takes W.refuses (L.ended t.later) t.over k o code k') s.later s.to x t.later t.to };

    #[inline(always)]
    fn visit(called: &mut Passed<L, W::Called>, item: L::From) -> Result<(), u32> {
        called.over = false;
        match called.later.next(item) {
            Some(y) => W::visit(&mut called.to, y)?,
            None => {}
        }
        if called.later.has_ended() {
            called.over = true;
            return Err(0);
        }
        Ok(())
    }
}

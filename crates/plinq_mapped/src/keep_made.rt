ghost use Rattle.std.specs.Prelude.{◌≡◌, true, Ok, None};
ghost use Rattle.plinq_mapped.specs.inner.Keeping.{KeepsBy, keeps-lawful};

use plinq_groups::Mapped;
use plinq_merge::{DeliveryFault, TakeInto, Taker};
use plinq_source::Ending;
use std::marker::PhantomData;

/// What was made, in a list.
#[derive(Drop)]
pub(crate) struct Kept<B> {
    pub(crate) items: Vec<B>,
}

/// Keeps what was made. The first item that faults ends the answer.
#[derive(Drop)]
pub(crate) struct KeepMade<B> {
    pub(crate) of: PhantomData<B>,
}

impl<B: Drop> Taker for KeepMade<B> {
    type Item = Mapped<B>;

    ghost can_take = { λ _. true };
}

impl<B: Drop> TakeInto<Kept<B>> for KeepMade<B> {
    ghost made = { KeepsBy };

    fn take(
        &mut self,
        items: Vec<Mapped<B>>,
        ending: Option<Ending>,
        out: &mut Kept<B>,
    ) -> Result<Option<Ending>, DeliveryFault>
        ensures ready { result ≡ Ok None → true ≡ true }
        ensures last { result ≡ Ok None → ending ≡ None }
        ensures made { KeepsBy self.old out.old (record { items = items.items; ending = ending }) result self.new out.new }
    {
        for part in items {
            let (mut made, fault) = part.into_parts();
            out.items.append(&mut made)?;
            if let Some(code) = fault {
                return Ok(Some(Ending::Fault(code)));
            }
        }
        Ok(ending)
    }

    fn idle(&self, out: &mut Kept<B>)
        ensures { out.new ≡ out.old }
    {}

    ghost lawful = { keeps-lawful };
}

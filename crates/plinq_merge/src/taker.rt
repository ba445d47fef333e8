ghost use Rattle.std.specs.Prelude.{◌≡◌, Bool, true, Option, None, Result, Ok};
ghost use Rattle.plinq_source.specs.declared.ending.Ending.{Ending};
ghost use Rattle.plinq_source.specs.Trace.{Trace};
ghost use Rattle.plinq_merge.specs.declared.delivery_fault.DeliveryFault.{DeliveryFault};
ghost use Rattle.plinq_merge.specs.Taking.{IsTaking};

use crate::delivery_fault::DeliveryFault;
use plinq_source::Ending;

/// What becomes of the items whose turn has come.
pub trait Taker: Drop {
    /// What it takes.
    type Item: Drop;

    // It can take items.
    ghost can_take: { Self → Bool };
}

/// A taker that puts into an `O` what it makes of the items.
pub trait TakeInto<O>: Taker {
    // A taker and where it puts things, before and after a trace was taken: the answer goes on after it, or has ended, or
    // it broke off.
    ghost made: { Self → O → Trace Self.Item → Result (Option Ending) DeliveryFault → Self → O → Type 0 };

    /// Takes items, and the run's ending after them if they are its last.
    ///
    /// Returns how the answer ends, or `None` if more may follow.
    ///
    /// # Errors
    ///
    /// Why what was made couldn't be put there; the taker is of no more use then.
    fn take(
        &mut self,
        items: Vec<Self::Item>,
        ending: Option<Ending>,
        out: &mut O,
    ) -> Result<Option<Ending>, DeliveryFault>
        requires { Self.can_take self.old ≡ true }
        ensures ready { result ≡ Ok None → Self.can_take self.new ≡ true }
        ensures last { result ≡ Ok None → ending ≡ None }
        ensures made { made self.old out.old (record { items = items.items; ending = ending }) result self.new out.new };

    /// Reports where it puts things that nothing comes for now.
    fn idle(&self, out: &mut O)
        ensures { out.new ≡ out.old };

    // One trace after another.
    ghost lawful: { IsTaking made };
}

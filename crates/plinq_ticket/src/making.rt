ghost use Rattle.std.specs.Prelude.{◌≡◌, ◌≤◌, ◌^◌, [], ◌∷◌, true, IfOk, IfErr};
ghost use Rattle.plinq_keyed.specs.History.{tickets_below};
ghost use Rattle.plinq_ticket.specs.declared.lock_fault.LockFault.TheVariants.{Memory};
ghost use Rattle.plinq_ticket.specs.Passes.{IsPassOf, pass_origin, pass_share};

use crate::lock_fault::LockFault;
use crate::pass::{Pass, Token};
use crate::ticket_lock::TicketLock;
use atomic_table::Table;
use plinq_keyed::Guarded;
use plinq_wait::WaitQueue;
use std::alloc::Global;
use std::snapshot::Snapshot;

impl<V: Guarded> TicketLock<V> {
    /// A lock round a value that has no records yet, and the first pass.
    ///
    /// # Errors
    ///
    /// [`LockFault::Memory`] if there is no room for the lock. The value is dropped then.
    pub fn new(alloc: Global, value: V) -> Result<(TicketLock<V>, Pass<V>), LockFault>
        requires { V.history value ≡ [] }
        ensures ok { IfOk result (λ made. IsPassOf made.0 made.1 × (pass_origin made.1 ≡ V.origin value) × (pass_share made.1 ≡ [])) }
        ensures err { IfErr result (λ fault. fault ≡ Memory) }
    {
        TicketLock::with_first_ticket(alloc, value, 0)
    }

    /// A lock from which `first` is the first ticket, above those of all records of the value, and the first pass, whose
    /// own these records are.
    ///
    /// # Errors
    ///
    /// [`LockFault::Memory`] if there is no room for the lock. The value is dropped then.
    pub fn with_first_ticket(
        alloc: Global,
        value: V,
        first: u64,
    ) -> Result<(TicketLock<V>, Pass<V>), LockFault>
        requires within { first ≤ 2 ^ 62 }
        requires below { tickets_below first (V.history value) ≡ true }
        ensures ok { IfOk result (λ made. IsPassOf made.0 made.1 × (pass_origin made.1 ≡ V.origin value) × (pass_share made.1 ≡ V.history value)) }
        ensures err { IfErr result (λ fault. fault ≡ Memory) }
    {
        let records = value.records().len() as u64;
        let about = Snapshot::of(&value);
        let slot = alone(alloc, Some(value))?;
        let Ok((table, seat)) = Table::new(alloc, &[first, first], slot, &about) else {
            return Err(LockFault::Memory);
        };
        let lock = TicketLock {
            table,
            left: WaitQueue::new(),
        };
        Ok((lock, Token { seat, records }))
    }
}

/// A list of one.
fn alone<T: Drop>(alloc: Global, x: T) -> Result<Vec<T>, LockFault>
    ensures ok { IfOk result (λ list. list.items ≡ x ∷ []) }
    ensures err { IfErr result (λ fault. fault ≡ Memory) }
{
    let mut list = Vec::new(alloc);
    match list.push(x) {
        Ok(()) => Ok(list),
        Err(_) => Err(LockFault::Memory),
    }
}

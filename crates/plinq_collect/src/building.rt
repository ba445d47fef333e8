//! A query in one expression.
ghost use Rattle.std.specs.Prelude.{◌≡◌, Ok, Err, MatchResult};
ghost use Rattle.plinq_ops.specs.Query.{QueryView, empty_query};

use plinq_ops::{BuildFault, Built, Query};
use std::alloc::Global;

/// The query that these calls build. A refused one is dropped, so that `?` works on what is answered.
///
/// # Errors
///
/// The fault of the call that was refused.
///
/// ```text
/// let query = build(alloc, |query| query.as_ordered()?.filter(Formula::Even)?.take(10))?;
/// ```
pub fn build<L: Drop, F: FnOnce(Query<L>) -> Built<L>>(
    alloc: Global,
    calls: F,
) -> Result<Query<L>, BuildFault>
    requires { F.IsAlwaysCallable calls }
    ensures { MatchResult result
        (λ query. F.post calls empty_query (Ok query))
        (λ fault. (refused : QueryView L) × F.post calls empty_query (Err (refused, fault))) }
{
    match calls(Query::new(alloc)) {
        Ok(query) => Ok(query),
        Err((_, fault)) => Err(fault),
    }
}

//! A query's answer in the order of its items' ranks.
//!
//! [`order_by`] is .NET's `OrderBy` at a query's end: the items in ascending order of rank, in which those of equal ranks stand as
//! they came (`IsOrderOf`). There is only one such list (`laws::there_is_one_order`). PLINQ's own `OrderBy` isn't stable.
#![tactic(auto)]

pub mod laws;
mod ordering;

pub use ordering::order_by;

//! Last steps to another type: a run whose sink takes what is made of the answer's items.
//!
//! [`run_mapped`] delivers the batches of an answer with what is made of each item in its place, if anything (`RunsMadeOf`). With
//! `as_ordered` that is the sequential answer. The first item that faults ends it, with its code as the fault.
//! [`to_vec_mapped`] keeps all of it in a list (`IsMadeOfSome`). [`DeliverMade`] is what puts items into batches, one by one.
#![tactic(auto)]

mod collecting;
mod deliver_made;
mod keep_made;
mod mapped_runs;

pub use collecting::to_vec_mapped;
pub use deliver_made::DeliverMade;
pub use mapped_runs::run_mapped;

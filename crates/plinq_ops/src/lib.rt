//! Queries: operators over traces, and the answer on one thread.
//!
//! A [`Query`] is a list of LINQ's operators with its settings; each builder call adds exactly one of them. What
//! a query answers is `answer_of`, its operators applied one after another to the whole trace of a source
//! ([`sequential`]). Its plan (`IsPlanOf`, by [`Query::split`]) gives the workers those operators that they can apply
//! knowing their elements' keys. They make of an element its `fragment_of` ([`fragment`]), and of a chunk its
//! `chunk_answer`, the fragments joined by key ([`chunk_result`]). Operators at work are a [`Pipeline`]. Documents and
//! plans name operators and merge options ([`Op::named`], [`MergeOption::named`]). The [`laws`]
//! say that the rest of the operators, on the glued fragments, give the query's answer, that results one after another
//! glue to the whole whatever their cuts, and how answers and their batches grow.
#![tactic(auto)]

mod answering;
mod argument;
mod blocks;
mod build_fault;
mod chunking;
mod decided;
mod feeding;
mod frag_end;
mod fragmenting;
mod fragments;
mod known;
pub mod laws;
mod merge_option;
mod op;
mod order;
mod passed;
mod pipeline;
mod plan;
mod query;
mod results;
mod skip_while;
mod splitting;
mod stage_state;

pub use answering::sequential;
pub use argument::Argument;
pub use build_fault::BuildFault;
pub use chunking::chunk_result;
pub use frag_end::FragEnd;
pub use fragmenting::fragment;
pub use fragments::Fragment;
pub use merge_option::MergeOption;
pub use op::Op;
pub use order::Order;
pub use pipeline::Pipeline;
pub use plan::Plan;
pub use query::{Built, Query};
pub use results::ChunkResult;

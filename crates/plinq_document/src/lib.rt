//! A text of bytes gives the job that it means, or the first thing that is wrong with it.
//!
//! `read_document` answers `document_of`, one definition that looks in turn at the length, the JSON, the version, the
//! names, the steps, the shape of the growth, the aggregate, the source, the growth and the calls of the steps. A `Job` is
//! seen as its query, the trace of its source, of which nothing is given yet, its growth, and its aggregate, if it has one.
//! The [`laws`] say that a part of a concatenation has a bound, and keeps to it, and that the words of operators and formulas,
//! and no others, are read as these.
#![tactic(auto)]

mod aggregates;
mod any_source;
mod by_tokens;
mod concats;
mod doc_fault;
mod document;
mod formulas;
mod growth_counts;
mod job;
mod kind;
pub mod laws;
mod other_step;
mod plain_source;
mod plain_sources;
mod source_name;
mod sources;
mod step_call;
mod steps;
mod values;
mod version;

pub use any_source::AnySource;
pub use doc_fault::{DocFault, StepFault};
pub use document::read_document;
pub use job::Job;
pub use kind::Kind;
pub use plain_source::PlainSource;
pub use step_call::StepCall;
pub use version::Version;

//! The words of a command line and the bytes of a document give lines and a status.
//!
//! `read_input` gives a reader's bytes. `serve` writes the lines of an answer of a job, or of the value of its aggregate,
//! whole or after a fault a beginning of them. `perform` does all in turn. What it writes is that of the document of the
//! bytes that it read, and its status that of the outcome. What the words ask for is `plinq_arguments`', the document's
//! meaning `plinq_document`'s, and the lines are `plinq_lines`'.
#![tactic(auto)]

mod aggregate_values;
mod failure;
mod input;
mod input_fault;
mod performing;
mod rounds;
mod saying;
mod serve_fault;
mod serving;
mod with_cause;

pub use failure::Failure;
pub use input::read_input;
pub use input_fault::InputFault;
pub use performing::perform;
pub use plinq_arguments::{Arguments, Command, read_arguments};
pub use plinq_document::{AnySource, DocFault, Job, Kind, PlainSource, StepFault, read_document};
pub use plinq_settings::{Degree, Settings};
pub use serve_fault::ServeFault;
pub use serving::{serve, serve_plain};
pub use with_cause::WithCause;

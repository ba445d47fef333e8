//! Sources: what can only be asked for its next element, as an `IEnumerator` of .NET can.
//!
//! - A [`Source`] has one meaning for life, the trace `whole`: its items in order and how they end. `next` gives item
//!   number `given` of it, or the ending again and again (`Source::next`: `same`, `step`, `moved`), and `fill` several at
//!   once. It has at most 2^40 items (`few`) and ends by itself or by a refusal (`ends`).
//! - Each constructor says what is walked and that nothing was handed out yet (`whole`, `fresh`), and those that refuse
//!   say exactly when (`made`): [`ListSource`], [`TextSource`], [`RangeSource`], [`RepeatSource`], and of two sources
//!   [`ConcatSource`].
//! - `specs/Trace.antt` has the definitions of traces for all layers above.
#![tactic(auto)]

mod concat;
mod digits;
mod ending;
mod limits;
mod list;
mod memory;
mod number;
mod range;
mod repeat;
mod source;
mod source_fault;
mod step;
mod text;

pub use concat::ConcatSource;
pub use ending::Ending;
pub use list::ListSource;
pub use memory::OutOfMemory;
pub use range::RangeSource;
pub use repeat::RepeatSource;
pub use source::Source;
pub use source_fault::SourceFault;
pub use step::Step;
pub use text::TextSource;

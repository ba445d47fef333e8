//! What the tests of several crates share, so that none writes it anew. No program and no library stands on it.
//!
//! - Sinks: one keeps what it takes ([`Taken`]), one counts numbers without any memory ([`Counted`]), one notes how large batches
//!   are ([`Sizes`], [`are_sizes`]). Two stand around another one: [`Watched`] shows other threads what came to it ([`Seen`]),
//!   [`Held`] is held with one of its batches.
//! - Gates: [`KeepsBack`] and [`HoldsTheFirst`] keep workers back, and [`Counts`] counts those that go on to another gate ([`Passed`]).
//! - Sources around another one: [`Asked`] counts how often that is asked, [`InChunks`] for how many chunks, and [`KeepsInside`] keeps
//!   inside who asks for one of its numbers ([`Inside`]).
//! - A runtime around another one, whose clock stands still ([`Still`]).
//! - Numbers by chance ([`numbers`]), what counts calls ([`note`]), and queries ([`unchanged`], [`ordered`], [`query_of`]).
//! - Ways to wait for other threads ([`waits_for`], [`lingers`]), how far workers may run ahead ([`most_ahead`]), and the text of a
//!   fault ([`says`]).
//!
//! What one test alone needs stands with that test.
#![tactic(auto)]

mod asked;
mod by_chance;
mod counted;
mod counts;
mod held;
mod holds_the_first;
mod in_chunks;
mod keeps_back;
mod keeps_inside;
mod noted;
mod queries;
mod sizes;
mod still;
mod taken;
mod texts;
mod waiting;
mod watched;
mod windows;

pub use asked::Asked;
pub use by_chance::numbers;
pub use counted::Counted;
pub use counts::{Counts, Passed};
pub use held::Held;
pub use holds_the_first::HoldsTheFirst;
pub use in_chunks::InChunks;
pub use keeps_back::KeepsBack;
pub use keeps_inside::{Inside, KeepsInside};
pub use noted::note;
pub use queries::{OPTIONS, WORKERS, built, ordered, query_of, unchanged};
pub use sizes::{Sizes, are_sizes};
pub use still::Still;
pub use taken::Taken;
pub use texts::says;
pub use waiting::{lingers, waits_for};
pub use watched::{Seen, Watched};
pub use windows::{CHUNK, most_ahead};

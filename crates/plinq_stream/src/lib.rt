//! A queue through which workers send items to the one that receives them, each under a number of its own.
//!
//! Between any two steps of any passes these hold ([`Stream`]'s rule, `IsStream`):
//! - No number stands in two passes, and a pass has sent only under its own numbers.
//! - What was received and then what the queue holds has under each number exactly what the pass with that number has sent
//!   under it, in that order. Under a number that no pass has there is nothing.
//! - One pass receives, and it has received all that ever was. Each item is one that the stream's user picks ([`Admits`]).
//!
//! So, once all passes were joined and the queue was found empty ([`Stream::receive`]), what was received under each number
//! is what was sent under it. A pass sends ([`Stream::send`]), receives, hands out a number ([`Stream::give_number`]) and takes
//! in another pass ([`Stream::join`]); the first one has the numbers 0 to 63, and receives. No pass has bytes.
#![tactic(auto)]

mod admits;
mod pass_knowledge;
mod plays;
mod sent;
mod stream;
mod stream_pass;
mod streaming;

pub use admits::Admits;
pub use sent::Sent;
pub use stream::Stream;
pub use stream_pass::StreamPass;

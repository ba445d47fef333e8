ghost use Rattle.std.specs.Prelude.{◌≡◌};
ghost use Rattle.std.specs.Io.KnownBytes.{Keeps};
ghost use Rattle.plinq_lines.specs.LineSink.{write_failed, TakesLine, RefusesLine};

use crate::batch_lines::{LINES_ROOM, write_batch_by, write_batches_by};
use plinq_merge::Sink;
use std::io::Write;
use std::marker::Model;
use std::snapshot::Snapshot;

/// The code with which a [`LineSink`] refuses a batch: the writer failed, or took none of the bytes that it was given.
pub const WRITE_FAILED: u32 = 1;

/// A sink that writes each batch as its line, as [`write_batch`](crate::write_batch) does. Takes no memory.
///
/// A writer that keeps back what it was given, as a buffer does, is flushed if a run finds no batch to deliver. Once the
/// writer has failed, each batch is refused with [`WRITE_FAILED`], and nothing more is written or flushed.
///
/// ```text
/// let mut sink = LineSink::new(&mut out);
/// run(&rt, alloc, &query, source, Growth::DEFAULT, &TimedGate::new(&rt), &mut sink)?;
/// ```
#[derive(Drop)]
pub struct LineSink<'a, W: Write> {
    writer: &'a mut W,
    start: Snapshot<W>,
    state: State,
    /// Where lines are placed; it stands here so that it isn't cleared for each few of them.
    text: [u8; LINES_ROOM],
}

/// What became of the last call of the writer.
#[derive(Clone, Copy, PartialEq, Eq)]
enum State {
    Flushed,
    Written,
    Failed,
}

// What contracts see of it is what is known of the writer's bytes. A writer may report its bytes in mid-life that didn't at
// first; these aren't reported, so that a flush changes nothing.
impl<'a, W: Write> Model for LineSink<'a, W> {
    ghost use Rattle.plinq_lines.specs.LineSink.{Lines, known_since, StaysKnown};

    ghost Value = { Lines };

    ghost view = { λ s. record { bytes = known_since (W.contents s.start.value) (W.contents s.writer.now); writer = s.writer.ghost_name } };

    ghost invariant = { λ s. StaysKnown (W.contents s.start.value) (W.contents s.writer.now) };
}

impl<'a, W: Write> LineSink<'a, W> {
    /// One that writes to this writer.
    pub fn new(writer: &'a mut W) -> LineSink<'a, W>
        ensures bytes { result.bytes ≡ W.contents writer.old }
        ensures writer { result.writer ≡ writer.entry.ghost_name }
    {
        let start = Snapshot::of(&*writer);
        LineSink {
            writer,
            start,
            state: State::Flushed,
            text: [0; LINES_ROOM],
        }
    }

    /// The writer, which isn't flushed.
    pub fn into_writer(self) -> &'a mut W
        ensures bytes { Keeps self.entry.bytes (W.contents result.now) }
        ensures writer { result.ghost_name ≡ self.entry.writer }
    {
        let LineSink { writer, .. } = self;
        writer
    }

    /// Whether the writer has failed.
    pub fn has_failed(&self) -> bool {
        self.state == State::Failed
    }
}

impl<'a, W: Write> Sink for LineSink<'a, W> {
    type Item = i64;

    ghost accepts = { TakesLine };

    ghost refuses = { RefusesLine };

    fn batch(&mut self, items: &[i64]) -> Result<(), u32> {
        if self.has_failed() {
            return Err(WRITE_FAILED);
        }
        match write_batch_by(self.writer, items, &mut self.text) {
            Ok(()) => {
                self.state = State::Written;
                Ok(())
            }
            Err(_) => {
                self.state = State::Failed;
                Err(WRITE_FAILED)
            }
        }
    }

    fn batches_of(&mut self, size: usize, items: &[i64]) -> Result<(), u32> {
        if items.len() < size {
            return Ok(());
        }
        if self.has_failed() {
            return Err(WRITE_FAILED);
        }
        match write_batches_by(self.writer, size, items, &mut self.text) {
            Ok(()) => {
                self.state = State::Written;
                Ok(())
            }
            Err(_) => {
                self.state = State::Failed;
                Err(WRITE_FAILED)
            }
        }
    }

    fn idle(&mut self) {
        if self.state == State::Written {
            self.state = match self.writer.flush() {
                Ok(()) => State::Flushed,
                Err(_) => State::Failed,
            };
        }
    }
}

//! What is written by a sink that got batches one after another.
ghost use Rattle.std.specs.Prelude.{◌≡◌, ℤ, List};
ghost use Rattle.std.specs.List.{flat_map};
ghost use Rattle.std.specs.Io.KnownBytes.{Appends};
ghost use Rattle.plinq_merge.specs.declared.merge_fault.MergeFault.{MergeFault};
ghost use Rattle.plinq_merge.specs.Sending.{Leads};
ghost use Rattle.plinq_merge.specs.Mergers.{StopsShort};
ghost use Rattle.plinq_lines.specs.LineSink.{Lines, TakesLine, RefusesLine};
ghost use Rattle.plinq_lines.specs.AnswerText.{batch_line};
ghost use Rattle.plinq_lines.specs.Written.{AppendsBeginning};

/// If a [`LineSink`](crate::LineSink) takes batches one after another, their lines are written.
pub fn taken_batches_are_lines()
    ensures { (s s' : Lines) (bs : List (List ℤ)) → Leads TakesLine s bs s'
        → Appends s.bytes s'.bytes (flat_map batch_line bs) × (s'.writer ≡ s.writer) }
{}

/// If it takes the first of some batches, or memory ran out, a beginning of their lines is written.
pub fn first_batches_are_a_beginning_of_lines()
    ensures { (s s' : Lines) (bs : List (List ℤ)) (fault : MergeFault) → StopsShort TakesLine RefusesLine s bs fault s'
        → AppendsBeginning s.bytes s'.bytes (flat_map batch_line bs) × (s'.writer ≡ s.writer) }
{}

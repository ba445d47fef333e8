ghost use Rattle.std.specs.Prelude.{◌≡◌, true, [], Ok, IfOk, IfSome};
ghost use Rattle.plinq_text.specs.Lines.{is_whole};
ghost use Rattle.plinq_text.specs.Steady.{are_steady};
ghost use Rattle.plinq_text.specs.StepPatterns.{ArePatternsOf};
ghost use Rattle.plinq_rounds.specs.inner.Blocks.{AreSteadyBlocks, part_of, steady_bytes};

use crate::block::{Block, Span, part};
use crate::cutting::cut_blocks;
use plinq_collect::Same;
use plinq_groups::{MakeOf, MapEach, MapFault};
use plinq_mapped::to_vec_mapped;
use plinq_ops::Query;
use plinq_run::RunFault;
use plinq_settings::Degree;
use plinq_slice::list_source;
use plinq_text::{LineStep, Pattern, has_pattern, make_lines, patterns};
use std::alloc::{AllocError, Global};
use std::sync::Wait;
use std::thread::Threads;
use std::time::Clock;

/// How many bytes a block has at least, but for the last, unless patterns are compiled for it.
const BLOCK_BYTES: usize = 262_144;

/// Makes the output of a block of lines, unless a step changes by one of them. A worker compiles the patterns for itself, since no
/// other thread may use them.
#[derive(Drop)]
struct MakeBlock<'a> {
    steps: &'a [LineStep],
    text: &'a [u8],
    ghost steady: { are_steady steps.now ≡ true },
}

impl<'a> MakeOf for MakeBlock<'a> {
    type Item = Span;

    type Made = Block;

    ghost makes = { λ m span. Ok (steady_bytes m.steps.now (part_of m.text.now span)) };

    fn make_of(&self, alloc: Global, span: Span) -> Result<Option<Block>, MapFault> {
        match make_block(alloc, self.steps, part(self.text, span)) {
            Ok(made) => Ok(made),
            Err(_) => Err(MapFault::Memory),
        }
    }
}

/// What steady steps make of the lines of a text. Their patterns are compiled for it.
fn make_block(alloc: Global, steps: &[LineStep], text: &[u8]) -> Result<Option<Block>, AllocError>
    requires { are_steady steps.now ≡ true }
    ensures { IfOk result (λ made. made ≡ steady_bytes steps.now text.now) }
{
    let patterns = patterns(alloc, steps)?;
    make_with(alloc, steps, patterns.as_slice(), text)
}

/// The same with patterns that are compiled.
fn make_with(
    alloc: Global,
    steps: &[LineStep],
    patterns: &[Pattern],
    text: &[u8],
) -> Result<Option<Block>, AllocError>
    requires patterns { ArePatternsOf steps.now patterns.now }
    requires steady { are_steady steps.now ≡ true }
    ensures { IfOk result (λ made. made ≡ steady_bytes steps.now text.now) }
{
    let mut bytes = Vec::new(alloc);
    if make_lines(alloc, steps, patterns, text, &mut bytes)? {
        return Ok(Some(Block { bytes }));
    }
    Ok(None)
}

/// What steady steps make of the lines of a text, in blocks, unless one of them changes. A short text is one block, as is any for one
/// worker.
pub(crate) fn make_blocks<R>(
    rt: &R,
    alloc: Global,
    workers: Degree,
    steps: &[LineStep],
    patterns: &[Pattern],
    text: &[u8],
) -> Result<Option<Vec<Block>>, RunFault>
where
    R: Clock + Threads + Wait + Sync,
    requires patterns { ArePatternsOf steps.now patterns.now }
    requires whole { is_whole text.now ≡ true }
    requires steady { are_steady steps.now ≡ true }
    ensures { IfOk result (λ made. IfSome made (λ blocks. AreSteadyBlocks steps.now text.now blocks.items)) }
{
    if text.len() <= BLOCK_BYTES || workers.number() == 1 {
        return make_here(alloc, steps, patterns, text);
    }
    let Ok(spans) = cut_blocks(alloc, text, block_bytes(workers, patterns, text)) else {
        return Err(RunFault::Memory);
    };
    let count = spans.len();
    let Ok(source) = list_source(alloc, spans) else {
        return Err(RunFault::Memory);
    };
    let query = ordered_by(alloc, workers)?;
    let make = MakeBlock { steps, text };
    let (blocks, _) = to_vec_mapped(rt, alloc, &query, source, &MapEach { make })?;
    if blocks.len() < count {
        return Ok(None);
    }
    Ok(Some(blocks))
}

/// How many bytes a block has at least. If patterns are compiled for each block, there are no more blocks than workers.
fn block_bytes(workers: Degree, patterns: &[Pattern], text: &[u8]) -> usize {
    if !has_pattern(patterns) {
        return BLOCK_BYTES;
    }
    (text.len() / workers.number() as usize).max(BLOCK_BYTES)
}

/// The same on the caller's thread, in one block.
fn make_here(
    alloc: Global,
    steps: &[LineStep],
    patterns: &[Pattern],
    text: &[u8],
) -> Result<Option<Vec<Block>>, RunFault>
    requires patterns { ArePatternsOf steps.now patterns.now }
    requires whole { is_whole text.now ≡ true }
    requires steady { are_steady steps.now ≡ true }
    ensures { IfOk result (λ made. IfSome made (λ blocks. AreSteadyBlocks steps.now text.now blocks.items)) }
{
    let mut blocks = Vec::new(alloc);
    let Ok(made) = make_with(alloc, steps, patterns, text) else {
        return Err(RunFault::Memory);
    };
    let Some(block) = made else {
        return Ok(None);
    };
    match blocks.push(block) {
        Ok(()) => Ok(Some(blocks)),
        Err(_) => Err(RunFault::Memory),
    }
}

/// A query without a step, which keeps the order of its source, by so many workers.
fn ordered_by(alloc: Global, workers: Degree) -> Result<Query<Same<Span>>, RunFault>
    ensures { IfOk result (λ query. (query.ordered ≡ true) × (query.ops ≡ [])) }
{
    let Ok(query) = Query::new(alloc).as_ordered() else {
        return Err(RunFault::Memory);
    };
    match query.with_degree(workers.number()) {
        Ok(query) => Ok(query),
        Err(_) => Err(RunFault::Memory),
    }
}

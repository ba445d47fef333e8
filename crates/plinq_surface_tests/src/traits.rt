//! The traits that a caller implements or calls, by their methods.
ghost use Rattle.std.specs.Prelude.{◌≡◌, ◌<◌, ⊤};

use plinq_enumerator::Enumerator;
use plinq_keyed::{Guarded, KeyProperties, Record};
use plinq_lambda::{ExpandFault, Formula, Lambda};
use plinq_merge::{Cancel, Sink};
use plinq_partition::{Chunked, OrderablePartitioner, PairParts, RangeParts};
use plinq_run::{Gate, OpenGate};
use plinq_source::{ListSource, RangeSource, RepeatSource, Source, Step, TextSource};
use std::alloc::Global;
use std::test::*;

fn asked<S: Source>(source: &mut S) -> Step<S::Item> {
    source.next()
}

/// The sources, and what they are of.
fn of_bytes(list: &mut ListSource<u8>) -> Step<u8> {
    asked(list)
}

fn of_text(text: &mut TextSource) -> Step<i64> {
    asked(text)
}

fn of_range(range: &mut RangeSource) -> Step<i64> {
    asked(range)
}

fn of_copies(copies: &mut RepeatSource) -> Step<i64> {
    asked(copies)
}

fn recorded<V: Guarded>(value: &V) -> &[Record] {
    value.records()
}

fn of_enumerator<S: Source>(enumerator: &Enumerator<S>) -> &[Record] {
    recorded(enumerator)
}

fn mapped<L: Lambda>(lambda: &L, x: L::Item) -> Result<L::Item, u32> {
    lambda.map(x)
}

fn tested<L: Lambda>(lambda: &L, x: L::Item) -> Result<bool, u32> {
    lambda.test(x)
}

fn expanded<L: Lambda>(lambda: &L, alloc: Global, x: L::Item) -> Result<Vec<L::Item>, ExpandFault> {
    lambda.expand(alloc, x)
}

fn of_formula(formula: &Formula, x: i64) -> (Result<i64, u32>, Result<bool, u32>) {
    (mapped(formula, x), tested(formula, x))
}

fn promised<P: OrderablePartitioner>(parts: &P) -> (KeyProperties, bool) {
    (parts.properties(), parts.supports_dynamic())
}

/// The partitioners.
fn of_chunks<S: Source>(parts: &Chunked<S>) -> (KeyProperties, bool) {
    promised(parts)
}

fn of_values(parts: &RangeParts<u8>) -> (KeyProperties, bool) {
    promised(parts)
}

fn of_pairs(parts: &PairParts<u8>) -> (KeyProperties, bool) {
    promised(parts)
}

fn delivered<K: Sink>(sink: &mut K, items: &[K::Item]) -> Result<(), u32> {
    sink.batch(items)
}

fn delivered_by<K: Sink>(sink: &mut K, size: usize, items: &[K::Item]) -> Result<(), u32>
    requires { 0 < size }
{
    sink.batches_of(size, items)
}

fn delivered_singly<K: Sink>(sink: &mut K, items: &[K::Item]) -> Result<(), u32> {
    sink.batches_of_one(items)
}

fn cancelled<C: Cancel>(token: &mut C) -> (bool, bool) {
    (token.cancelled(0), token.told())
}

fn passed<G: Gate>(gate: &G) -> bool {
    gate.before_take(0);
    gate.after_chunk(0, 0);
    !gate.may_block()
}

/// A sink has one method to write.
#[derive(Drop)]
struct Takes {
    batches: u64,
}

impl Sink for Takes {
    type Item = i64;

    ghost accepts = { λ _ _ _. ⊤ };

    ghost refuses = { λ _ _ _ _. ⊤ };

    fn batch(&mut self, _: &[i64]) -> Result<(), u32> {
        self.batches = self.batches.wrapping_add(1);
        Ok(())
    }
}

fn is_delivered() -> bool {
    let mut sink = Takes { batches: 0 };
    delivered(&mut sink, &[4, 2]) == Ok(()) && sink.batches == 1
}

// (a number that is left is no batch)
fn are_delivered() -> bool {
    let mut sink = Takes { batches: 0 };
    delivered_by(&mut sink, 2, &[4, 2, 6]) == Ok(())
        && delivered_singly(&mut sink, &[4, 2]) == Ok(())
        && sink.batches == 3
}

#[test]
fn a_sink_and_a_gate(rt: HostRuntime) {
    assert!(&rt; is_delivered());
    assert!(&rt; are_delivered());
    assert!(&rt; passed(&OpenGate));
}

//! How sources are made, and what is asked of them by number.
ghost use Rattle.std.specs.Prelude.{◌≡◌, ◌≤◌, ◌+◌, ◌^◌, true, length, vec_len};
ghost use Rattle.plinq_keyed.specs.History.{tickets_below};

use plinq_enumerator::{Enumerator, Growth, GrowthFault};
use plinq_keyed::{Chunk, Guarded, Record};
use plinq_source::{
    ConcatSource, ListSource, OutOfMemory, RangeSource, RepeatSource, Source, SourceFault,
    TextSource,
};
use std::alloc::Global;
use std::test::*;

fn list(alloc: Global, items: Vec<u8>) -> ListSource<u8>
    requires { vec_len items ≤ 2 ^ 40 }
{
    ListSource::new(alloc, items)
}

fn refusing(alloc: Global, items: Vec<u8>, code: u32) -> ListSource<u8>
    requires { vec_len items ≤ 2 ^ 40 }
{
    ListSource::refusing(alloc, items, code)
}

fn text(alloc: Global, bytes: Vec<u8>) -> TextSource
    requires { vec_len bytes ≤ 2 ^ 40 }
{
    TextSource::new(alloc, bytes)
}

fn concat<A: Source<Item = i64>, B: Source<Item = i64>>(
    first: A,
    second: B,
) -> ConcatSource<i64, A, B>
    requires first_unasked { A.given first ≡ 0 }
    requires second_unasked { B.given second ≡ 0 }
    requires few { length (A.whole first).items + length (B.whole second).items ≤ 2 ^ 40 }
{
    ConcatSource::new(first, second)
}

fn enumerator<S: Source>(alloc: Global, source: S) -> Enumerator<S>
    requires { S.given source ≡ 0 }
{
    Enumerator::new(alloc, source)
}

fn asked<S: Source>(
    enumerator: &mut Enumerator<S>,
    ticket: u64,
    n: u64,
) -> Result<Chunk<S::Item>, OutOfMemory>
    requires least { 1 ≤ n }
    requires most { n ≤ 65536 }
    requires rising { tickets_below ticket (⟦<Enumerator<S> as Guarded>⟧.history enumerator.old) ≡ true }
{
    enumerator.ask(ticket, n)
}

fn closed<S: Source>(enumerator: &mut Enumerator<S>, ticket: u64) -> Result<(), OutOfMemory>
    requires { tickets_below ticket (⟦<Enumerator<S> as Guarded>⟧.history enumerator.old) ≡ true }
{
    enumerator.close(ticket)
}

fn recorded<S: Source>(enumerator: &Enumerator<S>) -> &[Record] {
    enumerator.records()
}

fn are_refused() -> bool {
    let growth: Result<Growth, GrowthFault> = Growth::new(0, 3, 512);
    let range: Result<RangeSource, SourceFault> = RangeSource::new(i64::MAX, 2);
    let repeated: Result<RepeatSource, SourceFault> = RepeatSource::new(7, u64::MAX);
    growth == Err(GrowthFault::Zero)
        && Growth::ONE.size(9) == 1
        && Growth::DEFAULT.size(3) == 2
        && matches!(range, Err(SourceFault::TooLarge))
        && matches!(repeated, Err(SourceFault::TooLarge))
}

#[test]
fn numbers_that_are_refused(rt: HostRuntime) {
    assert!(&rt; are_refused());
}

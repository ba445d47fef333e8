use plinq_source::{Ending, ListSource, RangeSource, RepeatSource, Source, Step, TextSource};

/// A source of one piece: one of the five that a document may describe, the list that refuses among them.
#[derive(Drop)]
pub enum PlainSource {
    /// A list of whole numbers, which ends or refuses.
    List(ListSource<i64>),
    /// The whole numbers of a text.
    Text(TextSource),
    /// Whole numbers one after another.
    Range(RangeSource),
    /// One whole number a number of times.
    Repeat(RepeatSource),
}

impl Source for PlainSource {
    ghost use Rattle.plinq_document.specs.PlainWalked.{plain_whole, plain_given, plain_walked};

    type Item = i64;

    ghost whole = { plain_whole };

    ghost given = { plain_given };

    ghost few = { λ s. (plain_walked s).few };

    ghost ends = { λ s. (plain_walked s).ends };

    ghost within = { λ s. (plain_walked s).within };

    // (inlined, since it runs once an item where a query asks for one at a time)
    #[inline(always)]
    fn next(&mut self) -> Step<i64> {
        match self {
            PlainSource::List(source) => source.next(),
            PlainSource::Text(source) => source.next(),
            PlainSource::Range(source) => source.next(),
            PlainSource::Repeat(source) => source.next(),
        }
    }

    fn fill(&mut self, items: &mut Vec<i64>, n: u64) -> Option<Ending> {
        match self {
            PlainSource::List(source) => source.fill(items, n),
            PlainSource::Text(source) => source.fill(items, n),
            PlainSource::Range(source) => source.fill(items, n),
            PlainSource::Repeat(source) => source.fill(items, n),
        }
    }
}

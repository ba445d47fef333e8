use crate::plain_source::PlainSource;
use plinq_source::{ConcatSource, Ending, Source, Step};

/// The source that a document describes.
#[derive(Drop)]
pub enum AnySource {
    /// One of the five that every version has.
    Plain(PlainSource),
    /// Two of these, one after the other.
    Concat(ConcatSource<i64, PlainSource, PlainSource>),
}

impl Source for AnySource {
    ghost use Rattle.plinq_document.specs.WalkedSources.{any_whole, any_given, any_walked};

    type Item = i64;

    ghost whole = { any_whole };

    ghost given = { any_given };

    ghost few = { λ s. (any_walked s).few };

    ghost ends = { λ s. (any_walked s).ends };

    ghost within = { λ s. (any_walked s).within };

    fn next(&mut self) -> Step<i64> {
        match self {
            AnySource::Plain(source) => source.next(),
            AnySource::Concat(source) => source.next(),
        }
    }

    fn fill(&mut self, items: &mut Vec<i64>, n: u64) -> Option<Ending> {
        match self {
            AnySource::Plain(source) => source.fill(items, n),
            AnySource::Concat(source) => source.fill(items, n),
        }
    }
}

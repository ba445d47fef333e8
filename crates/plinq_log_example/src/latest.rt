ghost use Rattle.plinq_aggregate.specs.Numbers.{picking};
ghost use Rattle.plinq_log_example.specs.Later.{later_record, later_record-lawful};

use crate::record::Record;
use plinq_aggregate::Aggregator;
use std::marker::PhantomData;

/// The record with the greatest time, and of several the last; of none there is none.
#[derive(Drop)]
pub(crate) struct Latest<'a>(pub(crate) PhantomData<&'a str>);

impl<'a> Aggregator for Latest<'a> {
    type Item = Record<'a>;

    type Acc = Option<Record<'a>>;

    type Out = Option<Record<'a>>;

    ghost folding = { λ _. picking later_record };

    fn seed(&self) -> Option<Record<'a>> {
        None
    }

    fn update(&self, latest: Option<Record<'a>>, record: Record<'a>) -> Option<Record<'a>> {
        self.combine(latest, Some(record))
    }

    fn combine(&self, first: Option<Record<'a>>, second: Option<Record<'a>>) -> Option<Record<'a>> {
        match (first, second) {
            (Some(a), Some(b)) => Some(if b.millis < a.millis { a } else { b }),
            (None, second) => second,
            (first, None) => first,
        }
    }

    fn result(&self, latest: Option<Record<'a>>) -> Option<Record<'a>> {
        latest
    }

    ghost lawful = { λ _. later_record-lawful };
}

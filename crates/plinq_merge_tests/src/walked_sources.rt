use plinq_source::{
    ConcatSource, Ending, ListSource, OutOfMemory, RangeSource, RepeatSource, Source, SourceFault,
    Step, TextSource,
};
use plinq_testing::says;
use std::alloc::Global;

/// Whether a source gives all that is expected of it, and three times its ending.
fn gives<S: Source<Item = i64>>(mut source: S, items: &[i64], ending: Step<i64>) -> bool {
    for item in items {
        if source.next() != Step::Item(*item) {
            return false;
        }
    }
    source.next() == ending && source.next() == ending && source.next() == ending
}

/// Whether a source that is asked for so many at once, and between for one, gives that up to its ending.
fn fills<S: Source<Item = i64>>(
    alloc: Global,
    mut source: S,
    n: u64,
    items: &[i64],
    ending: Ending,
) -> bool {
    let mut given = Vec::new(alloc);
    for _ in 0..100 {
        if given.reserve(n as usize).is_err() {
            return false;
        }
        if let Some(last) = source.fill(&mut given, n) {
            return last == ending && given.as_slice() == items;
        }
        if let Step::Item(item) = source.next() {
            if given.push(item).is_err() {
                return false;
            }
        }
    }
    false
}

fn text_source(alloc: Global, text: &[u8]) -> Option<TextSource> {
    match Vec::from_slice(alloc, text) {
        Ok(bytes) => {
            if bytes.len() > 100 {
                return None;
            }
            Some(TextSource::new(alloc, bytes))
        }
        Err(_) => None,
    }
}

/// The number 5 twice, and then 1, 2 and the refusal 7.
fn two_sources(alloc: Global) -> Option<ConcatSource<i64, RepeatSource, ListSource<i64>>> {
    let Ok(fives) = RepeatSource::new(5, 2) else {
        return None;
    };
    let Ok(items) = vec![in alloc; 1, 2] else {
        return None;
    };
    Some(ConcatSource::new(fives, ListSource::refusing(alloc, items, 7)))
}

fn is_text_walked(alloc: Global) -> bool {
    match text_source(alloc, b"3 1 x") {
        Some(text) => gives(text, &[3, 1], Step::Refused(1)),
        None => false,
    }
}

fn is_range_walked() -> bool {
    match RangeSource::new(-1, 3) {
        Ok(range) => gives(range, &[-1, 0, 1], Step::End),
        Err(_) => false,
    }
}

fn are_both_walked(alloc: Global) -> bool {
    match two_sources(alloc) {
        Some(both) => gives(both, &[5, 5, 1, 2], Step::Refused(7)),
        None => false,
    }
}

#[test]
fn sources_are_walked(rt: HostRuntime) {
    assert!(rt; is_text_walked(rt.alloc()));
    assert!(rt; is_range_walked());
    assert!(rt; are_both_walked(rt.alloc()));
}

fn text_fills(alloc: Global) -> bool {
    match text_source(alloc, b"3 1 x") {
        Some(text) => fills(alloc, text, 2, &[3, 1], Ending::Refused(1)),
        None => false,
    }
}

fn range_fills(alloc: Global) -> bool {
    match RangeSource::new(-1, 3) {
        Ok(range) => fills(alloc, range, 2, &[-1, 0, 1], Ending::End),
        Err(_) => false,
    }
}

fn both_fill(alloc: Global) -> bool {
    match two_sources(alloc) {
        Some(both) => fills(alloc, both, 2, &[5, 5, 1, 2], Ending::Refused(7)),
        None => false,
    }
}

#[test]
fn sources_fill_lists(rt: HostRuntime) {
    assert!(rt; text_fills(rt.alloc()));
    assert!(rt; range_fills(rt.alloc()));
    assert!(rt; both_fill(rt.alloc()));
}

fn is_word(given: Step<&str>, word: &str) -> bool {
    match given {
        Step::Item(given) => given == word,
        _ => false,
    }
}

/// A concatenation of two lists of one word each.
fn words_of<'a>(
    alloc: Global,
    one: &'a str,
    two: &'a str,
) -> Option<ConcatSource<&'a str, ListSource<&'a str>, ListSource<&'a str>>> {
    let Ok(first) = vec![in alloc; one] else {
        return None;
    };
    let Ok(second) = vec![in alloc; two] else {
        return None;
    };
    let first = ListSource::new(alloc, first);
    Some(ConcatSource::new(first, ListSource::new(alloc, second)))
}

/// Whether it is walked word by word.
fn are_words<'a>(alloc: Global, one: &'a str, two: &'a str) -> bool {
    let Some(mut source) = words_of(alloc, one, two) else {
        return false;
    };
    is_word(source.next(), one) && is_word(source.next(), two)
}

#[test]
fn a_concatenation_of_items_that_borrow(rt: HostRuntime) {
    let Ok(one) = format!(in rt.alloc(); "{}", 1) else {
        panic!(rt; "no room");
    };
    assert!(rt; are_words(rt.alloc(), one.as_str(), "2"));
}

#[test]
fn faults_in_words(rt: HostRuntime) {
    assert!(rt; says(rt.alloc(), &SourceFault::TooLarge, "source too large"));
    assert!(rt; says(rt.alloc(), &OutOfMemory, "out of memory"));
}

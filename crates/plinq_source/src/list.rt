ghost use Rattle.std.specs.Prelude.{◌≡◌, ◌≤◌, ◌^◌, vec_len, length, Some, None};
ghost use Rattle.plinq_source.specs.Trace.{ended_trace, list_ending};

use crate::ending::Ending;
use crate::source::Source;
use crate::step::Step;
use std::alloc::Global;
use std::mem::replace;

/// A list as a source: its items from the first on, and then the end or a refusal.
///
/// It serves if all items are in memory, and in tests, as a source whose every step is known. It ends with
/// [`Step::End`] if it was made by `new`, and with [`Step::Refused`] if it was made by `refusing`.
///
/// ```text
/// let mut source = ListSource::refusing(alloc, vec![in alloc; 3, 1]?, 7);
/// source.next()    // Step::Item(3)
/// source.next()    // Step::Item(1)
/// source.next()    // Step::Refused(7), and again however often it is asked
/// ```
#[derive(Drop)]
pub struct ListSource<T: Copy + Send> {
    items: Vec<T>,
    refusal: Option<u32>,
    next: usize,
    ghost few: { length items.items ≤ 2 ^ 40 },
    ghost within: { next ≤ length items.items },
}

impl<T: Copy + Send> ListSource<T> {
    /// The items of the list, then [`Step::End`].
    ///
    /// `_alloc` goes unused, since the list has an allocator of its own. Takes no memory.
    pub fn new(_alloc: Global, items: Vec<T>) -> ListSource<T>
        requires { vec_len items ≤ 2 ^ 40 }
        ensures whole { ⟦<ListSource<T> as Source>⟧.whole result ≡ ended_trace items.items (list_ending None) }
        ensures fresh { ⟦<ListSource<T> as Source>⟧.given result ≡ 0 }
    {
        ListSource {
            items,
            refusal: None,
            next: 0,
        }
    }

    /// The items of the list, then [`Step::Refused`] with this code. `_alloc` is as for `new`.
    pub fn refusing(_alloc: Global, items: Vec<T>, code: u32) -> ListSource<T>
        requires { vec_len items ≤ 2 ^ 40 }
        ensures whole { ⟦<ListSource<T> as Source>⟧.whole result ≡ ended_trace items.items (list_ending (Some code)) }
        ensures fresh { ⟦<ListSource<T> as Source>⟧.given result ≡ 0 }
    {
        ListSource {
            items,
            refusal: Some(code),
            next: 0,
        }
    }
}

impl<T: Copy + Send> Source for ListSource<T> {
    ghost use Rattle.plinq_source.specs.Walked.{list_whole, list_given, list_walked};

    type Item = T;

    ghost whole = { list_whole };

    ghost given = { list_given };

    ghost few = { λ s. (list_walked s).few };

    ghost ends = { λ s. (list_walked s).ends };

    ghost within = { λ s. (list_walked s).within };

    fn next(&mut self) -> Step<T> {
        if self.next < self.items.len() {
            let item = self.items[self.next];
            self.next += 1;
            Step::Item(item)
        } else {
            match self.refusal {
                None => Step::End,
                Some(code) => Step::Refused(code),
            }
        }
    }

    fn fill(&mut self, items: &mut Vec<T>, n: u64) -> Option<Ending> {
        let left = (self.items.len() - self.next) as u64;
        let after = self.next + n.min(left) as usize;
        // (a list of this call's own stays in registers, and isn't read and written back for each item)
        let mut list = replace(items, Vec::new(*items.allocator()));
        for place in self.next..after {
            list.push_reserved(self.items[place]);
        }
        *items = list;
        self.next = after;
        if n <= left {
            return None;
        }
        match self.refusal {
            None => Some(Ending::End),
            Some(code) => Some(Ending::Refused(code)),
        }
    }
}

ghost use Rattle.std.specs.Prelude.{◌≡◌, ◌≤◌, ◌+◌, ◌<◌, ◌^◌, ◌||◌, length};
ghost use Rattle.plinq_source.specs.Trace.{IsSourceEnding};
ghost use Rattle.plinq_keyed.specs.History.{some_source, reply, tells, same_tail, ending_tail};
ghost use Rattle.plinq_enumerator.specs.inner.Replays.{place_of, is_close};

use plinq_keyed::{Event, Record, Tail};
use plinq_source::Ending;

/// Where an enumerator stands: how many items it has handed out, and whether it was closed.
#[derive(Clone, Copy)]
pub(crate) struct Replay {
    pub(crate) given: u64,
    pub(crate) closed: bool,
}

/// The answer to a request, without its items: how many there are, and the tail.
#[derive(Clone, Copy)]
struct Answer {
    count: u64,
    tail: Option<Tail>,
}

impl Replay {
    pub(crate) const START: Replay = Replay {
        given: 0,
        closed: false,
    };

    /// Whether a record states the answer that it would get here, from a source of `len` items with that ending.
    pub(crate) fn answers(self, entry: &Record, len: u64, ending: Ending) -> bool
        requires within { self.given ≤ len }
        requires ends { IsSourceEnding (Some ending) }
        ensures { result ≡ tells entry.now (reply (some_source len (Some ending)) (place_of self) entry.now.asked) }
    {
        let answer = self.answer(entry.asked, len, ending);
        entry.first == self.given
            && entry.count == answer.count
            && is_same_tail(entry.tail, answer.tail)
    }

    /// What a source of `len` items with that ending answers here.
    fn answer(self, asked: Event, len: u64, ending: Ending) -> Answer
        requires within { self.given ≤ len }
        requires ends { IsSourceEnding (Some ending) }
        ensures count { result.count ≡ length (reply (some_source len (Some ending)) (place_of self) asked).items }
        ensures tail { result.tail ≡ (reply (some_source len (Some ending)) (place_of self) asked).tail }
    {
        match asked {
            Event::Ask(n) if !self.closed => {
                let left = len - self.given;
                if left < n {
                    Answer {
                        count: left,
                        tail: Some(tail_of(ending)),
                    }
                } else {
                    Answer {
                        count: n,
                        tail: None,
                    }
                }
            }
            _ => Answer {
                count: 0,
                tail: Some(Tail::Closed),
            },
        }
    }

    /// Where it stands after a request that was answered as the record says.
    pub(crate) fn after(self, entry: &Record) -> Replay
        requires { self.given + entry.now.count < 2 ^ 64 }
        ensures given { result.given ≡ self.given + entry.now.count }
        ensures closed { result.closed ≡ self.closed || is_close entry.now.asked }
    {
        let closes = match entry.asked {
            Event::Ask(_) => false,
            Event::Close => true,
        };
        Replay {
            given: self.given + entry.count,
            closed: self.closed || closes,
        }
    }
}

fn tail_of(ending: Ending) -> Tail
    requires { IsSourceEnding (Some ending) }
    ensures { ending_tail (Some ending) ≡ Some result }
{
    match ending {
        Ending::End => Tail::Ended,
        Ending::Refused(code) => Tail::Refused(code),
        Ending::Fault(_) => unreachable!(),
    }
}

fn is_same_tail(left: Option<Tail>, right: Option<Tail>) -> bool
    ensures { result ≡ same_tail left right }
{
    left == right
}

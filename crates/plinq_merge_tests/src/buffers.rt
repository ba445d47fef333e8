ghost use Rattle.std.specs.Prelude.{◌<◌};

use plinq_reorder::ReorderBuffer;
use std::alloc::Global;

/// Takes in an interval, if none of its keys came before and there is room. Returns the letters whose turn has come.
fn insert(
    buffer: &mut ReorderBuffer<char>,
    first: u64,
    end: u64,
    payload: char,
) -> Option<Option<char>>
    requires { first < end }
{
    if buffer.overlaps(first, end) {
        return None;
    }
    match buffer.insert(first, end, payload) {
        Ok(letter) => Some(letter),
        Err(_) => None,
    }
}

fn go_in_order(alloc: Global) -> bool {
    let mut buffer = ReorderBuffer::new(alloc);
    let later = insert(&mut buffer, 2, 3, 'c');
    let first = insert(&mut buffer, 0, 2, 'a');
    let overlaps = buffer.overlaps(1, 3);
    let next = buffer.take_next();
    let last = buffer.take_next();
    matches!((later, first), (Some(None), Some(Some('a'))))
        && overlaps
        && matches!((next, last), (Some('c'), None))
        && buffer.next_key() == 3
}

#[test]
fn intervals_go_in_the_order_of_their_keys(rt: HostRuntime) {
    assert!(rt; go_in_order(rt.alloc()));
}

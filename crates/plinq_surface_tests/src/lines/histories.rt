use plinq_keyed::{Event, Record, Tail};
use plinq_lines::write_history;
use plinq_source::Ending;
use std::alloc::Global;

const RECORDS: [Record; 4] = [
    Record {
        ticket: 0,
        asked: Event::Ask(512),
        first: 0,
        count: 512,
        tail: None,
    },
    Record {
        ticket: 3,
        asked: Event::Ask(1),
        first: 512,
        count: 0,
        tail: Some(Tail::Ended),
    },
    Record {
        ticket: 12,
        asked: Event::Ask(65_536),
        first: 512,
        count: 9,
        tail: Some(Tail::Refused(u32::MAX)),
    },
    Record {
        ticket: u64::MAX,
        asked: Event::Close,
        first: 521,
        count: 0,
        tail: Some(Tail::Closed),
    },
];

fn is_written(alloc: Global, records: &[Record], ending: Ending, lines: &[u8]) -> bool {
    let mut out = Vec::new(alloc);
    write_history(&mut out, records, ending).is_ok() && out.as_slice() == lines
}

#[test]
fn each_request_and_each_tail(rt: HostRuntime) {
    let lines =
        b"ticket 0 ask 512 first 0 count 512\nticket 3 ask 1 first 512 count 0 ended\nticket 12 ask 65536 first 512 count 9 \
          refused 4294967295\nticket 18446744073709551615 close first 521 count 0 closed\nrefused 7\n";
    assert!(rt; is_written(rt.alloc(), &RECORDS, Ending::Refused(7), lines));
}

#[test]
fn no_request(rt: HostRuntime) {
    assert!(rt; is_written(rt.alloc(), &[], Ending::End, b"end\n"));
}

use crate::narrow::Narrow;
use plinq_lines::{WriteFault, write_batch, write_ending};
use plinq_source::Ending;
use std::alloc::Global;

// (more numbers than are placed at once)
const LONG: [i64; 18] = [
    i64::MIN,
    -10,
    -1,
    0,
    1,
    9,
    10,
    99,
    100,
    999_999,
    i64::MAX,
    12,
    13,
    14,
    15,
    16,
    17,
    18,
];

const LINES: &[u8] =
    b"-12 345\n\n7\n-9223372036854775808 -10 -1 0 1 9 10 99 100 999999 9223372036854775807 12 13 14 15 16 17 18\n6\n78\nrefused 9\n";

/// Batches, and then an ending.
fn write_lines(out: &mut Narrow) -> Result<(), WriteFault> {
    write_batch(out, &[-12, 345])?;
    write_batch(out, &[])?;
    write_batch(out, &[7])?;
    write_batch(out, &LONG)?;
    write_batch(out, &[6])?;
    write_batch(out, &[78])?;
    write_ending(out, Ending::Refused(9))
}

/// Whether a writer with room for so many bytes took these of the lines, and then failed.
fn fails_at(alloc: Global, room: usize, at_once: usize) -> bool {
    let mut out = Narrow::new(alloc, room, at_once);
    write_lines(&mut out).is_err() && out.taken().len() == room && LINES.starts_with(out.taken())
}

fn is_written(out: Narrow) -> bool {
    let mut out = out;
    write_lines(&mut out).is_ok() && out.taken() == LINES
}

/// It fails at each place of each line.
#[test]
fn a_writer_that_fails_anywhere(rt: HostRuntime) {
    for at_once in [1, 2, 100] {
        for room in 0..LINES.len() {
            assert!(rt; fails_at(rt.alloc(), room, at_once), "with room for {room}");
        }
        assert!(rt; is_written(Narrow::new(rt.alloc(), LINES.len(), at_once)));
    }
}

#[test]
fn a_writer_that_is_interrupted(rt: HostRuntime) {
    let mut out = Narrow::new(rt.alloc(), 1_000, 1);
    out.interrupts = true;
    assert!(rt; is_written(out));
}

use plinq_keyed::{KeyProperties, Keyed};
use plinq_lines::write_parts;
use plinq_source::Ending;
use std::alloc::{AllocError, Global};

/// Three partitions, the second of which is empty.
fn three(alloc: Global) -> Result<Vec<Vec<Keyed<i64>>>, AllocError> {
    let first = [
        Keyed { key: 0, value: 5 },
        Keyed {
            key: u64::MAX,
            value: i64::MIN,
        },
    ];
    let mut parts = Vec::new(alloc);
    parts.push(Vec::from_slice(alloc, &first)?)?;
    parts.push(Vec::new(alloc))?;
    parts.push(Vec::from_slice(alloc, &[Keyed { key: 12, value: 0 }])?)?;
    Ok(parts)
}

fn are_written(alloc: Global, lines: &[u8]) -> bool {
    let properties = KeyProperties {
        in_each: true,
        across: false,
        normalized: true,
    };
    let Ok(parts) = three(alloc) else {
        return false;
    };
    let mut out = Vec::new(alloc);
    write_parts(&mut out, properties, &parts, Ending::Refused(3)).is_ok() && out.as_slice() == lines
}

#[test]
fn partitions(rt: HostRuntime) {
    let lines =
        b"properties true false true\n0: 0=5 18446744073709551615=-9223372036854775808\n1:\n2: 12=0\nrefused 3\n";
    assert!(rt; are_written(rt.alloc(), lines));
}

use plinq_lines::write_value;
use std::alloc::Global;

fn is_written(alloc: Global, value: Option<i128>, line: &str) -> bool {
    let mut out = Vec::new(alloc);
    write_value(&mut out, value).is_ok() && out.as_slice() == line.as_bytes()
}

// (no sum of 2^40 numbers comes to the last two)
#[test]
fn values(rt: HostRuntime) {
    for (value, line) in [
        (None, "none\n"),
        (Some(0), "0\n"),
        (Some(i128::MAX), "170141183460469231731687303715884105727\n"),
        (
            Some(i128::MIN),
            "-170141183460469231731687303715884105728\n",
        ),
    ] {
        assert!(rt; is_written(rt.alloc(), value, line), "{line}");
    }
}

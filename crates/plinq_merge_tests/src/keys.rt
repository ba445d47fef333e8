use plinq_keyed::{
    Keyed, check_across, check_in_each, check_normalized, handed_out_is_a_prefix,
    handed_out_keys_count_up, legality_counts_items,
};
use std::alloc::{AllocError, Global};
use std::test::Fail;

/// Partitions with these keys.
fn parts_of(alloc: Global, lists: &[&[u64]]) -> Result<Vec<Vec<Keyed<u8>>>, AllocError> {
    let mut parts = Vec::new(alloc);
    for list in lists {
        let mut part = Vec::new(alloc);
        for key in *list {
            part.push(Keyed {
                key: *key,
                value: 7,
            })?;
        }
        parts.push(part)?;
    }
    Ok(parts)
}

#[test]
fn checks_tell_the_key_properties(rt: HostRuntime) -> Result<(), Fail> {
    let parts = parts_of(rt.alloc(), &[&[0, 2], &[1]])?;
    assert!(rt; check_in_each(&parts));
    assert!(rt; !check_across(&parts));
    assert!(rt; check_normalized(&parts));
    Ok(())
}

#[test]
fn laws_can_be_called() {
    handed_out_is_a_prefix::<u8>();
    handed_out_keys_count_up::<u8>();
    legality_counts_items::<u8>();
}

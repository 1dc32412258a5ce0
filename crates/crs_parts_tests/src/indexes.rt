//! Indexes: the handles of each key, and what cleans and sweeps drop.
use crs_agenda::Handle;
use crs_index::{Index, Key};
use std::alloc::AllocError;
use std::test::Fail;

/// A lone symbol's key.
fn lone(class: u32, first: u32) -> Key {
    Key {
        class,
        first,
        second: 0,
        third: 0,
    }
}

fn put(index: &mut Index, key: Key, place: u32, serial: u32) -> Result<(), AllocError> {
    index.put(key, Handle { place, serial })
}

/// How many handles are under the key.
fn held(index: &Index, key: &Key) -> usize {
    match index.find(key) {
        None => 0,
        Some(number) => index.bucket(number).len(),
    }
}

#[test]
fn each_key_has_its_own_handles(rt: HostRuntime) -> Result<(), Fail> {
    let mut index = Index::new(rt.alloc());
    let keys = [
        lone(0, 1),
        lone(0, 16_383),
        lone(0, 16_384),
        lone(3, 1),
        Key {
            class: 3,
            first: 1,
            second: 0,
            third: 1,
        },
    ];
    for key in &keys {
        assert!(rt; held(&index, key) == 0);
        put(&mut index, *key, 0, 7)?;
        put(&mut index, *key, 1, 8)?;
    }
    for key in &keys {
        assert!(rt; held(&index, key) == 2);
    }
    assert!(rt; held(&index, &lone(1, 1)) == 0);
    Ok(())
}

#[test]
fn a_clean_drops_the_stale_of_one_bucket(rt: HostRuntime) -> Result<(), Fail> {
    let mut index = Index::new(rt.alloc());
    for first in 5..7 {
        put(&mut index, lone(2, first), 0, 1)?;
        put(&mut index, lone(2, first), 1, 1)?;
        put(&mut index, lone(2, first), 9, 1)?;
    }
    if let Some(number) = index.find(&lone(2, 5)) {
        index.clean(number, &[2, 1]);
    }
    assert!(rt; held(&index, &lone(2, 5)) == 1);
    assert!(rt; held(&index, &lone(2, 6)) == 3);
    Ok(())
}

#[test]
fn sweeps_keep_what_is_fresh(rt: HostRuntime) -> Result<(), Fail> {
    let mut index = Index::new(rt.alloc());
    let serials = [4u32, 9];
    let mut sweeps = 0u32;
    for first in 16_000..17_000 {
        if index.is_crowded() {
            index.sweep(&serials);
            sweeps = sweeps.saturating_add(1);
        }
        put(&mut index, lone(0, first), 1, first)?;
        put(&mut index, lone(0, first), 7, 9)?;
    }
    assert!(rt; sweeps == 2);
    put(&mut index, lone(0, 16_500), 1, 9)?;
    index.sweep(&serials);
    assert!(rt; held(&index, &lone(0, 16_500)) == 1);
    assert!(rt; index.find(&lone(0, 16_499)).is_none());
    assert!(rt; index.find(&lone(0, 16_999)).is_none());
    Ok(())
}

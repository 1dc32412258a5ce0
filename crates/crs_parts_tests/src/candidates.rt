//! Candidates: which held entries an event may have been, by window and up to a key.
use crate::histories::{Filled, entry};
use crs_base::Sym;
use crs_focus::candidates;
use crs_model::DateWindow;
use std::test::Fail;

#[test]
fn candidates_come_up_to_a_key(rt: HostRuntime) -> Result<(), Fail> {
    let alloc = rt.alloc();
    let mut filled = Filled::new(alloc);
    for (date, name) in [(1, 5), (3, 5), (3, 9), (3, 5), (6, 5), (7, 5)] {
        filled.add(date, name, None)?;
    }
    for (least, most, arrival, date, count) in [
        (None, None, 9, 9u32, 5),
        (None, None, 4, 6, 4),
        (None, None, 3, 3, 3),
        (None, None, 2, 3, 2),
        (Some(3), Some(6), 9, 9, 3),
        (Some(2), Some(2), 9, 9, 0),
        (Some(-4), Some(1), 9, 9, 1),
    ] {
        let until = entry(alloc, arrival, date as u64, 5, None)?;
        let window = DateWindow { least, most };
        let mut given: usize = 0;
        for candidate in candidates(&filled.history, Sym(5), window, &until) {
            assert!(rt; candidate.name == Sym(5));
            given = given.saturating_add(1);
        }
        assert!(rt; given == count);
    }
    Ok(())
}

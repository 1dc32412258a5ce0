//! Buffers: the order in which entries come out.
use crs_base::{Entry, Sym, SymList, Text};
use crs_buffer::Buffer;
use std::alloc::{AllocError, Global};
use std::process::Abort;
use std::rc::Rc;
use std::test::Fail;

fn entry(alloc: Global, arrival: u32, date: u64, text: &[u8]) -> Result<Rc<Entry>, AllocError> {
    Ok(Rc::new(
        alloc,
        Entry {
            arrival,
            date,
            name: Sym(0),
            args: SymList::from_slice(&[]),
            change: None,
            text: Text::new(alloc, text)?,
        },
    )?)
}

/// The arrival number of the entry that is released, or 9 for none.
fn arrival_released(buffer: &mut Buffer, h: u64) -> u32 {
    match buffer.release_before(h) {
        Some(entry) => entry.arrival,
        None => 9,
    }
}

fn put(
    buffer: &mut Buffer,
    alloc: Global,
    arrival: u32,
    date: u64,
    text: &[u8],
) -> Result<(), AllocError> {
    let entry = entry(alloc, arrival, date, text)?;
    buffer.put(entry)?;
    Ok(())
}

/// The arrival numbers of four entries that are released in turn.
fn four_released(buffer: &mut Buffer, dates: [u64; 4]) -> [u32; 4] {
    let [first, second, third, fourth] = dates;
    let first = arrival_released(buffer, first);
    let second = arrival_released(buffer, second);
    let third = arrival_released(buffer, third);
    [first, second, third, arrival_released(buffer, fourth)]
}

/// Fills a buffer with four entries.
fn fill(rt: &impl Abort, alloc: Global, buffer: &mut Buffer) -> Result<(), Fail> {
    assert_eq!(rt; buffer.first_date(), None);
    put(buffer, alloc, 0, 12, b"b")?;
    assert_eq!(rt; buffer.first_date(), Some(12));
    put(buffer, alloc, 1, 10, b"a")?;
    assert_eq!(rt; buffer.first_date(), Some(10));
    put(buffer, alloc, 2, 12, b"a")?;
    put(buffer, alloc, 3, 12, b"a")?;
    Ok(())
}

#[test]
fn entries_come_out_in_key_order(rt: HostRuntime) -> Result<(), Fail> {
    let mut buffer = Buffer::new(rt.alloc());
    fill(&rt, rt.alloc(), &mut buffer)?;
    assert_eq!(rt; four_released(&mut buffer, [10, 12, 12, 13]), [9, 1, 9, 2]);
    put(&mut buffer, rt.alloc(), 4, 12, b"a")?;
    assert_eq!(rt; four_released(&mut buffer, [13, 13, 13, 13]), [3, 4, 0, 9]);
    Ok(())
}

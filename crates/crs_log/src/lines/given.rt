/// A line with its number, from 1. A long line's bytes are not kept.
#[derive(Clone, Copy)]
pub enum Line<'a> {
    Plain { number: u64, bytes: &'a [u8] },
    Long { number: u64 },
}

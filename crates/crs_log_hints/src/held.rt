// The lines that the last piece of a log ends, as long as they can be refused.
use crs_base::{LINE_LIMIT, RawLine, first_line, line_bytes};
use memchr::memrchr;
use std::alloc::{AllocError, Global};

/// The last piece of a log, and the front of the line that it goes on with.
#[derive(Drop)]
pub struct HeldLines {
    /// Of a line that is too long no more than one byte above the limit.
    front: Vec<u8>,
    piece: Vec<u8>,
    /// The number of the line that the piece goes on with, from 1 on.
    number: u64,
}

/// How many bytes are counted at once: fewer than 256, so that their count is a byte, and sixteen can
/// be counted by one instruction.
const COUNTED: usize = 224;

/// How many line feeds stand in at most `COUNTED` bytes.
fn few_ended(bytes: &[u8]) -> u8 {
    bytes.iter().fold(
        0,
        |count: u8, byte| count.wrapping_add((*byte == b'\n') as u8),
    )
}

/// How many lines the bytes end.
fn ended_lines(bytes: &[u8]) -> u64 {
    let mut count: u64 = 0;
    for part in bytes.chunks(COUNTED) {
        count = count.saturating_add(few_ended(part) as u64);
    }
    count
}

/// The bytes behind the last line feed, or all of them.
fn behind_last_feed(bytes: &[u8]) -> &[u8] {
    match memrchr(b'\n', bytes) {
        Some(place) => bytes.get(place.saturating_add(1)..).unwrap_or(b""),
        None => bytes,
    }
}

/// The line of a text with this place, counted from 0.
fn line_at<'a>(text: &'a [u8], place: u64) -> Option<RawLine<'a>> {
    let mut rest = text;
    for _ in 0..place {
        if rest.is_empty() {
            return None;
        }
        let (_, more) = first_line(rest);
        rest = more;
    }
    if rest.is_empty() {
        return None;
    }
    let (line, _) = first_line(rest);
    Some(line)
}

impl HeldLines {
    /// Of a log of which nothing was read.
    pub fn new(alloc: Global) -> HeldLines {
        HeldLines {
            front: Vec::new(alloc),
            piece: Vec::new(alloc),
            number: 1,
        }
    }

    /// Takes the next piece. What the one before has ended is let go.
    pub fn feed(&mut self, piece: &[u8]) -> Result<(), AllocError> {
        let ended = ended_lines(self.piece.as_slice());
        if ended > 0 {
            self.front.clear();
        }
        let room = (LINE_LIMIT + 1).saturating_sub(self.front.len());
        let part = behind_last_feed(self.piece.as_slice());
        let kept = part.get(..room).unwrap_or(part);
        self.front.extend_from_slice(kept)?;
        self.number = self.number.saturating_add(ended);
        self.piece.clear();
        self.piece.extend_from_slice(piece)
    }

    /// The number of the line that the piece goes on with.
    pub fn number(&self) -> u64 {
        self.number
    }

    /// Whether the piece goes on with a line that began before it.
    pub fn goes_on(&self) -> bool {
        !self.front.is_empty()
    }

    /// The piece up to its last line feed.
    pub fn ended(&self) -> &[u8] {
        match memrchr(b'\n', self.piece.as_slice()) {
            Some(place) => self.piece.get(..place.saturating_add(1)).unwrap_or(b""),
            None => b"",
        }
    }

    /// The bytes of the line that the piece goes on with.
    fn first(&self, alloc: Global) -> Result<Vec<u8>, AllocError> {
        let mut bytes = Vec::new(alloc);
        bytes.extend_from_slice(self.front.as_slice())?;
        if !self.piece.is_empty() {
            let (line, _) = first_line(self.piece.as_slice());
            bytes.extend_from_slice(line.raw)?;
            if line.ended && bytes.last() == Some(&b'\r') {
                bytes.truncate(bytes.len().saturating_sub(1));
            }
        }
        Ok(bytes)
    }

    /// The bytes of the line with this number, or none where it isn't held.
    pub fn line(&self, alloc: Global, number: u64) -> Result<Vec<u8>, AllocError> {
        match number.checked_sub(self.number) {
            None => Ok(Vec::new(alloc)),
            Some(0) => self.first(alloc),
            Some(place) => {
                let mut bytes = Vec::new(alloc);
                if let Some(line) = line_at(self.piece.as_slice(), place) {
                    bytes.extend_from_slice(line_bytes(line))?;
                }
                Ok(bytes)
            }
        }
    }

    /// The number of the line that no line feed has ended yet.
    pub fn last_number(&self) -> u64 {
        self.number
            .saturating_add(ended_lines(self.piece.as_slice()))
    }

    /// The bytes of the line that no line feed has ended yet, which may be none.
    pub fn last_line(&self, alloc: Global) -> Result<Vec<u8>, AllocError> {
        self.line(alloc, self.last_number())
    }
}

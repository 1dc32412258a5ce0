/// One call of `read` as it began.
#[derive(Clone, Copy, Debug, PartialEq, Eq)]
pub struct Turn {
    /// The number of the input.
    pub input: u32,
    /// How many bytes were read of this input before the call.
    pub taken: usize,
    /// How many bytes were written before the call.
    pub written: usize,
    /// How many bytes the slice has that was to take the bytes.
    pub room: usize,
}

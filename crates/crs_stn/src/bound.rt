/// Says `t_to - t_from <= most`, in ticks. With no `most` it says nothing.
#[derive(Clone, Copy, Debug, PartialEq, Eq)]
pub struct Bound {
    /// The number of the point that the bound counts from.
    pub from: u8,
    /// The number of the point that it bounds.
    pub to: u8,
    /// At most `2^40` in size.
    pub most: Option<i64>,
}

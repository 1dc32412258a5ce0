/// What is waited for: a class, and up to three symbols (0 where there are fewer). All keys of a
/// class have one number of symbols.
#[derive(PartialEq, Eq, PartialOrd, Ord, Clone, Copy, Debug, Drop)]
pub struct Key {
    pub class: u32,
    pub first: u32,
    pub second: u32,
    pub third: u32,
}

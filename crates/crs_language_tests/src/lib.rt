//! The tests of the language of models: how it is written, read, printed and compiled, and what its
//! bounds and levels say.
#![tactic(auto)]

#[cfg(test)]
mod compile;
#[cfg(test)]
mod grammar;
#[cfg(test)]
mod levels;
#[cfg(test)]
mod networks;
#[cfg(test)]
mod parse;
#[cfg(test)]
mod print;
#[cfg(test)]
mod texts;

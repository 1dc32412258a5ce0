//! The tests of texts, lines, histories and candidates, watches, agendas, indexes and buffers.
#![tactic(auto)]

#[cfg(test)]
mod agendas;
#[cfg(test)]
mod basics;
#[cfg(test)]
mod buffers;
#[cfg(test)]
mod candidates;
#[cfg(test)]
mod histories;
#[cfg(test)]
mod indexes;
#[cfg(test)]
mod lines;
#[cfg(test)]
mod watches;

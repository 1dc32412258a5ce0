//! In which order the names of entries of one date come.
use crs_base::{Sym, Symbols};
use crs_model::{Kind, Name};
use std::alloc::{AllocError, Global};
use std::collections::BTreeMap;
use std::rc::Rc;

/// The bytes with which the canonical text of each entry of the name begins: behind the name stands a
/// bracket, a colon, or nothing, as its declaration tells.
fn beginning(alloc: Global, name: &Name, symbols: &Symbols) -> Result<Vec<u8>, AllocError> {
    let mut text = Vec::new(alloc);
    if name.name.0 < symbols.len() {
        text.extend_from_slice(symbols.text(name.name))?;
    }
    if name.arity > 0 {
        text.push(b'[')?;
        return Ok(text);
    }
    if let Kind::Attribute { .. } = name.kind {
        text.push(b':')?;
    }
    Ok(text)
}

/// Puts the names among the others, in the order of these bytes.
fn put_in_order(
    alloc: Global,
    order: &mut BTreeMap<Vec<u8>, Sym>,
    names: &[Name],
    symbols: &Symbols,
) -> Result<(), AllocError> {
    for name in names {
        order.insert(beginning(alloc, name, symbols)?, name.name)?;
    }
    Ok(())
}

/// By the number of each name, declared or derived, its rank among them, from 1, in the order in which
/// entries of one date come: by the texts with which they begin. All other numbers have the rank 0.
pub fn ranks_of(
    alloc: Global,
    names: &[Name],
    derived: &[Name],
    symbols: &Symbols,
) -> Result<Rc<Vec<u32>>, AllocError> {
    let mut order = BTreeMap::new(alloc);
    put_in_order(alloc, &mut order, names, symbols)?;
    put_in_order(alloc, &mut order, derived, symbols)?;
    let mut ranks = Vec::new(alloc);
    ranks.resize(symbols.len() as usize, 0)?;
    let mut rank = 0u32;
    for name in order.values() {
        rank = rank.saturating_add(1);
        if let Some(place) = ranks.get_mut(name.0 as usize) {
            *place = rank;
        }
    }
    Ok(Rc::new(alloc, ranks)?)
}

//! Symbols, lists, texts, counters of steps, and the key order of entries.
ghost use Rattle.std.specs.Prelude.{◌≡◌, ◌+◌, ◌<◌};

use crs_base::{Entry, List, Steps, Sym, SymList, SymRefused, Symbols, Text, is_symbol};
use std::alloc::{AllocError, Global};
use std::cmp::Ordering;
use std::marker::Brand;
use std::sync::ledger::{Blank, Ledger};
use std::test::Fail;

fn entry(alloc: Global, arrival: u32, date: u64, text: &[u8]) -> Result<Entry, AllocError> {
    Ok(Entry {
        arrival,
        date,
        name: Sym(0),
        args: SymList::from_slice(&[]),
        change: None,
        text: Text::new(alloc, text)?,
    })
}

#[test]
fn keys_compare_by_date_then_text_then_arrival(rt: HostRuntime) -> Result<(), Fail> {
    let alloc = rt.alloc();
    let first = entry(alloc, 7, 1, b"z")?;
    let second = entry(alloc, 5, 2, b"a[10]")?;
    let third = entry(alloc, 4, 2, b"a[9]")?;
    let fourth = entry(alloc, 6, 2, b"a[9]")?;
    assert!(rt; first.key_cmp(&second) == Ordering::Less);
    assert!(rt; second.key_cmp(&third) == Ordering::Less);
    assert!(rt; fourth.key_cmp(&third) == Ordering::Greater);
    assert!(rt; third.key_cmp(&third) == Ordering::Equal);
    Ok(())
}

#[test]
fn symbols_are_numbered_once(rt: HostRuntime) -> Result<(), Fail> {
    let mut symbols = Symbols::new(rt.alloc(), 2)?;
    assert!(rt; symbols.intern(b"heater_on") == Ok(Sym(0)));
    assert!(rt; symbols.intern(b"b1") == Ok(Sym(1)));
    assert!(rt; symbols.intern(b"heater_on") == Ok(Sym(0)));
    assert!(rt; symbols.intern(b"b2") == Err(SymRefused::Values { limit: 2 }));
    assert!(rt; symbols.find(b"b1") == Some(Sym(1)));
    assert!(rt; symbols.find(b"b2") == None);
    assert!(rt; symbols.text(Sym(1)) == b"b1".as_slice());
    assert!(rt; symbols.len() == 2);
    assert!(rt; symbols.room() == 0);
    Ok(())
}

#[test]
fn numbers_are_the_same_for_each_seed(rt: HostRuntime) -> Result<(), Fail> {
    for seed in [0, 1, 0x1319_8a2e_0370_7344, u64::MAX] {
        let mut symbols = Symbols::seeded(rt.alloc(), 3, seed);
        assert!(rt; symbols.intern(b"a") == Ok(Sym(0)));
        assert!(rt; symbols.intern(b"a_text_of_more_than_sixteen_bytes") == Ok(Sym(1)));
        assert!(rt; symbols.intern(b"a") == Ok(Sym(0)));
        assert!(rt; symbols.find(b"a_text_of_more_than_sixteen_bytes") == Some(Sym(1)));
        assert!(rt; symbols.find(b"a_text_of_more_than_sixteen_bytez") == None);
    }
    Ok(())
}

#[test]
fn a_symbol_has_up_to_64_symbol_bytes(rt: HostRuntime) -> Result<(), Fail> {
    assert!(rt; is_symbol(b"A.b-9_"));
    assert!(rt; is_symbol(&[b'x'; 64]));
    assert!(rt; !is_symbol(&[b'x'; 65]));
    assert!(rt; !is_symbol(b""));
    assert!(rt; !is_symbol(b"a b"));
    assert!(rt; !is_symbol(b"caf\xc3\xa9"));
    Ok(())
}

#[test]
fn lists_grow_and_shrink_at_the_end(rt: HostRuntime) -> Result<(), Fail> {
    let mut list = List::new(rt.alloc());
    assert!(rt; list.pop().is_none());
    list.push(Sym(3))?;
    list.push(Sym(4))?;
    list.set(0, Sym(5));
    assert!(rt; list.len() == 2);
    assert!(rt; list.get(0) == Some(&Sym(5)));
    assert!(rt; list.get(2) == None);
    assert!(rt; SymList::from_slice(list.as_slice()).as_slice() == [Sym(5), Sym(4)].as_slice());
    assert!(rt; list.pop() == Some(Sym(4)));
    assert!(rt; list.into_vec().as_slice() == [Sym(5)].as_slice());
    Ok(())
}

#[test]
fn a_text_keeps_its_bytes(rt: HostRuntime) -> Result<(), Fail> {
    let text = Text::new(rt.alloc(), b"a\x00\xff")?;
    assert!(rt; text.bytes() == b"a\x00\xff".as_slice());
    Ok(())
}

/// Takes as many steps.
fn take_steps<L: Ledger>(count: u8, steps: &mut Steps<L>)
    ensures { steps.new ≡ steps.old + count }
{
    for _i in 0..count {
        steps.tick();
    }
}

/// That the counter stands there is proved at each call.
fn stands_at<L: Ledger>(count: u8, _steps: &Steps<L>)
    requires { _steps.now ≡ count }
{}

fn count_apart<L: Ledger>(blank: Blank)
    requires name { blank.name ≡ L.name }
    requires parts { blank.parts ≡ L.parts }
    requires some { 0 < L.parts }
{
    let mut steps = Steps::<L>::new(blank);
    stands_at(0, &steps);
    take_steps(3, &mut steps);
    steps.tick();
    stands_at(4, &steps);
}

#[test]
fn a_counter_stands_at_the_count_of_its_ticks(_rt: HostRuntime) -> Result<(), Fail> {
    count_apart::<Brand>(Blank::new(1));
    Ok(())
}

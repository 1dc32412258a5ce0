//! Canonical texts with derived names and emits.
use crs_base::Symbols;
use crs_parse::read_models;
use crs_print::print_models;
use std::alloc::Global;
use std::test::Fail;

/// The canonical text of what a text means.
fn printed(alloc: Global, text: &[u8]) -> Result<Vec<u8>, Fail> {
    let mut symbols = Symbols::new(alloc, 1000)?;
    let models = read_models(alloc, text, &mut symbols)?;
    let printed = print_models(alloc, &models, &symbols)?;
    Ok(Vec::from_slice(alloc, printed.bytes())?)
}

const CANONICAL: &[u8] = b"message a 1
attribute v 0 in (on, off)
derived pair 2
derived none 0
prompt chronicle low {
  event(a[?x], t1)
  event(v: (*, on), t2)
  point z
  t2 - t1 in [1, 5]
  ?x in (p, q)
  noevent(a[?x], (t1, t2))
  emit(pair[?x, r], t1)
  emit(none, t2)
  emit(pair[s, ?x], t1)
}
chronicle high {
  event(pair[?x, *], t1)
  occurs((0, 1), none, (t1, t1 + 4))
}
";

#[test]
fn canonical_texts_are_printed_as_they_are_read(rt: HostRuntime) -> Result<(), Fail> {
    let alloc = rt.alloc();
    assert!(rt; printed(alloc, CANONICAL)?.as_slice() == CANONICAL);
    Ok(())
}

#[test]
fn derived_names_and_emits_go_last(rt: HostRuntime) -> Result<(), Fail> {
    let alloc = rt.alloc();
    let mixed: &[u8] = b"derived pair 02
message a 1
prompt chronicle low {
event(a[?x], t1)
emit ( pair[?x,r],t1 )
?x in (p, q)
}
attribute v 0 in (on, off)
derived none 0
chronicle c {
event(v: (*, on), t2)
emit(none, t2)
noevent(a[p], (t2, t2))
}
";
    let wanted: &[u8] = b"message a 1
attribute v 0 in (on, off)
derived pair 2
derived none 0
prompt chronicle low {
  event(a[?x], t1)
  ?x in (p, q)
  emit(pair[?x, r], t1)
}
chronicle c {
  event(v: (*, on), t2)
  noevent(a[p], (t2, t2))
  emit(none, t2)
}
";
    assert!(rt; printed(alloc, mixed)?.as_slice() == wanted);
    assert!(rt; printed(alloc, wanted)?.as_slice() == wanted);
    Ok(())
}

//! Canonical texts: what is read is printed in canonical form.
use crate::texts::{ALL_FORMS, CANONICAL};
use crs_base::Symbols;
use crs_parse::read_models;
use crs_print::print_models;
use std::alloc::Global;
use std::test::Fail;

/// The canonical text of what a text means.
fn printed(alloc: Global, text: &[u8]) -> Result<Vec<u8>, Fail> {
    let mut symbols = Symbols::new(alloc, 1000)?;
    let mut out = Vec::new(alloc);
    match read_models(alloc, text, &mut symbols) {
        Ok(models) => {
            let text = print_models(alloc, &models, &symbols)?;
            out.extend_from_slice(text.bytes())?;
        }
        Err(_) => out.extend_from_slice(b"refused")?,
    }
    Ok(out)
}

#[test]
fn canonical_texts_are_printed_as_they_are_read(rt: HostRuntime) -> Result<(), Fail> {
    let alloc = rt.alloc();
    assert!(rt; printed(alloc, CANONICAL)?.as_slice() == CANONICAL);
    assert!(rt; printed(alloc, ALL_FORMS)?.as_slice() == ALL_FORMS);
    Ok(())
}

#[test]
fn other_texts_are_printed_in_canonical_form(rt: HostRuntime) -> Result<(), Fail> {
    let alloc = rt.alloc();
    let wanted: &[u8] = b"message a 0
message b 0
chronicle c {
  event(a, t1)
  event(b, t2)
  point z
  z - t1 in [0, 7]
  occurs((1, 2), a, (t1, t2))
}
";
    let text: &[u8] =
        b"# models\r\n\t message  a 00\nmessage b 0\n\nchronicle c{\n point z\nevent ( a,t1 )level 0\n#z-t1 is one word\nevent(b,t2)\nz - t1 in [-0, 007]\noccurs((1,2),a,(t1+0,t2 - 00))\n}";
    assert!(rt; printed(alloc, text)?.as_slice() == wanted);
    Ok(())
}

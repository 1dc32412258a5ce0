//! Statements: the places that lines stand in, the lines that are none, and the parts that are written.
use crs_grammar::{Declaration, Statement, inside, outside, tokens};
use std::alloc::Global;
use std::process::Abort;
use std::test::Fail;

/// Whether a line is a statement outside all chronicles, and whether it is one inside a chronicle.
fn places(alloc: Global, line: &[u8]) -> Result<(bool, bool), Fail> {
    if 4096 < line.len() {
        return Ok((false, false));
    }
    let Some(tokens) = tokens(alloc, line)? else {
        return Ok((false, false));
    };
    Ok((
        outside(alloc, &tokens).is_ok(),
        inside(alloc, &tokens).is_ok(),
    ))
}

fn all_stand(
    rt: &impl Abort,
    alloc: Global,
    lines: &str,
    wanted: (bool, bool),
) -> Result<(), Fail> {
    for line in lines.lines() {
        assert!(rt; places(alloc, line.as_bytes())? == wanted, "{line}");
    }
    Ok(())
}

#[test]
fn statements_stand_in_their_places(rt: HostRuntime) -> Result<(), Fail> {
    let alloc = rt.alloc();
    let outer = "message a 0
message message 0009999999999999999
attribute v 1
attribute v 1 in(on)
\tattribute v 1 in ( on , off )\x20
chronicle -1{
";
    all_stand(&rt, alloc, outer, (true, false))?;
    let inner = "event(a, t1)
event ( event [ ? x , * , - ] : ( * , on ) , - ) level 00
point -
point - p in [0, 1]
t2 - t1 in [-inf, inf]
t2 - t1 in [-0, -007]
?x in (p)
?x in (in, inf)
?x != ?x
? x!=?y
noevent(a, (t, t))
noevent(a[?x], (t+1, t - 1))
noevent(a, (t-1, t))
occurs((0, 3), a, (t, t))
occurs((2, inf), v: (*, *), (t, t))
occurs((3, 2), a, (t, t))
hold(v: on, (t, t + 5))
hold(v[*]: ?x, (t, t))
hold(hold: *, (t, t))
 }\x20
";
    all_stand(&rt, alloc, inner, (false, true))?;
    Ok(())
}

#[test]
fn other_lines_are_no_statements(rt: HostRuntime) -> Result<(), Fail> {
    let alloc = rt.alloc();
    let neither = "
message a
message a -1
message a 00000000000000000000
message a 0 in (on)
message a 0 }
attribute v 1 in ()
attribute v 1 in (on,)
attribute v 1 in (on off)
attribute v in (on)
chronicle c
chronicle c {}
{
}}
event(a t1)
event(a,, t1)
event(a, t1) level
event(a, t1) level 1 2
event(a, t1) level -1
event(a[], t1)
event(a[?], t1)
event(v: (on), t1)
event(v: on, t1)
event(*, t1)
point
point p q
t2 - t1 in [inf, 5]
t2 - t1 in [0, -inf]
t2 -t1 in [0, 5]
t2 - t1 in [0; 5]
?x in ()
?x ! = ?y
?x != y
noevent(a, (t + -1, t))
occurs((inf, 1), a, (t, t))
hold(v: (on, off), (t, t))
";
    all_stand(&rt, alloc, neither, (false, false))
}

#[test]
fn an_attribute_has_its_parts(rt: HostRuntime) -> Result<(), Fail> {
    let alloc = rt.alloc();
    let line = tokens(alloc, b"attribute v 3 in (on, off)")?.ok_or("form")?;
    assert!(rt;
        matches!(
            outside(alloc, &line)?,
            Declaration::Attribute(b"v", 3, Some(values)) if values.len() == 2
        )
    );
    Ok(())
}

#[test]
fn a_bound_has_its_parts(rt: HostRuntime) -> Result<(), Fail> {
    let alloc = rt.alloc();
    let line = tokens(alloc, b"t2 - t1 in [-5, inf]")?.ok_or("form")?;
    match inside(alloc, &line)? {
        Statement::Between(d) => {
            assert!(rt; d.to == b"t2".as_slice() && d.from == b"t1".as_slice());
            assert!(rt; d.low == Some(-5) && d.high == None);
        }
        _ => assert!(rt; false),
    }
    Ok(())
}

//! Drills: the numbers that a seed draws, the log that is made of them, and its models.
use crs_drill::{Drill, drill_models, make_log};
use std::test::Fail;

#[test]
fn seven_draws_these_first(rt: HostRuntime) {
    let mut drill = Drill::new(7);
    for want in [
        337897, 1278240558, 449829614, 518142577, 1665781405, 704006134, 1298864186, 1688048241,
    ] {
        assert!(rt; drill.draw(2147483647) == want, "{want}");
    }
}

#[test]
fn seven_makes_two_lines(rt: HostRuntime) -> Result<(), Fail> {
    let log = make_log(rt.alloc(), 7, 2)?;
    assert!(rt; log.as_slice() == b"delay 8\n0 m0[u46]\n0 m0[u58]\nend\n".as_slice());
    let none = make_log(rt.alloc(), 7, 0)?;
    assert!(rt; none.as_slice() == b"delay 8\nend\n".as_slice());
    Ok(())
}

#[test]
fn the_models_begin_with_their_messages(rt: HostRuntime) {
    assert!(rt; drill_models().starts_with(b"message m0 1\n"));
}

#[test]
fn a_clock_mark_comes_with_each_sixteenth_line(rt: HostRuntime) -> Result<(), Fail> {
    let want: &[u8] = b"\
        delay 8\n0 m0[u46]\n0 m0[u58]\n0 m1[u53]\n1 m0[u24]\n0 m0[u47]\n4 m0[u37]\n\
        0 m0[u50]\n6 m0[u14]\n5 m6[u38]\n1 m0[u30]\n5 m0[u51]\n9 m0[u12]\n6 m0[u23]\n\
        8 m0[u63]\n10 m5[u22]\n5 m0[u11]\nclock 12\n12 m0[u4]\n10 m0[u45]\n14 m1[u50]\n\
        13 m0[u42]\n16 m1[u24]\n15 m1[u47]\n17 m2[u47]\n20 m1[u26]\n19 m0[u5]\n22 m1[u63]\n\
        25 m4[u51]\n26 m0[u52]\n27 m0[u49]\n24 m1[u14]\n30 m6[u9]\n28 m0[u20]\nclock 30\n\
        27 m0[u44]\n23 m1[u49]\nend\n\
        ";
    let log = make_log(rt.alloc(), 7, 34)?;
    assert!(rt; log.as_slice() == want);
    Ok(())
}

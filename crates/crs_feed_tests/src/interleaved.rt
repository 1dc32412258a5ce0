//! The order of turns decides nothing: the same logs have the same rises.
use crate::fixtures::{A, B, Came, From, PLAIN, PROMPT, Says, Step, first_unmet};
use crs_model::Mark;
use std::test::Fail;

/// At 13 both feeds have passed 12.
const BOTH: Came = Came::Rose(Mark::Clock(13), Some((10, 12)));

/// Once the first feed has ended, the second alone goes on.
const ALONE: Came = Came::Rose(Mark::Clock(20), None);

#[test]
fn line_by_line(rt: HostRuntime) -> Result<(), Fail> {
    let steps = &[
        Step::Line(From::First, Says::Delay(1), Came::Nothing),
        Step::Line(From::Second, Says::Event(12, B), Came::Nothing),
        Step::Line(From::First, Says::Event(10, A), Came::Nothing),
        Step::Line(From::Second, Says::Clock(13), Came::Nothing),
        Step::Line(From::First, Says::Clock(14), BOTH),
        Step::Line(From::Second, Says::Clock(20), Came::Nothing),
        Step::Line(From::First, Says::End, ALONE),
        Step::Horizon(20),
    ];
    assert_eq!(rt; first_unmet(rt.alloc(), PLAIN, 9, steps)?, None);
    Ok(())
}

#[test]
fn one_log_after_the_other(rt: HostRuntime) -> Result<(), Fail> {
    let steps = &[
        Step::Line(From::First, Says::Delay(1), Came::Nothing),
        Step::Line(From::First, Says::Event(10, A), Came::Nothing),
        Step::Line(From::First, Says::Clock(14), Came::Nothing),
        Step::Line(From::First, Says::End, Came::Nothing),
        Step::Line(From::Second, Says::Event(12, B), Came::Nothing),
        Step::Line(From::Second, Says::Clock(13), BOTH),
        Step::Line(From::Second, Says::Clock(20), ALONE),
        Step::Horizon(20),
    ];
    assert_eq!(rt; first_unmet(rt.alloc(), PLAIN, 9, steps)?, None);
    Ok(())
}

#[test]
fn the_end_of_all_is_the_last_rise(rt: HostRuntime) -> Result<(), Fail> {
    let steps = &[
        Step::Line(From::First, Says::Event(10, A), Came::Nothing),
        Step::Line(From::First, Says::End, Came::Nothing),
        Step::Line(From::Second, Says::Event(12, B), Came::Nothing),
        Step::Line(
            From::Second,
            Says::End,
            Came::Rose(Mark::Finish, Some((10, 12))),
        ),
        Step::Ended(From::First, true),
        Step::Ended(From::Second, true),
    ];
    assert_eq!(rt; first_unmet(rt.alloc(), PLAIN, 9, steps)?, None);
    Ok(())
}

#[test]
fn a_prompt_chronicle_waits_for_a_rise_alone(rt: HostRuntime) -> Result<(), Fail> {
    let steps = &[
        Step::Line(From::First, Says::Event(10, A), Came::Nothing),
        Step::Line(From::Second, Says::Event(12, B), Came::Nothing),
        Step::Line(From::First, Says::Clock(5), Came::Nothing),
        Step::Line(
            From::Second,
            Says::Clock(5),
            Came::Rose(Mark::Clock(5), Some((10, 12))),
        ),
    ];
    assert_eq!(rt; first_unmet(rt.alloc(), PROMPT, 9, steps)?, None);
    let steps = &[
        Step::Line(From::First, Says::Event(10, A), Came::Nothing),
        Step::Line(From::Second, Says::Event(12, B), Came::Nothing),
        Step::Line(From::First, Says::Clock(5), Came::Nothing),
        Step::Line(
            From::Second,
            Says::Clock(5),
            Came::Rose(Mark::Clock(5), None),
        ),
    ];
    assert_eq!(rt; first_unmet(rt.alloc(), PLAIN, 9, steps)?, None);
    Ok(())
}

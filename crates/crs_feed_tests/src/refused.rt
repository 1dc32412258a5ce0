//! Each feed refuses by clocks of its own.
use crate::fixtures::{A, B, Came, From, PLAIN, Says, Step, first_unmet};
use crs_engine::Refused;
use crs_model::Mark;
use std::test::Fail;

const LATE: Came = Came::Refused(Refused::Late {
    date: 5,
    horizon: 9,
});

#[test]
fn late_by_its_own_horizon(rt: HostRuntime) -> Result<(), Fail> {
    let steps = &[
        Step::Line(From::First, Says::Clock(9), Came::Nothing),
        Step::Line(From::First, Says::Event(5, A), LATE),
        Step::Line(From::Second, Says::Event(5, A), Came::Nothing),
        Step::Line(From::First, Says::Event(9, B), Came::Nothing),
        Step::Accepted(2),
        Step::Horizon(0),
        // its horizon stays where a greater delay would have it fall
        Step::Line(From::First, Says::Delay(7), Came::Nothing),
        Step::Line(From::First, Says::Clock(10), Came::Nothing),
        Step::Line(From::First, Says::Event(5, A), LATE),
        Step::Line(
            From::Second,
            Says::Clock(10),
            Came::Rose(Mark::Clock(9), None),
        ),
    ];
    assert_eq!(rt; first_unmet(rt.alloc(), PLAIN, 9, steps)?, None);
    Ok(())
}

#[test]
fn full_with_the_entries_of_all(rt: HostRuntime) -> Result<(), Fail> {
    let steps = &[
        Step::Full(false),
        Step::Line(From::First, Says::Event(3, A), Came::Nothing),
        Step::Line(From::Second, Says::Event(4, B), Came::Nothing),
        Step::Line(
            From::First,
            Says::Event(5, B),
            Came::Refused(Refused::Full { limit: 2 }),
        ),
        Step::Full(true),
        Step::Plans(1),
    ];
    assert_eq!(rt; first_unmet(rt.alloc(), PLAIN, 2, steps)?, None);
    Ok(())
}

#[test]
fn back_by_its_own_last_clock(rt: HostRuntime) -> Result<(), Fail> {
    let steps = &[
        Step::Line(From::First, Says::Clock(9), Came::Nothing),
        Step::Line(
            From::Second,
            Says::Clock(8),
            Came::Rose(Mark::Clock(8), None),
        ),
        Step::Line(From::First, Says::Clock(9), Came::Nothing),
        Step::Ended(From::First, false),
        Step::Line(
            From::First,
            Says::Clock(8),
            Came::Refused(Refused::Back { t: 8, last: 9 }),
        ),
    ];
    assert_eq!(rt; first_unmet(rt.alloc(), PLAIN, 9, steps)?, None);
    Ok(())
}

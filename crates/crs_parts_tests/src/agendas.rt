//! Agendas and calendars: what is due, and what a sweep drops.
ghost use Rattle.std.specs.Prelude.{◌≤◌, ◌<◌, ◌^◌};

use crs_agenda::{Agenda, Calendar, Handle};
use std::alloc::AllocError;
use std::test::Fail;

#[test]
fn an_agenda_gives_the_least_first(rt: HostRuntime) -> Result<(), Fail> {
    let mut agenda = Agenda::new(rt.alloc());
    agenda.put(5, 2)?;
    agenda.put(9, 3)?;
    agenda.put(5, 1)?;
    assert!(rt; agenda.due(6) == Some(1));
    assert!(rt; agenda.due(6) == Some(2));
    assert!(rt; agenda.due(6) == None);
    assert!(rt; agenda.remove(9, 3));
    assert!(rt; !agenda.remove(9, 3));
    Ok(())
}

const NONE: u32 = 99;

fn put(calendar: &mut Calendar, date: u64, place: u32) -> Result<(), AllocError>
    requires since { calendar.old.date ≤ date }
    requires bound { date < 2 ^ 45 }
    ensures { calendar.new.date ≤ calendar.old.date }
{
    calendar.put(date, Handle { place, serial: 7 })
}

/// The place of what is due.
fn due(calendar: &mut Calendar, h: u64) -> u32
    requires { calendar.old.date ≤ h }
    ensures { calendar.new.date ≤ h }
{
    match calendar.due(h) {
        None => NONE,
        Some(timed) => timed.handle.place,
    }
}

/// The places of what is due first, second and third.
fn due_thrice(calendar: &mut Calendar, h: u64) -> [u32; 3]
    requires { calendar.old.date ≤ h }
    ensures { calendar.new.date ≤ h }
{
    let first = due(calendar, h);
    let second = due(calendar, h);
    [first, second, due(calendar, h)]
}

fn put_six(calendar: &mut Calendar) -> Result<(), AllocError>
    requires { calendar.old.date ≤ 3 }
    ensures { calendar.new.date ≤ 3 }
{
    put(calendar, 40, 1)?;
    put(calendar, 3, 2)?;
    put(calendar, 40000, 3)?;
    put(calendar, 1100, 4)?;
    put(calendar, 1101, 5)?;
    put(calendar, 33, 6)
}

#[test]
fn a_calendar_gives_the_least_dates_first(rt: HostRuntime) -> Result<(), Fail> {
    let mut calendar = Calendar::new(rt.alloc());
    put_six(&mut calendar)?;
    assert_eq!(rt; due(&mut calendar, 3), NONE);
    assert_eq!(rt; due(&mut calendar, 4), 2);
    assert_eq!(rt; due(&mut calendar, 33), NONE);
    assert_eq!(rt; due_thrice(&mut calendar, 41), [6, 1, NONE]);
    put(&mut calendar, 41, 7)?;
    assert_eq!(rt; calendar.len(), 4);
    assert_eq!(rt; due_thrice(&mut calendar, 1101), [7, 4, NONE]);
    assert_eq!(rt; due_thrice(&mut calendar, 50000), [5, 3, NONE]);
    assert_eq!(rt; calendar.len(), 0);
    Ok(())
}

#[test]
fn a_sweep_drops_the_stale(rt: HostRuntime) -> Result<(), Fail> {
    let mut calendar = Calendar::new(rt.alloc());
    put(&mut calendar, 5, 0)?;
    put(&mut calendar, 5, 1)?;
    put(&mut calendar, 2000, 2)?;
    calendar.sweep(&[7, 8, 7]);
    assert_eq!(rt; calendar.len(), 2);
    assert_eq!(rt; due_thrice(&mut calendar, 3000), [0, 2, NONE]);
    Ok(())
}

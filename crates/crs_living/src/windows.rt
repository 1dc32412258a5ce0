ghost use Rattle.std.specs.Prelude.{◌≡◌, ◌<◌, ◌↔◌, length, IsTrue, OnOk, Some, false};
ghost use Rattle.crs_base.specs.Seen.{entry_of};
ghost use Rattle.crs_model.specs.Partial.{CanGoOn};
ghost use Rattle.crs_model.specs.Plans.{chronicle};
ghost use Rattle.crs_focus.specs.PlanLevels.{levels_in};
ghost use Rattle.crs_instance.specs.Followed.{IsStretchAt};
ghost use Rattle.crs_instance.specs.Instances.{IsOf, progress_at};
ghost use Rattle.crs_living.specs.Windows.{Settles, Passes, Begins, IsBegun};
ghost use Rattle.crs_living.specs.Judgings.{IsJudging, IsPassing, IsAbleBy, IsDoneBy, IsPassedBy, IsFollowedBy};
ghost use Rattle.crs_living.specs.JudgedWindows.{AreStepped, IsJudged, IsLostNowhere, IsMetTo, IsNotLostWith};
ghost use Rattle.crs_living.specs.Carried.{IsCarried, AreCarried};

use crate::judging::{Judging, Passing};
use crs_base::Entry;
use crs_focus::last_date;
use crs_instance::{Dated, Fork, Instance, progress_in, stretch_of};
use crs_model::{Progress, Stretch, Verdict};
use crs_watch::{begin, hangs_on_dates, is_safe, judge, pass, settle};
use std::alloc::AllocError;

/// The progress of a window once the entry is settled too.
fn settled(judging: &Judging<'_>, instance: &Instance, k: u8, entry: &Entry) -> Progress
    requires judging { IsJudging judging.now }
    requires of { IsOf judging.now.plan.now instance.now }
    requires window { k < length judging.now.plan.now.chronicle.windows }
    ensures { Settles judging.now.plan.now (entry_of entry.now) instance.now.partial instance.now.binding k (progress_at instance.now.progress k) result }
{
    let Some(stretch) = stretch_of(instance, judging.plan, k) else {
        return instance.progress(k);
    };
    let window = &judging.plan.chronicle.windows.as_slice()[k as usize];
    settle(
        window,
        instance.binding(),
        stretch,
        instance.progress(k),
        entry,
    )
}

/// The progress of a window of these dates once dates have passed.
fn passed_in<D: Dated>(
    passing: &Passing<'_>,
    dated: &D,
    k: u8,
    stretch: Stretch,
    progress: Progress,
) -> Progress
    requires passing { IsPassing passing.now }
    requires window { k < length passing.now.judging.plan.now.chronicle.windows }
    requires stretch { IsStretchAt passing.now.judging.plan.now (D.seen dated.now) k (Some stretch) }
    ensures { Passes passing.now.judging.plan.now passing.now.history.now passing.now.since passing.now.judging.h (D.seen dated.now).partial (D.seen dated.now).binding k progress result }
{
    let window = &passing.judging.plan.chronicle.windows.as_slice()[k as usize];
    pass(
        window,
        dated.binding(),
        stretch,
        progress,
        passing.history,
        passing.since as i64,
        passing.judging.h as i64,
    )
}

/// The progress of a window once dates have passed.
fn passed<D: Dated>(passing: &Passing<'_>, dated: &D, k: u8, progress: Progress) -> Progress
    requires passing { IsPassing passing.now }
    requires window { k < length passing.now.judging.plan.now.chronicle.windows }
    ensures { Passes passing.now.judging.plan.now passing.now.history.now passing.now.since passing.now.judging.h (D.seen dated.now).partial (D.seen dated.now).binding k progress result }
{
    let window = &passing.judging.plan.chronicle.windows.as_slice()[k as usize];
    // Looked at first: what is known of most windows hangs on no date, and where each event has sixteen
    // of them their dates took a twentieth of all instructions.
    if !hangs_on_dates(window) {
        return progress;
    }
    match stretch_of(dated, passing.judging.plan, k) {
        None => progress,
        Some(stretch) => passed_in(passing, dated, k, stretch, progress),
    }
}

/// The progress of a window of these dates at the date before the passing, for an instance that has more
/// than its parent.
fn begun_in<D: Dated>(
    passing: &Passing<'_>,
    parent: &Instance,
    fork: &D,
    k: u8,
    stretch: Stretch,
) -> Progress
    requires passing { IsPassing passing.now }
    requires window { k < length passing.now.judging.plan.now.chronicle.windows }
    requires stretch { IsStretchAt passing.now.judging.plan.now (D.seen fork.now) k (Some stretch) }
    ensures { Begins passing.now.judging.plan.now passing.now.history.now passing.now.since parent.now (D.seen fork.now) k result }
{
    if stretch_of(parent, passing.judging.plan, k).is_some() {
        return parent.progress(k);
    }
    let window = &passing.judging.plan.chronicle.windows.as_slice()[k as usize];
    begin(
        window,
        fork.binding(),
        stretch,
        passing.history,
        passing.since as i64,
    )
}

/// The progress of a window at the date before the passing, for an instance that has more than its
/// parent.
fn begun<D: Dated>(passing: &Passing<'_>, parent: &Instance, fork: &D, k: u8) -> Progress
    requires passing { IsPassing passing.now }
    requires window { k < length passing.now.judging.plan.now.chronicle.windows }
    ensures { Begins passing.now.judging.plan.now passing.now.history.now passing.now.since parent.now (D.seen fork.now) k result }
{
    match stretch_of(fork, passing.judging.plan, k) {
        None => parent.progress(k),
        Some(stretch) => begun_in(passing, parent, fork, k, stretch),
    }
}

/// The progress of a window at the date of the passing, for an instance that has more than its parent. Its
/// dates are looked up once for both steps.
fn carried<D: Dated>(passing: &Passing<'_>, parent: &Instance, fork: &D, k: u8) -> Progress
    requires passing { IsPassing passing.now }
    requires window { k < length passing.now.judging.plan.now.chronicle.windows }
    ensures { IsCarried passing.now parent.now (D.seen fork.now) k result }
{
    let Some(stretch) = stretch_of(fork, passing.judging.plan, k) else {
        return parent.progress(k);
    };
    let progress = begun_in(passing, parent, fork, k, stretch);
    let window = &passing.judging.plan.chronicle.windows.as_slice()[k as usize];
    if hangs_on_dates(window) {
        passed_in(passing, fork, k, stretch, progress)
    } else {
        progress
    }
}

/// Settles the entry in each window.
fn settle_windows(judging: &Judging<'_>, instance: &mut Instance, entry: &Entry)
    requires judging { IsJudging judging.now }
    requires of { IsOf judging.now.plan.now instance.old }
    ensures { AreStepped (λ k q. Settles judging.now.plan.now (entry_of entry.now) instance.old.partial instance.old.binding k (progress_at instance.old.progress k) q) (length judging.now.plan.now.chronicle.windows) instance.old instance.new }
{
    for k in 0..judging.plan.chronicle.windows.len() as u8 {
        let progress = settled(judging, instance, k, entry);
        instance.set_progress(k, progress);
    }
}

/// Passes the dates in each window.
#[inline(always)]
fn pass_windows(passing: &Passing<'_>, instance: &mut Instance)
    requires passing { IsPassing passing.now }
    requires of { IsOf passing.now.judging.plan.now instance.old }
    ensures { AreStepped (λ k q. Passes passing.now.judging.plan.now passing.now.history.now passing.now.since passing.now.judging.h instance.old.partial instance.old.binding k (progress_at instance.old.progress k) q) (length passing.now.judging.plan.now.chronicle.windows) instance.old instance.new }
{
    for k in 0..passing.judging.plan.chronicle.windows.len() as u8 {
        let progress = passed(passing, &*instance, k, instance.progress(k));
        instance.set_progress(k, progress);
    }
}

/// Settles the entry in each window of the instance, and passes the dates up to its date.
pub(crate) fn follow(passing: &Passing<'_>, instance: &mut Instance, entry: &Entry)
    requires passing { IsPassing passing.now }
    requires of { IsOf passing.now.judging.plan.now instance.old }
    requires at { passing.now.judging.h ≡ entry.now.date }
    ensures { IsFollowedBy passing.now (entry_of entry.now) instance.old instance.new }
{
    settle_windows(&passing.judging, instance, entry);
    pass_windows(passing, instance);
}

/// Passes the dates in each window of the instance.
pub(crate) fn go_on_to(passing: &Passing<'_>, instance: &mut Instance)
    requires passing { IsPassing passing.now }
    requires of { IsOf passing.now.judging.plan.now instance.old }
    ensures { IsPassedBy passing.now instance.old instance.new }
{
    pass_windows(passing, instance);
}

/// Begins the windows that hadn't begun for the parent, and gives the others their progress.
pub(crate) fn begin_windows(passing: &Passing<'_>, parent: &Instance, fork: &mut Instance)
    requires passing { IsPassing passing.now }
    requires of { IsOf passing.now.judging.plan.now parent.now }
    requires fork { IsOf passing.now.judging.plan.now fork.old }
    ensures { IsBegun passing.now.judging.plan.now passing.now.history.now passing.now.since parent.now fork.old fork.new }
{
    for k in 0..passing.judging.plan.chronicle.windows.len() as u8 {
        let progress = begun(passing, parent, &*fork, k);
        fork.set_progress(k, progress);
    }
}

/// Fills the list with the progress that each window of the fork has at the date of the passing.
pub(crate) fn carry_windows(
    passing: &Passing<'_>,
    parent: &Instance,
    fork: &Fork<'_>,
    progress: &mut Vec<Progress>,
) -> Result<(), AllocError>
    requires passing { IsPassing passing.now }
    ensures { OnOk result (AreCarried passing.now parent.now fork.now (length passing.now.judging.plan.now.chronicle.windows) progress.new.items) }
{
    progress.clear();
    for k in 0..passing.judging.plan.chronicle.windows.len() as u8 {
        progress.push(carried(passing, parent, fork, k))?;
    }
    Ok(())
}

/// The verdict of a window, which waits where it hasn't begun.
#[inline(always)]
fn verdict<D: Dated>(judging: &Judging<'_>, dated: &D, k: u8, progress: Progress) -> Verdict
    requires judging { IsJudging judging.now }
    requires window { k < length judging.now.plan.now.chronicle.windows }
    ensures { IsJudged judging.now.plan.now judging.now.h (D.seen dated.now) k progress result }
{
    let Some(stretch) = stretch_of(dated, judging.plan, k) else {
        return Verdict::Waiting;
    };
    let window = &judging.plan.chronicle.windows.as_slice()[k as usize];
    judge(window, stretch, progress, judging.h as i64)
}

/// Whether the window is lost. Its dates are looked up only where its progress leaves that open.
#[inline(always)]
fn is_lost<D: Dated>(judging: &Judging<'_>, dated: &D, k: u8, progress: Progress) -> bool
    requires judging { IsJudging judging.now }
    requires window { k < length judging.now.plan.now.chronicle.windows }
    ensures { result ≡ false ↔ IsNotLostWith judging.now.plan.now judging.now.h (D.seen dated.now) k progress }
{
    let window = &judging.plan.chronicle.windows.as_slice()[k as usize];
    if is_safe(window, progress) {
        return false;
    }
    verdict(judging, dated, k, progress) == Verdict::Lost
}

/// Whether some window is lost, where this is their progress.
pub(crate) fn has_lost<D: Dated>(judging: &Judging<'_>, dated: &D, progress: &[Progress]) -> bool
    requires judging { IsJudging judging.now }
    ensures { result ≡ false ↔ IsLostNowhere judging.now.plan.now judging.now.h (D.seen dated.now) progress.now (length judging.now.plan.now.chronicle.windows) }
{
    for k in 0..judging.plan.chronicle.windows.len() as u8 {
        if is_lost(judging, dated, k, progress_in(progress, k)) {
            return true;
        }
    }
    false
}

/// Whether each window is met.
fn are_met(judging: &Judging<'_>, instance: &Instance) -> bool
    requires judging { IsJudging judging.now }
    ensures { IsTrue result ↔ IsMetTo judging.now.plan.now judging.now.h instance.now (length judging.now.plan.now.chronicle.windows) }
{
    for k in 0..judging.plan.chronicle.windows.len() as u8 {
        if verdict(judging, instance, k, instance.progress(k)) != Verdict::Met {
            return false;
        }
    }
    true
}

/// Whether dates that meet the bounds exist with each awaited event at or after the date `h`.
pub(crate) fn can_go_on(judging: &Judging<'_>, instance: &Instance) -> bool
    requires judging { IsJudging judging.now }
    requires of { IsOf judging.now.plan.now instance.now }
    ensures { IsTrue result ↔ CanGoOn (chronicle judging.now.plan.now) (levels_in judging.now.plan.now judging.now.focus) instance.now.partial judging.now.h }
{
    match last_date(judging.plan, judging.focus, instance) {
        None => true,
        Some(last) => judging.h as i64 <= last,
    }
}

/// Whether the awaited events can come at or after h, and no window is lost then.
pub(crate) fn is_able(judging: &Judging<'_>, instance: &Instance) -> bool
    requires judging { IsJudging judging.now }
    requires of { IsOf judging.now.plan.now instance.now }
    ensures { IsTrue result ↔ IsAbleBy judging.now instance.now }
{
    can_go_on(judging, instance) && !has_lost(judging, instance, instance.all_progress())
}

/// Whether each event is bound and each window met.
#[inline(always)]
pub fn is_done(judging: &Judging<'_>, instance: &Instance) -> bool
    requires judging { IsJudging judging.now }
    ensures { IsTrue result ↔ IsDoneBy judging.now instance.now }
{
    instance.is_whole() && are_met(judging, instance)
}

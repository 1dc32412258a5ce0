//! What hangs on the plan alone.
ghost use Rattle.std.specs.Prelude.{◌≡◌, ◌<◌, IsTrue, length};
ghost use Rattle.crs_waiting.specs.Links.{hook_at, linked_by};

use crate::hooks::{Hook, Hooks};
use crs_model::Plan;
use std::marker::Model;

/// It is after each date of an entry.
const END: u64 = 1 << 42;

/// A proper plan, its hooks, and whether levels are read.
#[derive(Drop)]
pub struct Chart<'a> {
    pub plan: &'a Plan,
    pub hooks: &'a Hooks,
    pub focus: bool,
}

impl<'a> Model for Chart<'a> {
    ghost use Rattle.std.specs.Coded.{codes};
    ghost use Rattle.crs_waiting.specs.contracts.hooks.Hooks as hooks_struct;
    ghost use Rattle.crs_waiting.specs.Charts.{ChartState, IsChart};

    ghost Value = { ChartState };

    ghost coded = { Prim.hlevel (codes, hooks_struct.the_row.coded) };

    ghost view = { λ c. record { plan = c.plan.now; hooks = c.hooks.now; focus = c.focus } };

    ghost invariant = { λ c. IsChart (record { plan = c.plan.now; hooks = c.hooks.now; focus = c.focus }) };
}

impl<'a> Chart<'a> {
    ghost use Rattle.crs_waiting.specs.Charts.{IsChart};

    pub fn plan(&self) -> &'a Plan
        ensures same { result.now ≡ self.now.plan }
        ensures is { IsChart self.now }
    {
        self.plan
    }

    /// Whether levels are read.
    pub fn focus(&self) -> bool
        ensures { result ≡ self.now.focus }
    {
        self.focus
    }

    /// How many events the chronicle has.
    pub fn events(&self) -> u8
        ensures { result ≡ length self.now.plan.chronicle.events }
    {
        self.plan.chronicle.events.len() as u8
    }

    /// How many windows it has.
    pub fn windows(&self) -> u8
        ensures { result ≡ length self.now.plan.chronicle.windows }
    {
        self.plan.chronicle.windows.len() as u8
    }

    /// Whether it has none.
    pub fn is_windowless(&self) -> bool
        ensures none { IsTrue result → length self.now.plan.chronicle.windows ≡ 0 }
        ensures is { IsChart self.now }
    {
        self.plan.chronicle.windows.len() == 0
    }

    /// By which date an event can come that an instance waits for, where it was judged at `h`: those of
    /// a prompt chronicle may take an entry of any date.
    pub fn linked_by(&self, h: u64) -> u64
        ensures { result ≡ linked_by self.now.plan h }
    {
        if self.plan.chronicle.prompt { END } else { h }
    }

    /// What an event looks for.
    pub fn event_hook(&self, event: u8) -> &'a Hook
        requires { event < length self.now.plan.chronicle.events }
        ensures { result.now ≡ hook_at self.now.hooks.events.items event }
    {
        &self.hooks.events.as_slice()[event as usize]
    }

    /// What a window looks for.
    pub fn window_hook(&self, k: u8) -> &'a Hook
        requires { k < length self.now.plan.chronicle.windows }
        ensures { result.now ≡ hook_at self.now.hooks.windows.items k }
    {
        &self.hooks.windows.as_slice()[k as usize]
    }
}

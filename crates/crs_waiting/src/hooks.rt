//! Under which keys instances wait for entries.
ghost use Rattle.std.specs.Prelude.{◌≡◌, ◌<◌, ◌≤◌, ◌+◌, ◌^◌, ◌==◌, None, true, cond, map, length, slice_get, IfOk, IfSome};
ghost use Rattle.std.specs.List.{AllZip};
ghost use Rattle.crs_model.specs.Bindings.{look_of};
ghost use Rattle.crs_model.specs.Models.{Var};
ghost use Rattle.crs_model.specs.Plans.{chronicle, IsProper};
ghost use Rattle.crs_model.specs.SeenModels.{term_of, body_of, window_of};
ghost use Rattle.crs_waiting.specs.Hooks.{name_of, terms_of, Picks, IsHookOf, IsHookOfEvent, IsHookOfWindow, AreHooks, key_with, key_of, picked_symbol, picked_argument, picked_symbols, picked_arguments, IsPart, IsAmong, part_of};
ghost use Rattle.crs_waiting.specs.Links.{hook_at};
ghost use Rattle.crs_waiting.specs.Named.{IsFirst, AreFirsts, AreNexts, AreNamed};
ghost use Rattle.crs_waiting.specs.Orders.{AreOrdered};
ghost use Rattle.std.proofs.Props.{props};

use crate::befores::before_of;
use crs_base::{Entry, Sym};
use crs_index::Key;
use crs_model::{Binding, Body, EventDef, Plan, Term, Window};
use std::alloc::{AllocError, Global};
use std::rc::Rc;

/// A variable of a pattern, and the place of the argument that it stands for.
#[derive(Clone, Copy, Drop)]
pub struct Pick {
    pub variable: u8,
    pub argument: u8,
}

/// What is looked for: entries of a name, of which up to three arguments are variables' symbols. Of an
/// event also another one that comes before it: it isn't waited for before that is bound.
#[derive(Clone, Copy, Drop)]
pub struct Hook {
    pub name: Sym,
    pub first: Option<Pick>,
    pub second: Option<Pick>,
    pub third: Option<Pick>,
    pub before: Option<u8>,
}

/// The symbols of the variables that a hook picks, as far as they are known.
#[derive(Clone, Copy, Drop)]
pub struct Symbols {
    pub first: Option<Sym>,
    pub second: Option<Sym>,
    pub third: Option<Sym>,
}

/// The first variable among the terms that isn't passed over.
fn pick_of(terms: &[Term], passed: &[u8]) -> Option<Pick>
    ensures { Picks (map term_of terms.now) result }
{
    for place in 0..terms.len() {
        let Ok(argument) = u8::try_from(place) else {
            return None;
        };
        if let Term::Var(variable) = terms[place] {
            if !passed.contains(&variable) {
                return Some(Pick { variable, argument });
            }
        }
    }
    None
}

/// Passes over the picked variable from now on.
fn pass_over(passed: &mut Vec<u8>, pick: Option<Pick>) -> Result<(), AllocError> {
    if let Some(pick) = pick {
        passed.push(pick.variable)?;
    }
    Ok(())
}

/// A hook that picks the first three variables among the terms that aren't passed over: instances that
/// join by two wait under both, so that an entry meets those alone that have both of its symbols. By the
/// first variable alone, a log whose entries all share that took time by its square.
fn hook_with(
    name: Sym,
    terms: &[Term],
    mut passed: Vec<u8>,
    before: Option<u8>,
) -> Result<Hook, AllocError>
    ensures hook { IfOk result (λ h. IsHookOf name (map term_of terms.now) h) }
    ensures before { IfOk result (λ h. h.before ≡ before) }
{
    let first = pick_of(terms, passed.as_slice());
    pass_over(&mut passed, first)?;
    let second = pick_of(terms, passed.as_slice());
    pass_over(&mut passed, second)?;
    let third = pick_of(terms, passed.as_slice());
    Ok(Hook {
        name,
        first,
        second,
        third,
        before,
    })
}

fn hook_of(alloc: Global, body: &Body) -> Result<Hook, AllocError>
    ensures { IfOk result (λ h. IsHookOf (name_of (body_of body.now)) (terms_of (body_of body.now)) h) }
{
    let none = Vec::new(alloc);
    match body {
        Body::NoEvent(pattern) => hook_with(pattern.name, pattern.terms.as_slice(), none, None),
        Body::Occurs { pattern, .. } => {
            hook_with(pattern.name, pattern.terms.as_slice(), none, None)
        }
        Body::Hold { name, terms, .. } => hook_with(*name, terms.as_slice(), none, None),
    }
}

/// Whether the variable is among the terms.
fn is_in(terms: &[Term], variable: u8) -> bool {
    for term in terms {
        if let Term::Var(other) = term {
            if *other == variable {
                return true;
            }
        }
    }
    false
}

/// Whether the pattern of another event than this one has the variable.
fn is_elsewhere(events: &[EventDef], event: usize, variable: u8) -> bool {
    for (other, def) in events.iter().enumerate() {
        if other != event && is_in(def.pattern.terms.as_slice(), variable) {
            return true;
        }
    }
    false
}

/// The variables among the terms of the event's pattern that no other event has: an instance that waits
/// for the event never knows them, so that an entry would look under keys that nobody waits under.
fn lone_variables(
    alloc: Global,
    events: &[EventDef],
    event: usize,
    terms: &[Term],
) -> Result<Vec<u8>, AllocError> {
    let mut lone = Vec::new(alloc);
    for term in terms {
        if let Term::Var(variable) = term {
            if !is_elsewhere(events, event, *variable) {
                lone.push(*variable)?;
            }
        }
    }
    Ok(lone)
}

fn event_hook(alloc: Global, plan: &Plan, event: u8, before: Option<u8>) -> Result<Hook, AllocError>
    requires event { event < length plan.now.chronicle.events }
    ensures hook { IfOk result (λ h. IfSome (slice_get (chronicle plan.now).events event) (λ v. IsHookOfEvent v h)) }
    ensures before { IfOk result (λ h. h.before ≡ before) }
{
    let events = plan.chronicle.events.as_slice();
    let def = &events[event as usize];
    let terms = def.pattern.terms.as_slice();
    let lone = lone_variables(alloc, events, event as usize, terms)?;
    hook_with(def.pattern.name, terms, lone, before)
}

/// The hooks of the events. Where the order is told in which entries of one date come, each names an
/// event that comes before its own, if there is one.
fn event_hooks(
    alloc: Global,
    plan: &Plan,
    focus: bool,
    ranks: &[u32],
    told: bool,
) -> Result<Vec<Hook>, AllocError>
    requires proper { IsProper plan.now }
    ensures hooks { IfOk result (λ v. AllZip IsHookOfEvent (chronicle plan.now).events v.items) }
    ensures order { IfOk result (λ v. AreOrdered plan.now focus ranks.now v.items) }
{
    let mut hooks = Vec::new(alloc);
    for event in 0..plan.chronicle.events.len() as u8 {
        let before = before_of(plan, focus, ranks, told, event);
        let hook = event_hook(alloc, plan, event, before)?;
        hooks.push(hook)?;
    }
    Ok(hooks)
}

fn window_hooks(alloc: Global, windows: &[Window]) -> Result<Vec<Hook>, AllocError>
    ensures { IfOk result (λ v. AllZip IsHookOfWindow (map window_of windows.now) v.items) }
{
    let mut hooks = Vec::new(alloc);
    for window in windows {
        let hook = hook_of(alloc, &window.body)?;
        hooks.push(hook)?;
    }
    Ok(hooks)
}

/// So many names have a place in a list by their numbers at most, which bounds its memory whatever the
/// numbers. A model declares 256 at most, and they have the first numbers.
const PLACES: usize = 1024;

/// How many places those names of the hooks need that have one.
fn places_for(hooks: &[Hook]) -> usize
    ensures { result ≤ 1024 }
{
    let mut places = 0;
    for hook in hooks {
        let place = hook.name.0 as usize;
        if place < PLACES && places <= place {
            places = place + 1;
        }
    }
    places
}

/// The first event from this one on that looks for the name of this number. It stays a call, since it is
/// rarely made where an entry is taken in: in place there, the drill takes 0.4 % more.
#[inline(never)]
fn first_from(hooks: &[Hook], from: u8, number: u32) -> u8
    requires few { length hooks.now < 256 }
    requires from { from ≤ length hooks.now }
    ensures { IsFirst hooks.now from number result }
{
    for event in from..hooks.len() as u8 {
        if hooks[event as usize].name.0 == number {
            return event;
        }
    }
    hooks.len() as u8
}

/// By the number of a name the first event that looks for it. Windows' names have places too: it is soon
/// seen there that no event looks for them.
fn firsts_of(alloc: Global, events: &[Hook], windows: &[Hook]) -> Result<Vec<u8>, AllocError>
    requires few { length events.now < 256 }
    ensures { IfOk result (λ v. AreFirsts events.now v.items) }
{
    let places = places_for(events).max(places_for(windows)) as u32;
    let mut firsts = Vec::new(alloc);
    for number in 0..places {
        firsts.push(first_from(events, 0, number))?;
    }
    Ok(firsts)
}

/// By the number of an event the next one that looks for the same name.
fn nexts_of(alloc: Global, events: &[Hook]) -> Result<Vec<u8>, AllocError>
    requires few { length events.now < 256 }
    ensures { IfOk result (λ v. AreNexts events.now v.items) }
{
    let mut nexts = Vec::new(alloc);
    for event in 0..events.len() as u8 {
        let number = events[event as usize].name.0;
        nexts.push(first_from(events, event + 1, number))?;
    }
    Ok(nexts)
}

/// What the events and the windows of a chronicle look for, by the number of a name its rank among the
/// names of entries of one date and the first event that looks for it, and by the number of an event the
/// next one that looks for the same name. Where no event does, that is the number of events.
#[derive(Drop)]
pub struct Hooks {
    pub events: Vec<Hook>,
    pub windows: Vec<Hook>,
    pub ranks: Rc<Vec<u32>>,
    firsts: Vec<u8>,
    nexts: Vec<u8>,
    ghost named: { AreNamed events.items firsts.items nexts.items } by { Prim.hlevel props },
}

impl Hooks {
    /// Where `told` is false the ranks tell nothing.
    pub fn of(
        alloc: Global,
        plan: &Plan,
        focus: bool,
        ranks: Rc<Vec<u32>>,
        told: bool,
    ) -> Result<Hooks, AllocError>
        requires proper { IsProper plan.now }
        ensures hooks { IfOk result (λ h. AreHooks plan.now h.events.items h.windows.items) }
        ensures order { IfOk result (λ h. AreOrdered plan.now focus ranks.value.items h.events.items) }
        ensures ranks { IfOk result (λ h. h.ranks.value.items ≡ ranks.value.items) }
    {
        let events = event_hooks(alloc, plan, focus, ranks.as_slice(), told)?;
        let windows = window_hooks(alloc, plan.chronicle.windows.as_slice())?;
        let firsts = firsts_of(alloc, events.as_slice(), windows.as_slice())?;
        let nexts = nexts_of(alloc, events.as_slice())?;
        Ok(Hooks {
            events,
            windows,
            ranks,
            firsts,
            nexts,
        })
    }

    /// The first event that looks for the name.
    #[inline(always)]
    pub fn first_of(&self, name: Sym) -> u8
        ensures { IsFirst self.now.events.items 0 name.0 result }
    {
        match self.firsts.as_slice().get(name.0 as usize) {
            Some(event) => *event,
            None => first_from(self.events.as_slice(), 0, name.0),
        }
    }

    /// The next event that looks for the same name.
    #[inline(always)]
    pub fn next_of(&self, event: u8) -> u8
        requires { event < length self.now.events.items }
        ensures { IsFirst self.now.events.items (event + 1) (hook_at self.now.events.items event).name.0 result }
    {
        self.nexts.as_slice()[event as usize]
    }
}

fn key(class: u32, first: u32, second: u32, third: u32) -> Key
    ensures { result ≡ record { class = class; first = first; second = second; third = third } }
{
    Key {
        class,
        first,
        second,
        third,
    }
}

/// The key of a class, for those that know these symbols and no others. A lone symbol comes first,
/// whichever it is: such keys are found fastest.
#[tactic(auto, unfolding(crate::specs::Hooks::key_with))]
pub fn key_of_symbols(class: u32, symbols: Symbols) -> Key
    requires { class < 2 ^ 16 }
    ensures { result ≡ key_with class symbols }
{
    match (symbols.first, symbols.second, symbols.third) {
        (None, None, None) => key(class, 0, 0, 0),
        (Some(a), None, None) => key(class + 32, a.0, 0, 0),
        (None, Some(b), None) => key(class + 64, b.0, 0, 0),
        (Some(a), Some(b), None) => key(class + 96, a.0, b.0, 0),
        (None, None, Some(c)) => key(class + 128, c.0, 0, 0),
        (Some(a), None, Some(c)) => key(class + 160, a.0, c.0, 0),
        (None, Some(b), Some(c)) => key(class + 192, b.0, c.0, 0),
        (Some(a), Some(b), Some(c)) => key(class + 224, a.0, b.0, c.0),
    }
}

/// The key of a class, for those that know the first symbol at most.
#[tactic(auto, unfolding(crate::specs::Hooks::key_with))]
#[inline(always)]
pub fn key_of_first(class: u32, first: Option<Sym>) -> Key
    requires { class < 2 ^ 16 }
    ensures { result ≡ key_with class (record { first = first; second = None; third = None }) }
{
    match first {
        None => key(class, 0, 0, 0),
        Some(a) => key(class + 32, a.0, 0, 0),
    }
}

/// Whether the hook picks one variable at most.
#[inline(always)]
pub fn is_lone(hook: &Hook) -> bool
    ensures second { result ≡ true → hook.now.second ≡ None }
    ensures third { result ≡ true → hook.now.third ≡ None }
{
    hook.second.is_none() && hook.third.is_none()
}

/// The symbol that the binding gives the picked variable.
#[inline(always)]
fn symbol_in(pick: Option<Pick>, binding: &Binding) -> Option<Sym>
    ensures { result ≡ picked_symbol pick (look_of binding.now) }
{
    match pick {
        None => None,
        Some(pick) => binding.get(pick.variable),
    }
}

/// The entry's argument at the picked place.
#[inline(always)]
pub fn argument_in(pick: Option<Pick>, entry: &Entry) -> Option<Sym>
    ensures { result ≡ picked_argument pick entry.now.args }
{
    match pick {
        None => None,
        Some(pick) => entry.args.as_slice().get(pick.argument as usize).copied(),
    }
}

/// The symbols that the binding gives the hook's variables.
fn symbols_of_binding(hook: &Hook, binding: &Binding) -> Symbols
    ensures { result ≡ picked_symbols hook.now (look_of binding.now) }
{
    let first = symbol_in(hook.first, binding);
    let second = symbol_in(hook.second, binding);
    let third = symbol_in(hook.third, binding);
    Symbols {
        first,
        second,
        third,
    }
}

/// Under which key those with the binding wait. Where the hook picks one variable, the two others aren't
/// looked at: with that, loads that join by one variable take 2 % more than by keys of one symbol.
#[inline(always)]
pub(crate) fn key_of_binding(class: u32, hook: &Hook, binding: &Binding) -> Key
    requires { class < 2 ^ 16 }
    ensures { result ≡ key_of class hook.now (look_of binding.now) }
{
    if is_lone(hook) {
        return key_of_first(class, symbol_in(hook.first, binding));
    }
    key_of_symbols(class, symbols_of_binding(hook, binding))
}

/// The symbols that the picked variables have in the entry.
pub fn symbols_of_entry(hook: &Hook, entry: &Entry) -> Symbols
    ensures { result ≡ picked_arguments hook.now entry.now.args }
{
    let first = argument_in(hook.first, entry);
    let second = argument_in(hook.second, entry);
    let third = argument_in(hook.third, entry);
    Symbols {
        first,
        second,
        third,
    }
}

/// Under which key those wait that know all of the entry's symbols.
#[inline(always)]
pub fn key_of_entry(class: u32, hook: &Hook, entry: &Entry) -> Key
    requires { class < 2 ^ 16 }
    ensures { result ≡ key_with class (picked_arguments hook.now entry.now.args) }
{
    if is_lone(hook) {
        return key_of_first(class, argument_in(hook.first, entry));
    }
    key_of_symbols(class, symbols_of_entry(hook, entry))
}

/// How many parts the symbols have: each of them may be known to an instance or not.
pub fn parts_of_symbols(symbols: Symbols) -> u8
    ensures { (part : Symbols) → IsPart part symbols → IsAmong symbols part result }
{
    if symbols.third.is_some() {
        8
    } else if symbols.second.is_some() {
        4
    } else if symbols.first.is_some() {
        2
    } else {
        1
    }
}

/// The symbol, where it is in the part.
fn symbol_if(symbol: Option<Sym>, inside: bool) -> Option<Sym>
    ensures { result ≡ cond inside symbol None }
{
    if inside { symbol } else { None }
}

/// The part of this number: its binary digits tell which of the symbols are known.
pub fn part_of_symbols(symbols: Symbols, number: u8) -> Symbols
    ensures { result ≡ part_of symbols number }
{
    let first = symbol_if(symbols.first, number % 2 == 1);
    let second = symbol_if(symbols.second, number / 2 % 2 == 1);
    let third = symbol_if(symbols.third, number / 4 % 2 == 1);
    Symbols {
        first,
        second,
        third,
    }
}

//! Which plans an entry concerns, by its name, and what else is known of names.
ghost use Rattle.std.specs.Prelude.{◌≡◌, ◌+◌, ◌<◌, ◌≤◌, ◌^◌, ℕ, [], ◌∷◌, length, map, get_or, true, OnOk, IfOk};
ghost use Rattle.std.specs.Int.{bit_at};
ghost use Rattle.crs_model.specs.SeenModels.{body_of, event_of, window_of};
ghost use Rattle.crs_store.specs.Hooks.{name_of};
ghost use Rattle.crs_engine.specs.Concerns.{bits_of, TellsAll, KeepsBits, KeepsLooking, AreNoted, KeepsAll, IsKnown, AreKnown};

use crs_base::Sym;
use crs_model::{Body, EventDef, Plan, Window};
use std::alloc::{AllocError, Global};
use std::rc::Rc;

/// Which of at most 64 plans the entries of a name concern, as the bits of a number: that of the first
/// plan is the least. Each entry concerns a prompt chronicle, and the others those that look for its name.
/// A store whose bit isn't set is passed over by seven instructions, where to ask it took over thirty: with
/// 64 chronicles of names of their own that takes a quarter off.
#[derive(Drop)]
pub(crate) struct Concerned {
    /// By the number of a name the bits of the plans that look for it. None does behind the last.
    looking: Vec<u64>,
    /// The bits of the prompt chronicles.
    prompt: u64,
}

/// Which stores the entries of a name concern, and in which order the names of entries of one date come.
#[derive(Drop)]
pub(crate) struct Names {
    pub(crate) concerned: Concerned,
    /// By the number of a name its rank among the names of entries of one date.
    pub(crate) ranks: Rc<Vec<u32>>,
}

impl Concerned {
    /// The bits of the plans that entries of the name concern.
    pub(crate) fn bits_of(&self, name: Sym) -> u64
        ensures { result ≡ bits_of self.now name }
    {
        match self.looking.get(name.0 as usize) {
            Some(bits) => *bits | self.prompt,
            None => self.prompt,
        }
    }

    /// Adds the plan of this number.
    fn add(&mut self, plan: &Plan, number: u32) -> Result<(), AllocError>
        requires { number < 64 }
        ensures kept { OnOk result (KeepsAll self.old self.new) }
        ensures known { OnOk result (IsKnown self.new plan.now number) }
    {
        self.prompt = with_prompt(self.prompt, plan, number);
        note_events(&mut self.looking, plan.chronicle.events.as_slice(), number)?;
        note_windows(&mut self.looking, plan.chronicle.windows.as_slice(), number)?;
        Ok(())
    }
}

/// The bit of this place alone.
fn bit(place: u32) -> u64
    requires { place < 64 }
    ensures { result ≡ 2 ^ place }
{
    1 << place
}

/// The bits, and that of this place too where the plan's chronicle is prompt.
fn with_prompt(bits: u64, plan: &Plan, place: u32) -> u64
    requires { place < 64 }
    ensures kept { KeepsBits bits result }
    ensures set { plan.now.chronicle.prompt ≡ true → bit_at result place ≡ 1 }
{
    if plan.chronicle.prompt {
        bits | bit(place)
    } else {
        bits
    }
}

/// Adds rows without bits, up to that of this number.
fn make_room(looking: &mut Vec<u64>, number: usize) -> Result<(), AllocError>
    ensures room { OnOk result (number < length looking.new.items) }
    ensures same { (n : ℕ) → get_or looking.new.items n 0 ≡ get_or looking.old.items n 0 }
{
    while looking.len() <= number {
        looking.push(0)?;
    }
    Ok(())
}

/// Sets the bit of this place for the name.
fn note(looking: &mut Vec<u64>, name: Sym, place: u32) -> Result<(), AllocError>
    requires { place < 64 }
    ensures kept { OnOk result (KeepsLooking looking.old.items looking.new.items) }
    ensures set { OnOk result (bit_at (get_or looking.new.items name.0 0) place ≡ 1) }
{
    let number = name.0 as usize;
    make_room(looking, number)?;
    looking[number] |= bit(place);
    Ok(())
}

/// Sets the bit of this place for the name of each event.
fn note_events(looking: &mut Vec<u64>, events: &[EventDef], place: u32) -> Result<(), AllocError>
    requires { place < 64 }
    ensures kept { OnOk result (KeepsLooking looking.old.items looking.new.items) }
    ensures noted { OnOk result (AreNoted (map (λ v. v.pattern.name) (map event_of events.now)) place looking.new.items) }
{
    match events.split_first() {
        None => Ok(()),
        Some((first, rest)) => {
            note(looking, first.pattern.name, place)?;
            note_events(looking, rest, place)?;
            Ok(())
        }
    }
}

/// The name of the entries that a window looks for.
fn name_of(body: &Body) -> Sym
    ensures { result ≡ name_of (body_of body.now) }
{
    match body {
        Body::NoEvent(pattern) => pattern.name,
        Body::Occurs { pattern, .. } => pattern.name,
        Body::Hold { name, .. } => *name,
    }
}

/// Sets the bit of this place for the name of each window.
fn note_windows(looking: &mut Vec<u64>, windows: &[Window], place: u32) -> Result<(), AllocError>
    requires { place < 64 }
    ensures kept { OnOk result (KeepsLooking looking.old.items looking.new.items) }
    ensures noted { OnOk result (AreNoted (map (λ w. name_of w.body) (map window_of windows.now)) place looking.new.items) }
{
    match windows.split_first() {
        None => Ok(()),
        Some((first, rest)) => {
            note(looking, name_of(&first.body), place)?;
            note_windows(looking, rest, place)?;
            Ok(())
        }
    }
}

/// Adds the plans, of which the first has this number.
fn add_all(concerned: &mut Concerned, plans: &[Rc<Plan>], number: u32) -> Result<(), AllocError>
    requires { number + length plans.now ≤ 64 }
    ensures kept { OnOk result (KeepsAll concerned.old concerned.new) }
    ensures known { OnOk result (AreKnown concerned.new (map (λ r. r.value) plans.now) number) }
{
    match plans.split_first() {
        None => Ok(()),
        Some((first, rest)) => {
            concerned.add(first, number)?;
            add_all(concerned, rest, number + 1)?;
            Ok(())
        }
    }
}

/// Which of the plans the entries of each name concern.
pub(crate) fn concerned_of(alloc: Global, plans: &[Rc<Plan>]) -> Result<Concerned, AllocError>
    requires { length plans.now ≤ 64 }
    ensures { IfOk result (λ c. TellsAll c (map (λ r. r.value) plans.now)) }
{
    let mut concerned = Concerned {
        looking: Vec::new(alloc),
        prompt: 0,
    };
    add_all(&mut concerned, plans, 0)?;
    Ok(concerned)
}

ghost use Rattle.std.specs.Prelude.{true, ◌≡◌, ◌%◌, ◌/◌, ◌<◌, ◌≤◌, ◌≤ℤ◌, ◌<ℤ◌, ◌-ℤ◌, ◌^◌, [], ◌∷◌, ◌++◌, ℕ, map, pos, OnOk, OnErr, IfOk, List as Items};
ghost use Rattle.std.specs.Int.{int_max};
ghost use Rattle.std.specs.List.{AllByRecursion};
ghost use Rattle.crs_base.specs.declared.symbols.Sym.{Sym};
ghost use Rattle.crs_base.specs.Entry.{Entry as LogEntry, IsInKeyOrder};
ghost use Rattle.crs_base.specs.Seen.{entry_of};
ghost use Rattle.crs_history.specs.Histories.{EndsWith, StandsFor};
ghost use Rattle.crs_model.specs.declared.recognition.Recognition.{Recognition};
ghost use Rattle.crs_store.specs.Moments.{IsComingFrom};
ghost use Rattle.crs_store.specs.Orders.{IsBehind};
ghost use Rattle.crs_engine.specs.Concerns.{Concerns, Tells, TellsAll};
ghost use Rattle.crs_engine.specs.Moves.{HasRanks, AreApart, AreInOrder, IsFirstBehind, IsTakenIn, IsGivenFresh, AreGivenOne, AreGivenFresh, put_where, AreSameStores, AreOffered, AreOfferedAll, AreTaken, ArePut, AreSettled, IsRestOf, AreAdvanced, AreMarked, date_after};
ghost use Rattle.crs_buffer.specs.Entries.{IsNewKey};
ghost use Rattle.crs_model.specs.Order.{put_in_order};
ghost use Rattle.crs_store.specs.Stores.{IsSameStore, PassesOver};

use crate::concerned::Names;
use crate::entries::Entries;
use crate::refused::NoMemory;
use crs_base::{Entry, List, Steps};
use crs_buffer::Buffer;
use crs_history::History;
use crs_model::{Mark, Recognition};
use crs_store::{Coming, Store, rank_of};
use std::alloc::{AllocError, Global};
use std::rc::Rc;
use std::sync::ledger::Ledger;

/// Of how many entries that come next a store is told.
const AHEAD: usize = 8;

/// How many entries are taken out of the buffer before they are settled, at most: few enough that each
/// is still at hand when it is offered.
const PIECE: usize = 64;

/// Offers the entry, which is the last of the history, to the store, or settles it there, where the
/// chronicle is prompt. Where it doesn't concern the chronicle the store is passed over.
fn take_in<L: Ledger>(
    concerned: bool,
    store: &mut Store,
    history: &History,
    entry: &Rc<Entry>,
    coming: &Coming<'_>,
    steps: &mut Steps<L>,
) -> Result<(), NoMemory>
    requires last { EndsWith (entry_of entry.now.value) history.now.entries }
    requires date { entry.now.value.date < 2 ^ 40 }
    requires coming { IsComingFrom entry.now.value.date coming.now }
    requires told { Concerns entry.now.value.name store.old.plan → concerned ≡ true }
    ensures same { IsSameStore store.old store.new }
    ensures taken { OnOk result (IsTakenIn store.old history.now (entry_of entry.now.value) coming.now.until (map (λ r. entry_of r.value) coming.now.ahead.now) coming.now.beyond coming.now.behind store.new) }
{
    if !concerned {
        store.pass_over();
        return Ok(());
    }
    if store.is_prompt() {
        store.settle(history, entry)?;
    } else {
        store.offer_until(history, entry, coming, steps)?;
    }
    Ok(())
}

/// Does nothing, as `Store::pass_over` at each of the stores: no code comes of it.
fn pass_over_all(stores: &[Store])
    ensures { AllByRecursion PassesOver stores.now }
{
    if let Some((first, rest)) = stores.split_first() {
        first.pass_over();
        pass_over_all(rest);
    }
}

/// Offers the entry, which is the last of the history, to each store that it concerns, and has it judge
/// what it holds at the date until which nothing comes. The bits say which stores it concerns, the least
/// that of the first store.
fn offer_all<L: Ledger>(
    stores: &mut [Store],
    bits: u64,
    history: &History,
    entry: &Rc<Entry>,
    coming: &Coming<'_>,
    steps: &mut Steps<L>,
) -> Result<(), NoMemory>
    requires last { EndsWith (entry_of entry.now.value) history.now.entries }
    requires date { entry.now.value.date < 2 ^ 40 }
    requires coming { IsComingFrom entry.now.value.date coming.now }
    requires told { Tells bits entry.now.value.name (map (λ s. s.plan) stores.old) }
    ensures same { AreSameStores stores.old stores.new }
    ensures offered { OnOk result (AreOffered stores.old history.now (entry_of entry.now.value) coming.now.until (map (λ r. entry_of r.value) coming.now.ahead.now) coming.now.beyond coming.now.behind stores.new) }
{
    if bits == 0 {
        pass_over_all(stores);
        return Ok(());
    }
    match stores.split_first_mut() {
        None => Ok(()),
        Some((first, rest)) => {
            take_in(bits % 2 == 1, first, history, entry, coming, steps)?;
            offer_all(rest, bits / 2, history, entry, coming, steps)
        }
    }
}

/// Offers the entry, which isn't settled yet, to the store of a prompt chronicle, and tells it of those
/// that come next.
fn offer_prompt_one<L: Ledger>(
    store: &mut Store,
    history: &History,
    entry: &Rc<Entry>,
    ahead: &[Rc<Entry>],
    beyond: u64,
    steps: &mut Steps<L>,
) -> Result<(), NoMemory>
    requires date { entry.now.value.date < 2 ^ 40 }
    requires near { beyond ≤ 2 ^ 42 }
    ensures same { IsSameStore store.old store.new }
    ensures given { OnOk result (IsGivenFresh store.old history.now (entry_of entry.now.value) (map (λ r. entry_of r.value) ahead.now) beyond store.new) }
{
    if store.is_prompt() {
        store.offer_prompt_ahead(history, entry, ahead, beyond, steps)?;
    }
    Ok(())
}

/// Offers the entry, which isn't settled yet, to each store of a prompt chronicle, and tells it of those
/// that come next.
fn offer_prompt_all<L: Ledger>(
    stores: &mut [Store],
    history: &History,
    entry: &Rc<Entry>,
    ahead: &[Rc<Entry>],
    beyond: u64,
    steps: &mut Steps<L>,
) -> Result<(), NoMemory>
    requires date { entry.now.value.date < 2 ^ 40 }
    requires near { beyond ≤ 2 ^ 42 }
    ensures same { AreSameStores stores.old stores.new }
    ensures given { OnOk result (AreGivenOne stores.old history.now (entry_of entry.now.value) (map (λ r. entry_of r.value) ahead.now) beyond stores.new) }
{
    match stores.split_first_mut() {
        None => Ok(()),
        Some((first, rest)) => {
            offer_prompt_one(first, history, entry, ahead, beyond, steps)?;
            offer_prompt_all(rest, history, entry, ahead, beyond, steps)
        }
    }
}

/// It is after each date of an entry.
const END: u64 = 4_398_046_511_104;

/// The date of the first of the entries, or `h` where that is the lesser or there is none.
fn date_after(entries: &[Rc<Entry>], h: u64) -> u64
    ensures { result ≡ date_after h (map (λ r. entry_of r.value) entries.now) }
{
    match entries.first() {
        Some(entry) => entry.date.min(h),
        None => h,
    }
}

/// Before which date entries are taken still, where so many are and the last has this date: before `h`,
/// and of a whole piece before the next date.
fn end_of_piece(len: usize, date: u64, h: u64) -> u64
    requires { date < h }
    ensures after { date < result }
    ensures within { result ≤ h }
{
    if len < PIECE { h } else { date + 1 }
}

/// Fills the list anew with the first entry and those behind it in the buffer that are dated before
/// `h`, up to a piece of them, and with all others of the last one's date: so whether entries of one
/// date come in the order of ranks is seen at once. What an error leaves in the list is not to be used.
fn take_piece(
    buffer: &mut Buffer,
    due: &mut Vec<Rc<Entry>>,
    first: Rc<Entry>,
    h: u64,
) -> Result<(), AllocError>
    requires before { first.value.date < h }
    requires order { IsInKeyOrder (entry_of first.value ∷ buffer.old) }
    ensures rest { IsRestOf buffer.old buffer.new }
    ensures taken { OnOk result (AreTaken h (map (λ r. entry_of r.value) due.new.items) (entry_of first.value ∷ buffer.old) buffer.new) }
    ensures apart { OnOk result (AreApart (map (λ r. entry_of r.value) due.new.items) buffer.new) }
{
    let mut date = first.date;
    due.clear();
    due.push(first)?;
    while let Some(entry) = buffer.release_before(end_of_piece(due.len(), date, h)) {
        date = entry.date;
        due.push(entry)?;
    }
    Ok(())
}

/// The date of the first waiting entry, or `h` where that is the lesser or none waits.
fn date_behind(buffer: &Buffer, h: u64) -> u64
    ensures { result ≡ date_after h buffer.now }
{
    match buffer.first_date() {
        Some(date) => date.min(h),
        None => h,
    }
}

/// Takes all entries out of the buffer, and fills the list anew with them, in key order. What an error
/// leaves in the list is not to be used.
fn take_all(fresh: &mut Buffer, due: &mut Vec<Rc<Entry>>) -> Result<(), AllocError>
    requires small { AllByRecursion (λ x. x.date < 2 ^ 40) fresh.old }
    ensures none { OnOk result (fresh.new ≡ []) }
    ensures taken { OnOk result (map (λ r. entry_of r.value) due.new.items ≡ fresh.old) }
{
    due.clear();
    while let Some(entry) = fresh.release_before(END) {
        due.push(entry)?;
    }
    Ok(())
}

/// Offers the entries, which are in key order, to the stores of prompt chronicles. Each is told of
/// those that come next, before all that are dated at or after a date that isn't after `h`.
fn offer_in_turn<L: Ledger>(
    stores: &mut [Store],
    history: &History,
    due: &[Rc<Entry>],
    h: u64,
    steps: &mut Steps<L>,
) -> Result<(), NoMemory>
    requires small { AllByRecursion (λ x. x.date < 2 ^ 40) (map (λ r. entry_of r.value) due.now) }
    requires order { IsInKeyOrder (map (λ r. entry_of r.value) due.now) }
    requires horizon { h ≤ 2 ^ 42 }
    ensures same { AreSameStores stores.old stores.new }
    ensures given { OnOk result (AreGivenFresh h history.now (map (λ r. entry_of r.value) due.now) stores.old stores.new) }
{
    let mut left = due;
    while let Some((entry, rest)) = left.split_first() {
        let (ahead, others) = rest.split_at(rest.len().min(AHEAD));
        let beyond = date_after(others, h);
        offer_prompt_all(stores, history, entry, ahead, beyond, steps)?;
        left = rest;
    }
    Ok(())
}

/// Offers the entries that were accepted since the last mark to the stores of prompt chronicles, in
/// key order, before the mark's horizon `h`. The list is filled anew with them: a store that is told
/// what comes next holds no instance that only an entry before the horizon could complete, which
/// takes a fifth off a prompt drill.
fn offer_fresh<L: Ledger>(
    stores: &mut [Store],
    history: &History,
    fresh: &mut Buffer,
    due: &mut Vec<Rc<Entry>>,
    h: u64,
    steps: &mut Steps<L>,
) -> Result<(), NoMemory>
    requires small { AllByRecursion (λ x. x.date < 2 ^ 40) fresh.old }
    requires horizon { h ≤ 2 ^ 42 }
    ensures same { AreSameStores stores.old stores.new }
    ensures none { OnOk result (fresh.new ≡ []) }
    ensures given { OnOk result (AreGivenFresh h history.now fresh.old stores.old stores.new) }
{
    if fresh.first_date().is_none() {
        return Ok(());
    }
    take_all(fresh, due)?;
    offer_in_turn(stores, history, due.as_slice(), h, steps)?;
    Ok(())
}

/// Whether the other entry is dated after the entry, or at the same date with no lesser a rank.
fn is_behind(ranks: &[u32], entry: &Entry, other: &Entry) -> bool
    ensures { result ≡ true → IsBehind ranks.now (entry_of entry.now) (entry_of other.now) }
{
    entry.date < other.date
        || (entry.date == other.date && rank_of(ranks, entry.name) <= rank_of(ranks, other.name))
}

/// Whether the first of the others, if there is one, is behind the entry.
fn is_first_behind(ranks: &[u32], entry: &Entry, rest: &[Rc<Entry>]) -> bool
    ensures { result ≡ true → IsFirstBehind ranks.now (entry_of entry.now) (map (λ r. entry_of r.value) rest.now) }
{
    match rest.first() {
        None => true,
        Some(next) => is_behind(ranks, entry, next),
    }
}

/// Whether each of the entries is behind those before it. Entries of a log are, where the ranks are those
/// of their names: they come in key order.
fn are_in_order(ranks: &[u32], due: &[Rc<Entry>]) -> bool
    ensures { result ≡ true → AreInOrder ranks.now (map (λ r. entry_of r.value) due.now) }
{
    let mut left = due;
    while let Some((entry, rest)) = left.split_first() {
        if !is_first_behind(ranks, entry, rest) {
            return false;
        }
        left = rest;
    }
    true
}

/// Adds each of the entries, which are dated before `h` and in key order, to the history, and offers
/// it to all stores, which judge what they hold at the date of the entry that comes next, and at `h`
/// where none is due. Behind these entries come those of the buffer.
fn settle_due<L: Ledger>(
    stores: &mut [Store],
    names: &Names,
    history: &mut History,
    buffer: &Buffer,
    due: &[Rc<Entry>],
    h: u64,
    steps: &mut Steps<L>,
) -> Result<(), NoMemory>
    requires ranks { AllByRecursion (HasRanks names.now.ranks.value.items) stores.old }
    requires apart { AreApart (map (λ r. entry_of r.value) due.now) buffer.now }
    requires small { AllByRecursion (λ x. x.date < 2 ^ 40) (map (λ r. entry_of r.value) due.now) }
    requires order { IsInKeyOrder (history.old.entries ++ (map (λ r. entry_of r.value) due.now ++ buffer.now)) }
    requires due { AllByRecursion (λ x. history.old.floor ≤ℤ pos x.date) (map (λ r. entry_of r.value) due.now) }
    requires before { AllByRecursion (λ x. x.date < h) (map (λ r. entry_of r.value) due.now) }
    requires horizon { h ≤ 2 ^ 42 }
    requires told { TellsAll names.now.concerned (map (λ s. s.plan) stores.old) }
    ensures same { AreSameStores stores.old stores.new }
    ensures put { ArePut history.old (map (λ r. entry_of r.value) due.now) history.new }
    ensures kept { OnOk result (history.new.entries ≡ history.old.entries ++ map (λ r. entry_of r.value) due.now) }
    ensures offered { OnOk result (AreOfferedAll h buffer.now stores.old history.old (map (λ r. entry_of r.value) due.now) stores.new history.new) }
{
    let next = date_behind(buffer, h);
    let behind = are_in_order(names.ranks.as_slice(), due);
    let mut left = due;
    while let Some((entry, rest)) = left.split_first() {
        let shared = entry.clone()?;
        history.push(shared)?;
        let until = date_after(rest, next);
        let (ahead, others) = rest.split_at(rest.len().min(AHEAD));
        let beyond = date_after(others, next);
        let coming = Coming {
            until,
            ahead,
            beyond,
            behind,
        };
        let bits = names.concerned.bits_of(entry.name);
        offer_all(stores, bits, history, entry, &coming, steps)?;
        left = rest;
    }
    Ok(())
}

/// Settles the first entry, and those behind it in the buffer that are dated before `h`, up to a
/// piece of them.
fn settle_piece<L: Ledger>(
    stores: &mut [Store],
    names: &Names,
    entries: &mut Entries,
    first: Rc<Entry>,
    h: u64,
    steps: &mut Steps<L>,
) -> Result<(), NoMemory>
    requires ranks { AllByRecursion (HasRanks names.now.ranks.value.items) stores.old }
    requires small { AllByRecursion (λ x. x.date < 2 ^ 40) (entry_of first.value ∷ entries.old.buffer) }
    requires order { IsInKeyOrder (entries.old.history.entries ++ entry_of first.value ∷ entries.old.buffer) }
    requires due { AllByRecursion (λ x. entries.old.history.floor ≤ℤ pos x.date) (entry_of first.value ∷ entries.old.buffer) }
    requires before { first.value.date < h }
    requires horizon { h ≤ 2 ^ 42 }
    requires told { TellsAll names.now.concerned (map (λ s. s.plan) stores.old) }
    ensures same { AreSameStores stores.old stores.new }
    ensures rest { IsRestOf entries.old.buffer entries.new.buffer }
    ensures order { IsInKeyOrder (entries.new.history.entries ++ entries.new.buffer) }
    ensures floor { entries.new.history.floor ≡ entries.old.history.floor }
    ensures settled { OnOk result (AreSettled stores.old entries.old.history (entry_of first.value ∷ entries.old.buffer) h stores.new entries.new.history entries.new.buffer) }
{
    take_piece(&mut entries.buffer, &mut entries.due, first, h)?;
    let due = entries.due.as_slice();
    settle_due(
        stores,
        names,
        &mut entries.history,
        &entries.buffer,
        due,
        h,
        steps,
    )?;
    Ok(())
}

/// Takes the entries dated before `h` out of the buffer in key order, adds each to the history, and
/// offers it to all stores, which judge what they hold at the date of the next of these entries, and
/// at `h` after the last.
pub(crate) fn settle<L: Ledger>(
    stores: &mut [Store],
    names: &Names,
    entries: &mut Entries,
    h: u64,
    steps: &mut Steps<L>,
) -> Result<(), NoMemory>
    requires ranks { AllByRecursion (HasRanks names.now.ranks.value.items) stores.old }
    requires small { AllByRecursion (λ x. x.date < 2 ^ 40) entries.old.buffer }
    requires order { IsInKeyOrder (entries.old.history.entries ++ entries.old.buffer) }
    requires due { AllByRecursion (λ x. entries.old.history.floor ≤ℤ pos x.date) entries.old.buffer }
    requires horizon { h ≤ 2 ^ 42 }
    requires told { TellsAll names.now.concerned (map (λ s. s.plan) stores.old) }
    ensures same { AreSameStores stores.old stores.new }
    ensures rest { IsRestOf entries.old.buffer entries.new.buffer }
    ensures order { IsInKeyOrder (entries.new.history.entries ++ entries.new.buffer) }
    ensures floor { entries.new.history.floor ≡ entries.old.history.floor }
    ensures settled { OnOk result (AreSettled stores.old entries.old.history entries.old.buffer h stores.new entries.new.history entries.new.buffer) }
    ensures after { OnOk result (AllByRecursion (λ x. h ≤ x.date) entries.new.buffer) }
{
    while let Some(first) = entries.buffer.release_before(h) {
        settle_piece(stores, names, entries, first, h, steps)?;
    }
    entries.due.clear();
    Ok(())
}

/// Moves each store on to the horizon `h`, and adds their answers in turn. Most are empty: seen here, that
/// leaves 60 instructions of the 115 that a store takes at a mark at which nothing happens.
fn advance_all(
    answer: &mut List<Recognition>,
    stores: &mut [Store],
    history: &History,
    h: u64,
    mark: Mark,
) -> Result<(), NoMemory>
    requires { h ≤ 2 ^ 42 }
    ensures same { AreSameStores stores.old stores.new }
    ensures advanced { OnOk result ((more : Items Recognition) × (answer.new ≡ answer.old ++ more) × AreAdvanced history.now h mark stores.old stores.new more) }
{
    match stores.split_first_mut() {
        None => Ok(()),
        Some((first, rest)) => {
            let more = first.advance(history, h, mark)?;
            if more.len() != 0 {
                answer.append(more)?;
            }
            advance_all(answer, rest, history, h, mark)
        }
    }
}

/// Moves all stores on to the horizon `h`, and answers what is newly recognised.
pub(crate) fn advance(
    alloc: Global,
    stores: &mut [Store],
    history: &History,
    h: u64,
    mark: Mark,
) -> Result<List<Recognition>, NoMemory>
    requires { h ≤ 2 ^ 42 }
    ensures same { AreSameStores stores.old stores.new }
    ensures advanced { IfOk result (AreAdvanced history.now h mark stores.old stores.new) }
{
    let mut answer = List::new(alloc);
    advance_all(&mut answer, stores, history, h, mark)?;
    Ok(answer)
}

/// Offers those accepted since the last mark to the stores of prompt chronicles, settles the entries
/// dated before `h`, and moves all stores on to it.
pub(crate) fn mark_all<L: Ledger>(
    stores: &mut [Store],
    names: &Names,
    entries: &mut Entries,
    fresh: &mut Buffer,
    h: u64,
    mark: Mark,
    steps: &mut Steps<L>,
) -> Result<List<Recognition>, NoMemory>
    requires ranks { AllByRecursion (HasRanks names.now.ranks.value.items) stores.old }
    requires small { AllByRecursion (λ x. x.date < 2 ^ 40) entries.old.buffer }
    requires order { IsInKeyOrder (entries.old.history.entries ++ entries.old.buffer) }
    requires due { AllByRecursion (λ x. entries.old.history.floor ≤ℤ pos x.date) entries.old.buffer }
    requires horizon { h ≤ 2 ^ 42 }
    requires fresh { AllByRecursion (λ x. x.date < 2 ^ 40) fresh.old }
    requires told { TellsAll names.now.concerned (map (λ s. s.plan) stores.old) }
    ensures same { AreSameStores stores.old stores.new }
    ensures rest { IsRestOf entries.old.buffer entries.new.buffer }
    ensures order { IsInKeyOrder (entries.new.history.entries ++ entries.new.buffer) }
    ensures floor { entries.new.history.floor ≡ entries.old.history.floor }
    ensures none { OnOk result (fresh.new ≡ []) }
    ensures marked { IfOk result (AreMarked h mark stores.old entries.old.history entries.old.buffer fresh.old stores.new entries.new.history entries.new.buffer) }
{
    offer_fresh(stores, &entries.history, fresh, &mut entries.due, h, steps)?;
    settle(stores, names, entries, h, steps)?;
    let answer = advance(entries.alloc, stores, &entries.history, h, mark)?;
    Ok(answer)
}

/// Forgets what lies further before the horizon `h` than the reach. Of the entries that leave, those that
/// no one else owns are put into the list.
pub(crate) fn forget_behind(history: &mut History, h: u64, reach: i64, spare: &mut Vec<Rc<Entry>>)
    requires least { pos 0 ≤ℤ reach }
    requires most { reach <ℤ pos (2 ^ 45) }
    requires small { h ≤ 2 ^ 42 }
    ensures floor { history.new.floor ≡ int_max history.old.floor (pos h -ℤ reach) }
    ensures stands { (settled : Items (LogEntry Sym)) → StandsFor settled history.old → StandsFor settled history.new }
    ensures order { (waiting : Items (LogEntry Sym)) → IsInKeyOrder (history.old.entries ++ waiting) → IsInKeyOrder (history.new.entries ++ waiting) }
    ensures dated { (t : ℕ) → AllByRecursion (λ x. x.date < t) history.old.entries → AllByRecursion (λ x. x.date < t) history.new.entries }
{
    history.forget_into(h as i64 - reach, spare);
}

/// The entry, shared. It takes the place of one that left the history and that no one else owns, where
/// there is one: to make it anew, and to let it go, takes some 210 instructions, a tenth of a run over a
/// declared log whose history forgets.
#[inline(always)]
fn share(alloc: Global, spare: &mut Vec<Rc<Entry>>, entry: Entry) -> Result<Rc<Entry>, AllocError>
    ensures { IfOk result (λ r. r.value ≡ entry) }
{
    if let Some(mut used) = spare.pop() {
        if let Some(slot) = Rc::get_mut(&mut used) {
            *slot = entry;
            return Ok(used);
        }
    }
    Ok(Rc::new(alloc, entry)?)
}

/// Puts the entry into the buffer, and where it is wanted among those accepted since the last mark.
/// An error leaves both as they were. The entry takes the place of a spare one, where there is one.
#[inline(always)]
pub(crate) fn hold(
    alloc: Global,
    buffer: &mut Buffer,
    fresh: &mut Buffer,
    spare: &mut Vec<Rc<Entry>>,
    wanted: bool,
    entry: Entry,
) -> Result<(), AllocError>
    ensures ok { IsNewKey (entry_of entry) buffer.old → OnOk result (buffer.new ≡ put_in_order (entry_of entry) buffer.old) }
    ensures fresh { IsNewKey (entry_of entry) fresh.old → OnOk result (fresh.new ≡ put_where wanted (entry_of entry) fresh.old) }
    ensures sorted { OnOk result (IsInKeyOrder buffer.new) }
    ensures err { OnErr result (buffer.new ≡ buffer.old) }
    ensures fresh_err { AllByRecursion (λ x. x.arrival < entry.arrival) fresh.old → OnErr result (fresh.new ≡ fresh.old) }
{
    let arrival = entry.arrival;
    let shared = share(alloc, spare, entry)?;
    if !wanted {
        return buffer.put(shared);
    }
    fresh.put(shared.clone()?)?;
    let Ok(()) = buffer.put(shared) else {
        fresh.take_back(arrival);
        return Err(AllocError);
    };
    Ok(())
}

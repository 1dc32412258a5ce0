ghost use Rattle.std.specs.Prelude.{◌≡◌, ◌+◌, ◌≤◌, ◌<◌, ◌++◌, length, map, drop, zip, flat_map, OnOk, IfOk};
ghost use Rattle.std.specs.List.{AllByRecursion};
ghost use Rattle.crs_stn.specs.Network.{negated};
ghost use Rattle.crs_stn.specs.Table.{most_of};
ghost use Rattle.crs_model.specs.Plans.{IsProper};
ghost use Rattle.crs_model.specs.SeenModels.{chronicle_of};
ghost use Rattle.crs_compile.specs.Compiled.{plans_in, chronicles_in};
ghost use Rattle.crs_model.specs.Renaming.{text_in, AreKnown};
ghost use Rattle.crs_compile.specs.Minimal.{end_text, pair_line, lines_of_point, pair_lines, date_text, head_text, earliest_text, points_of, IsChronicleText, IsMinimalText, IsPrintable, Appends};

use crs_base::{Sym, Symbols, Text, push_bytes, push_integer};
use crs_model::{Chronicle, Plan, Plans};
use crs_stn::{Dates, Network};
use std::alloc::{AllocError, Global};
use std::rc::Rc;

/// The least that the date of one point lies behind another's. None is infinite.
fn low_of(network: &Network, earlier: u8, later: u8) -> Option<i64>
    requires earlier { earlier < network.now.points }
    requires later { later < network.now.points }
    ensures { result ≡ negated (most_of network.now later earlier) }
{
    match network.most(later, earlier) {
        Some(most) => Some(-most),
        None => None,
    }
}

/// Writes a number, or the word for an infinite one.
fn push_end(out: &mut Vec<u8>, end: Option<i64>, infinite: &[u8]) -> Result<(), AllocError>
    ensures { OnOk result (out.new.items ≡ out.old.items ++ end_text infinite.now end) }
{
    match end {
        Some(n) => push_integer(out, n as i128),
        None => push_bytes(out, infinite),
    }
}

/// A point of a chronicle: its number and its name.
#[derive(Clone, Copy)]
struct Point {
    number: u8,
    name: Sym,
}

/// Writes the line of two points.
fn push_pair(
    out: &mut Vec<u8>,
    symbols: &Symbols,
    network: &Network,
    p: Point,
    q: Point,
) -> Result<(), AllocError>
    requires p_below { p.number < network.now.points }
    requires q_below { q.number < network.now.points }
    requires p_known { p.name.0 < length symbols.now.texts }
    requires q_known { q.name.0 < length symbols.now.texts }
    ensures { OnOk result (out.new.items ≡ out.old.items ++ pair_line (text_in symbols.now.texts p.name) (text_in symbols.now.texts q.name) (negated (most_of network.now q.number p.number)) (most_of network.now p.number q.number)) }
{
    push_bytes(out, b"  ")?;
    push_bytes(out, symbols.text(q.name))?;
    push_bytes(out, b" - ")?;
    push_bytes(out, symbols.text(p.name))?;
    push_bytes(out, b" in [")?;
    push_end(out, low_of(network, p.number, q.number), b"-inf")?;
    push_bytes(out, b", ")?;
    push_end(out, network.most(p.number, q.number), b"inf")?;
    push_bytes(out, b"]\n")
}

/// Writes the lines of a point with each of the later ones, given the number of the first of these.
fn push_lines_of_point(
    out: &mut Vec<u8>,
    symbols: &Symbols,
    network: &Network,
    p: Point,
    first: u8,
    later: &[Sym],
) -> Result<(), AllocError>
    requires p_below { p.number < network.now.points }
    requires p_known { p.name.0 < length symbols.now.texts }
    requires below { first + length later.now ≤ network.now.points }
    requires few { network.now.points ≤ 24 }
    requires known { AreKnown symbols.now.texts later.now }
    ensures { OnOk result (out.new.items ≡ out.old.items ++ lines_of_point (most_of network.now) p.number (text_in symbols.now.texts p.name) first (map (text_in symbols.now.texts) later.now)) }
{
    match later.split_first() {
        None => Ok(()),
        Some((name, rest)) => {
            let q = Point {
                number: first,
                name: *name,
            };
            push_pair(out, symbols, network, p, q)?;
            push_lines_of_point(out, symbols, network, p, first + 1, rest)
        }
    }
}

/// Writes the lines of each point with each later one, given the number of the first.
fn push_pairs(
    out: &mut Vec<u8>,
    symbols: &Symbols,
    network: &Network,
    first: u8,
    points: &[Sym],
) -> Result<(), AllocError>
    requires below { first + length points.now ≤ network.now.points }
    requires few { network.now.points ≤ 24 }
    requires known { AreKnown symbols.now.texts points.now }
    ensures { OnOk result (out.new.items ≡ out.old.items ++ pair_lines (most_of network.now) first (map (text_in symbols.now.texts) points.now)) }
{
    match points.split_first() {
        None => Ok(()),
        Some((name, later)) => {
            let p = Point {
                number: first,
                name: *name,
            };
            push_lines_of_point(out, symbols, network, p, first + 1, later)?;
            push_pairs(out, symbols, network, first + 1, later)
        }
    }
}

/// Writes a point and its date.
fn push_date(out: &mut Vec<u8>, symbols: &Symbols, point: Sym, date: i64) -> Result<(), AllocError>
    requires { point.0 < length symbols.now.texts }
    ensures { OnOk result (out.new.items ≡ out.old.items ++ date_text (text_in symbols.now.texts point, date)) }
{
    push_bytes(out, b" ")?;
    push_bytes(out, symbols.text(point))?;
    push_bytes(out, b"=")?;
    push_integer(out, date as i128)
}

/// Writes the points and their dates, given the number of the first.
fn push_dates(
    out: &mut Vec<u8>,
    symbols: &Symbols,
    points: &[Sym],
    dates: &Dates,
    first: u8,
) -> Result<(), AllocError>
    requires known { AreKnown symbols.now.texts points.now }
    requires few { first + length points.now ≤ 24 }
    requires each { length points.now ≡ length (drop first dates.now) }
    ensures { OnOk result (out.new.items ≡ out.old.items ++ flat_map date_text (zip (map (text_in symbols.now.texts) points.now) (drop first dates.now))) }
{
    match points.split_first() {
        None => Ok(()),
        Some((point, rest)) => match dates.get(first) {
            Some(date) => {
                push_date(out, symbols, *point, date)?;
                push_dates(out, symbols, rest, dates, first + 1)
            }
            None => unreachable!(),
        },
    }
}

/// The names of a chronicle's points, those of the events first.
fn point_names(alloc: Global, chronicle: &Chronicle) -> Result<Vec<Sym>, AllocError>
    ensures { IfOk result (λ names. names.items ≡ points_of (chronicle_of chronicle.now)) }
{
    let mut names = Vec::new(alloc);
    for event in chronicle.events.as_slice() {
        names.push(event.point)?;
    }
    names.extend_from_slice(chronicle.free.as_slice())?;
    Ok(names)
}

/// Writes what stands before the pairs of points.
fn push_head(out: &mut Vec<u8>, symbols: &Symbols, plan: &Plan) -> Result<(), AllocError>
    requires { plan.now.chronicle.name.0 < length symbols.now.texts }
    ensures { OnOk result (out.new.items ≡ out.old.items ++ head_text (text_in symbols.now.texts plan.now.chronicle.name) plan.now.reach) }
{
    push_bytes(out, b"chronicle ")?;
    push_bytes(out, symbols.text(plan.chronicle.name))?;
    push_bytes(out, b" reach ")?;
    push_end(out, plan.reach, b"inf")?;
    push_bytes(out, b"\n")
}

/// Writes what stands behind the pairs of points.
fn push_earliest(
    out: &mut Vec<u8>,
    symbols: &Symbols,
    points: &[Sym],
    dates: &Dates,
) -> Result<(), AllocError>
    requires known { AreKnown symbols.now.texts points.now }
    requires few { length points.now ≤ 24 }
    requires each { length points.now ≡ length dates.now }
    ensures { OnOk result (out.new.items ≡ out.old.items ++ earliest_text (map (text_in symbols.now.texts) points.now) dates.now) }
{
    push_bytes(out, b"  earliest")?;
    push_dates(out, symbols, points, dates, 0)?;
    push_bytes(out, b"\n")
}

/// Writes a plan.
fn push_plan(
    alloc: Global,
    out: &mut Vec<u8>,
    symbols: &Symbols,
    plan: &Plan,
) -> Result<(), AllocError>
    requires plan { IsProper plan.now }
    requires known { IsPrintable symbols.now.texts (chronicle_of plan.now.chronicle) }
    ensures { OnOk result (Appends (IsChronicleText (text_in symbols.now.texts) (chronicle_of plan.now.chronicle)) out.old.items out.new.items) }
{
    let names = point_names(alloc, &plan.chronicle)?;
    let points = names.as_slice();
    push_head(out, symbols, plan)?;
    push_pairs(out, symbols, &plan.network, 0, points)?;
    push_earliest(out, symbols, points, &plan.network.earliest())
}

/// Writes plans one after the other.
fn push_plans(
    alloc: Global,
    out: &mut Vec<u8>,
    symbols: &Symbols,
    plans: &[Rc<Plan>],
) -> Result<(), AllocError>
    requires plans { AllByRecursion IsProper (plans_in plans.now) }
    requires known { AllByRecursion (IsPrintable symbols.now.texts) (map chronicle_of (chronicles_in plans.now)) }
    ensures { OnOk result (Appends (IsMinimalText (text_in symbols.now.texts) (map chronicle_of (chronicles_in plans.now))) out.old.items out.new.items) }
{
    match plans.split_first() {
        None => Ok(()),
        Some((plan, rest)) => {
            push_plan(alloc, out, symbols, plan)?;
            push_plans(alloc, out, symbols, rest)
        }
    }
}

/// The least bounds, the reach and the earliest dates of each plan's chronicle, as text.
pub fn minimal_text(alloc: Global, plans: &Plans, symbols: &Symbols) -> Result<Text, AllocError>
    requires plans { AllByRecursion IsProper (plans_in plans.now.plans) }
    requires known { AllByRecursion (IsPrintable symbols.now.texts) (map chronicle_of (chronicles_in plans.now.plans)) }
    ensures { IfOk result (IsMinimalText (text_in symbols.now.texts) (map chronicle_of (chronicles_in plans.now.plans))) }
{
    let mut out = Vec::new(alloc);
    push_plans(alloc, &mut out, symbols, plans.plans.as_slice())?;
    Ok(Text::from_vec(out))
}

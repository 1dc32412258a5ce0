//! The declared names that event lines have.
ghost use Rattle.std.specs.Prelude.{◌≡◌, ◌≤◌, length, map, bytes_eq, List, ℕ, IfOk, IfSome};
ghost use Rattle.std.specs.List.{list_any};
ghost use Rattle.crs_log.specs.SeenItems.{event_seen, text_of};
ghost use Rattle.crs_model.specs.Renaming.{text_in};
ghost use Rattle.crs_model.specs.Renaming.{AreKnown};
ghost use Rattle.crs_log.specs.SeenNames.{kind_seen, name_seen, IsNumberOf, IsKindIn, IsNameIn, AreNamesIn, Says, HasNumber, IsTold, IsTextAt};
ghost use Rattle.crs_log.specs.Known.{is_of_kind, change_stands, agrees, known_of, judged};

use crate::entries::Known;
use crate::items::Raw;
use crate::items::parts::span_text;
use crs_base::{List, Sym, Symbols};
use crs_model::{Kind, Name};
use thiserror::Error;

/// Why an event does not agree with the declaration of its name.
#[derive(Clone, Copy, Debug, PartialEq, Eq, Drop, Error)]
pub enum NameRefused {
    /// The number of its arguments or its change does not.
    #[error("Arity")]
    Arity,
    /// Its new value is none of the attribute's.
    #[error("Value")]
    Value,
}

/// The number of a text, which is no other text's.
fn number_of(text: &[u8], symbols: &Symbols) -> Option<Sym>
    ensures number { IsNumberOf symbols.now.texts text.now result }
    ensures text { IfSome result (IsTextAt symbols.now.texts text.now) }
{
    // no text stands twice in the table
    let _ = symbols.len();
    symbols.find(text)
}

/// Whether one of these symbols has this text.
fn is_among(symbols: &Symbols, values: &[Sym], value: &[u8]) -> bool
    requires { AreKnown symbols.now.texts values.now }
    ensures { result ≡ list_any (bytes_eq value.now) (map (text_in symbols.now.texts) values.now) }
{
    let Some(number) = number_of(value, symbols) else {
        return false;
    };
    for s in values {
        if s.0 == number.0 {
            return true;
        }
    }
    false
}

/// Whether the new value of a change is one that the attribute may have.
fn is_of_kind(line: &[u8], raw: &Raw, kind: &Kind, symbols: &Symbols) -> bool
    requires { IsKindIn symbols.now.texts kind.now }
    ensures { result ≡ is_of_kind (event_seen line.now raw.now).change (kind_seen symbols.now.texts kind.now) }
{
    if let Kind::Attribute {
        values: Some(values),
    } = kind
        && let Some((_, new)) = raw.change
    {
        return is_among(symbols, values.as_slice(), span_text(line, new));
    }
    true
}

/// Whether a change stands exactly where the kind wants one.
fn change_stands(raw: &Raw, kind: &Kind) -> bool
    ensures { (line : List ℕ) (texts : List (List ℕ)) → result ≡ change_stands (event_seen line raw.now).change (kind_seen texts kind.now) }
{
    match (kind, raw.change) {
        (Kind::Message, Some(_)) => false,
        (Kind::Message, None) => true,
        (Kind::Attribute { values: _ }, Some(_)) => true,
        (Kind::Attribute { values: _ }, None) => false,
    }
}

/// Whether the arguments and the change agree with the declaration.
fn agrees(raw: &Raw, name: &Name) -> bool
    ensures { (line : List ℕ) (texts : List (List ℕ)) → result ≡ agrees (name_seen texts name.now) (event_seen line raw.now) }
{
    raw.args.len() == name.arity as usize && change_stands(raw, &name.kind)
}

/// What is known of an event whose name is this one.
#[inline(always)]
fn judge(
    line: &[u8],
    raw: &Raw,
    place: u32,
    number: Sym,
    name: &Name,
    symbols: &Symbols,
) -> Result<Known, NameRefused>
    requires { IsNameIn symbols.now.texts name.now }
    ensures number { IfOk result (HasNumber number) }
    ensures says { Says result (judged place (name_seen symbols.now.texts name.now) (event_seen line.now raw.now)) }
{
    if !agrees(raw, name) {
        return Err(NameRefused::Arity);
    }
    if !is_of_kind(line, raw, &name.kind, symbols) {
        return Err(NameRefused::Value);
    }
    Ok(Known::Name(place, number))
}

/// The declared name of an event line, with the right arguments and value.
#[inline(always)]
pub fn known(
    line: &[u8],
    raw: &Raw,
    names: &List<Name>,
    symbols: &Symbols,
) -> Result<Known, NameRefused>
    requires names { AreNamesIn symbols.now.texts names.now }
    requires count { length names.now ≤ 256 }
    ensures text { IfOk result (IsTold symbols.now.texts (text_of line.now raw.now.name)) }
    ensures says { Says result (known_of (map (name_seen symbols.now.texts) names.now) (event_seen line.now raw.now)) }
{
    let Some(number) = number_of(span_text(line, raw.name), symbols) else {
        return Ok(Known::Other);
    };
    for (i, name) in names.as_slice().iter().enumerate() {
        if name.name.0 == number.0 {
            return judge(line, raw, i as u32, number, name, symbols);
        }
    }
    Ok(Known::Other)
}

// What a word stands for: the names of modifiers, event types, details and directives, and the numbers of details. A modifier and
// an event type are compared with the names of their own group alone.
#![tactic(auto)]

pub mod details;
pub mod find;

ghost use Rattle.std.specs.Prelude.{◌≡◌};
ghost use Rattle.model.specs.Lists.{bytes, same};
ghost use Rattle.model.specs.Names.{modifier_named, type_named};
ghost use Rattle.model.specs.Details.{detail_named};
ghost use Rattle.model.specs.Codes.{has_atom};
ghost use Rattle.model.specs.Lines.{directive_of};
ghost use Rattle.lookup.specs.Find.{directive_given};

use crate::find::Found;
use model::events::Directive;
use model::names::{DetailRead, ModifierName, TypeName};
use names::{groups, meanings, table};
use numerals::number;

// The directive of a first line.
#[derive(Clone, Copy)]
pub enum FirstLine {
    Found(Directive),
    Absent,
}

pub fn modifier_named(w: &[u8]) -> ModifierName
    ensures { result ≡ modifier_named w.now }
{
    let group = groups::modifier_group(w.len(), number::byte_at(w, 0));
    match find::find(
        w,
        table::MODIFIERS + group.from,
        table::MODIFIERS + group.to,
    ) {
        Found::At(i) => meanings::modifier_at(i - table::MODIFIERS),
        Found::Nothing => ModifierName::Unknown,
    }
}

pub fn type_named(w: &[u8]) -> TypeName
    ensures { result ≡ type_named w.now }
{
    let group = groups::type_group(w.len(), number::byte_at(w, 0));
    match find::find(w, table::TYPES + group.from, table::TYPES + group.to) {
        Found::At(i) => TypeName::Known(meanings::type_at(i - table::TYPES)),
        Found::Nothing => TypeName::Unknown,
    }
}

// The detail of an event type that fixes none.
pub fn detail_named(code: u8, w: &[u8]) -> DetailRead
    ensures { result ≡ detail_named code w.now }
{
    if number::in_range(2, code, 3) {
        return details::key_detail(w);
    }
    if number::in_range(4, code, 5) {
        return details::detail_in(w, table::BUTTONS, table::MOTIONS);
    }
    if code == 6 {
        return details::name_or_number(w, table::MOTIONS, table::MODES);
    }
    if number::in_range(7, code, 10) {
        return details::name_or_number(w, table::MODES, table::REQUESTS);
    }
    if code == 34 {
        return details::name_or_number(w, table::REQUESTS, table::DIRECTIVES);
    }
    if takes_atom(code) {
        return DetailRead::NotBuilt;
    }
    DetailRead::Unknown
}

// Types whose details are atoms.
fn takes_atom(code: u8) -> bool
    ensures { result ≡ has_atom code }
{
    number::in_range(28, code, 31) || code == 33
}

pub fn is_none(w: &[u8]) -> bool
    ensures { result ≡ same w.now (bytes "None") }
{
    find::is_name(w, table::NONE)
}

pub fn is_any(w: &[u8]) -> bool
    ensures { result ≡ same w.now (bytes "Any") }
{
    find::is_name(w, table::ANY)
}

pub fn directive_of(line: &[u8]) -> FirstLine
    ensures { directive_given result ≡ directive_of line.now }
{
    match find::find(line, table::DIRECTIVES, table::NONE) {
        Found::At(i) => FirstLine::Found(meanings::directive_at(i - table::DIRECTIVES)),
        Found::Nothing => FirstLine::Absent,
    }
}

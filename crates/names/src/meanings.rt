// What the names of the table stand for.
ghost use Rattle.std.specs.Prelude.{◌≡◌, ◌<◌, get_or};
ghost use Rattle.names.specs.Places.{directives_at, modifier_total, type_total};
ghost use Rattle.names.specs.Table.{modifier_bits, modifier_row, added_of, fixed_of, type_row, detail_values, directive_row};

use crate::rows;
use model::events::{Detail, Directive};
use model::names::{Added, EventType, ModifierName};

fn modifier_bit(i: usize) -> u8
    requires { i < modifier_total }
    ensures { result ≡ get_or modifier_bits i 0 }
{
    rows::MODIFIER_BITS[i]
}

// The modifier at a place among the modifiers.
pub fn modifier_at(i: usize) -> ModifierName
    requires { i < modifier_total }
    ensures { result ≡ modifier_row i }
{
    let bit = modifier_bit(i);
    if bit < 13 {
        return ModifierName::Bit(bit);
    }
    ModifierName::Named(bit - 13)
}

fn added_of(n: u8) -> Added
    ensures { result ≡ added_of n }
{
    if n < 13 {
        return Added::Modifier(n);
    }
    if n == 13 {
        return Added::Nothing;
    }
    if n == 14 {
        return Added::AnyButton;
    }
    Added::Meta
}

fn fixed_of(n: u8) -> Detail
    ensures { result ≡ fixed_of n }
{
    if n == 0 {
        return Detail::Unspecified;
    }
    Detail::Value(n as u32)
}

// The event type at a place among the types.
pub fn type_at(i: usize) -> EventType
    requires { i < type_total }
    ensures { result ≡ type_row i }
{
    let row = rows::type_numbers(i);
    let code = row.0;
    let added = added_of(row.1);
    let detail = fixed_of(row.2);
    EventType {
        code,
        added,
        detail,
    }
}

// The value at a place among the details.
pub fn detail_value(i: usize) -> u32
    requires { i < directives_at }
    ensures { result ≡ get_or detail_values i 0 }
{
    rows::DETAIL_VALUES[i]
}

// The directive of a place among the directives.
pub fn directive_at(i: usize) -> Directive
    ensures { result ≡ directive_row i }
{
    if i == 0 {
        return Directive::Replace;
    }
    if i == 1 {
        return Directive::Override;
    }
    Directive::Augment
}

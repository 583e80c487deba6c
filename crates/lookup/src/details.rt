// What a written detail stands for: a name of the type's group, or a number.
ghost use Rattle.std.specs.Prelude.{◌≡◌, ◌≤◌};
ghost use Rattle.model.specs.Names.{first_meaning};
ghost use Rattle.model.specs.Details.{keysym_names, key_detail};
ghost use Rattle.model.specs.declared.names.DetailRead.{DetailRead};
ghost use Rattle.names.specs.Places.{directives_at};
ghost use Rattle.lookup.specs.Find.{detail_found, found_or_number};

use crate::find;
use crate::find::Found;
use keysyms::search::latin1_named;
use model::names::DetailRead;
use names::{meanings, table};
use numerals::number;

const KEYSYM_LIMIT: u64 = 0x1fffffff;

// The value of a detail's name in a range of the table, in which the details come first.
pub fn detail_in(w: &[u8], from: usize, to: usize) -> DetailRead
    requires { (from ≤ to) × (to ≤ directives_at) }
    ensures { result ≡ detail_found from to w.now }
{
    match find::find(w, from, to) {
        Found::At(i) => DetailRead::Value(meanings::detail_value(i)),
        Found::Nothing => DetailRead::Unknown,
    }
}

// A keysym's name: one of the table of names, else one of the header's.
fn keysym_named(w: &[u8]) -> DetailRead
    ensures { result ≡ first_meaning keysym_names DetailRead.Unknown w.now }
{
    match find::find(w, table::KEYSYMS, table::BUTTONS) {
        Found::At(i) => DetailRead::Value(meanings::detail_value(i)),
        Found::Nothing => latin1_named(w),
    }
}

// A key's detail: one character, a number or a keysym's name.
pub fn key_detail(w: &[u8]) -> DetailRead
    ensures { result ≡ key_detail w.now }
{
    let first = number::byte_at(w, 0);
    if w.len() == 1 {
        return DetailRead::Value(first as u32);
    }
    if number::starts_hexadecimal(w) {
        return number::number_in(&w[2..], 16, KEYSYM_LIMIT);
    }
    if first == b'0' {
        return number::number_in(w, 8, KEYSYM_LIMIT);
    }
    if number::in_range(b'0', first, b'9') {
        return number::number_in(w, 10, KEYSYM_LIMIT);
    }
    keysym_named(w)
}

// A small number, or a name in a range of the table.
pub fn name_or_number(w: &[u8], from: usize, to: usize) -> DetailRead
    requires { (from ≤ to) × (to ≤ directives_at) }
    ensures { result ≡ found_or_number from to w.now }
{
    if number::in_range(b'0', number::byte_at(w, 0), b'9') {
        return number::small_number(w);
    }
    detail_in(w, from, to)
}

// Keysyms as details are written: by name where there is one, in hexadecimal otherwise.
ghost use Rattle.std.specs.Prelude.{◌≡◌, ◌+◌, ◌≤◌, ◌<◌};
ghost use Rattle.model.specs.Canonical.{keysym_text};
ghost use Rattle.names.specs.Table.{longest_name};
ghost use Rattle.keysyms.specs.Table.{keysym_total, keysym_name, first_place};
ghost use Rattle.keysyms.specs.declared.search.NamePlace.{NamePlace};
ghost use Rattle.writing.specs.Overlay.{Put};
ghost use Rattle.writing.specs.KeyNames.{keysym_place};

use crate::{bytes, numbers};
use keysyms::first::{first_place, name_bytes, name_starts};
use keysyms::search::{NamePlace, name_at};
use names::{meanings, table};

// The place of a keysym's name in the table of names, past all of them where it has none there.
fn keysym_place(v: u32) -> usize
    ensures { result ≡ keysym_place v }
{
    let mut i = table::KEYSYMS;
    while i < table::BUTTONS {
        if meanings::detail_value(i) == v {
            return i;
        }
        i += 1;
    }
    table::BUTTONS
}

// A name of the header.
fn put_latin1(out: &mut [u8], at: usize, place: usize) -> usize
    requires { (at ≤ 9000000000) × (place < keysym_total) }
    ensures { (Put out.old out.new at result (keysym_name place)) × (result ≤ at + longest_name) }
{
    let names = name_bytes();
    let starts = name_starts();
    let name = name_at(&names, &starts, place);
    bytes::put_part(out, at, name, 0, name.len())
}

// A keysym that has no name of the header.
fn put_other(out: &mut [u8], at: usize, v: u32) -> usize
    requires { (at ≤ 8900000000) × (first_place v ≡ NamePlace.Nowhere) }
    ensures { (Put out.old out.new at result (keysym_text v)) × (result ≤ at + longest_name) }
{
    let place = keysym_place(v);
    if place < table::BUTTONS {
        return bytes::put_name(out, at, place);
    }
    numbers::put_hexadecimal(out, at, v)
}

pub fn put_keysym(out: &mut [u8], at: usize, v: u32) -> usize
    requires { at ≤ 8900000000 }
    ensures { (Put out.old out.new at result (keysym_text v)) × (result ≤ at + longest_name) }
{
    match first_place(v) {
        NamePlace::At(place) => put_latin1(out, at, place),
        NamePlace::Nowhere => put_other(out, at, v),
    }
}

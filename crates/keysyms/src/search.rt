// Binary search for a name.
ghost use Rattle.std.specs.Prelude.{◌≡◌, ◌<◌, get_or};
ghost use Rattle.model.specs.Lists.{is_before};
ghost use Rattle.keysyms.specs.Table.{keysym_total, keysym_name, name_bytes, name_starts, keysym_values};
ghost use Rattle.keysyms.specs.Rule.{Rank, Placed, latin1_named};

use crate::table::{NAME_BYTES, STARTS, TOTAL, VALUES};
use model::names::DetailRead;

// A place of the table.
#[derive(Clone, Copy)]
pub enum NamePlace {
    At(usize),
    Nowhere,
}

// Whether one word stands before another in byte order.
pub fn is_before(a: &[u8], b: &[u8]) -> bool
    ensures { result ≡ is_before a.now b.now }
{
    let mut i: usize = 0;
    while i < b.len() {
        if a.len() <= i {
            return true;
        }
        let x = a[i];
        let y = b[i];
        if x != y {
            return x < y;
        }
        i += 1;
    }
    false
}

fn wide(n: u16) -> usize
    ensures { result ≡ n }
{
    n as usize
}

// The name at a place. The table is lent, since a constant is copied to the stack wherever it is indexed.
pub fn name_at<'a>(names: &'a [u8], starts: &[u16], place: usize) -> &'a [u8]
    requires { (names.now ≡ name_bytes) × (starts.now ≡ name_starts) × (place < keysym_total) }
    ensures { result.now ≡ keysym_name place }
{
    let from = wide(starts[place]);
    let to = wide(starts[place + 1]);
    &names[from..to]
}

// How many names stand before a word.
fn rank(names: &[u8], starts: &[u16], w: &[u8]) -> usize
    requires { (names.now ≡ name_bytes) × (starts.now ≡ name_starts) }
    ensures { Rank w.now result }
{
    let mut low: usize = 0;
    let mut high: usize = TOTAL;
    while low < high {
        let middle = (low + high) / 2;
        if is_before(name_at(names, starts, middle), w) {
            low = middle + 1;
        } else {
            high = middle;
        }
    }
    low
}

// The place of a word in the table.
fn place_of(names: &[u8], starts: &[u16], w: &[u8]) -> NamePlace
    requires { (names.now ≡ name_bytes) × (starts.now ≡ name_starts) }
    ensures { Placed w.now result }
{
    let place = rank(names, starts, w);
    if TOTAL <= place {
        return NamePlace::Nowhere;
    }
    if is_before(w, name_at(names, starts, place)) {
        return NamePlace::Nowhere;
    }
    NamePlace::At(place)
}

fn value_at(place: usize) -> u8
    requires { place < keysym_total }
    ensures { result ≡ get_or keysym_values place 0 }
{
    VALUES[place]
}

// The keysym of a name.
pub fn latin1_named(w: &[u8]) -> DetailRead
    ensures { result ≡ latin1_named w.now }
{
    match place_of(&NAME_BYTES, &STARTS, w) {
        NamePlace::At(place) => DetailRead::Value(value_at(place) as u32),
        NamePlace::Nowhere => DetailRead::Unknown,
    }
}

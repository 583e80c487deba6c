// The first name of a keysym in byte order, for the writer.
ghost use Rattle.std.specs.Prelude.{◌≡◌, ◌<◌, get_or};
ghost use Rattle.keysyms.specs.Table.{name_bytes, name_starts, first_place, first_places};

use crate::search::NamePlace;
use crate::table::{FIRST, NAME_BYTES, STARTS};

fn first_at(i: u32) -> u16
    requires { i < 191 }
    ensures { result ≡ get_or first_places i 0 }
{
    FIRST[i as usize]
}

// The place of the first name of a keysym.
pub fn first_place(v: u32) -> NamePlace
    ensures { result ≡ first_place v }
{
    if v < 0x20 {
        return NamePlace::Nowhere;
    }
    if v <= 0x7e {
        return NamePlace::At(first_at(v - 0x20) as usize);
    }
    if v < 0xa0 {
        return NamePlace::Nowhere;
    }
    if v <= 0xff {
        return NamePlace::At(first_at(v - 65) as usize);
    }
    NamePlace::Nowhere
}

// The bytes of all names, one after the other.
pub fn name_bytes() -> [u8; 1100]
    ensures { result ≡ name_bytes }
{
    NAME_BYTES
}

// Where each begins among them, and where the last one ends.
pub fn name_starts() -> [u16; 198]
    ensures { result ≡ name_starts }
{
    STARTS
}

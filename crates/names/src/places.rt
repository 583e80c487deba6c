// The places of the names that the writer uses.
ghost use Rattle.std.specs.Prelude.{◌≡◌, ◌≤◌, ◌<◌};
ghost use Rattle.names.specs.Places.{name_total};
ghost use Rattle.names.specs.Writing.{type_place, bit_place, long_place};

use crate::rows;

pub const BUTTON_MOTION: usize = rows::BUTTON_MOTION;

fn wide(n: u8) -> usize
    ensures { result ≡ n }
{
    n as usize
}

// The place of the protocol's name of a code.
pub fn type_place(code: u8) -> usize
    requires { (2 ≤ code) × (code ≤ 34) }
    ensures { (result ≡ type_place code) × (result < name_total) }
{
    wide(rows::TYPE_PLACES[(code - 2) as usize])
}

// The place of the long name of a modifier bit.
pub fn bit_place(k: u32) -> usize
    requires { k < 13 }
    ensures { (result ≡ bit_place k) × (result < name_total) }
{
    wide(rows::BIT_PLACES[k as usize])
}

// The place of the long name of Meta, Alt, Hyper or Super, 0..3.
pub fn long_place(n: u32) -> usize
    requires { n < 4 }
    ensures { (result ≡ long_place n) × (result < name_total) }
{
    wide(rows::LONG_PLACES[n as usize])
}

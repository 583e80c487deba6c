// Masks of the 13 modifier bits: a bit read, a bit set, and the test that an event makes of a state.
#![tactic(auto)]

ghost use Rattle.std.specs.Prelude.{◌≡◌, ◌<◌};
ghost use Rattle.model.specs.Modifiers.{bit, state_meets, no_state_meets};
ghost use Rattle.modifiers.specs.Setting.{with_bit};

// Whether bit k of a mask is set.
pub fn bit(k: u32, mask: u16) -> bool
    requires { k < 16 }
    ensures { result ≡ bit k mask }
{
    (mask >> k) % 2 == 1
}

// A mask with bit k set.
#[tactic(auto, using(crate::proofs::Setting::or_power))]
pub fn with_bit(mask: u16, k: u8) -> u16
    requires { (mask < 8192) × (k < 13) }
    ensures { result ≡ with_bit mask k }
{
    mask | (1u16 << k)
}

// Whether a state has the bits asked set, lacks those asked clear and, where the button clause is kept, has a button:
// of 13 bits those from 256 on are the buttons'.
#[tactic(auto, using(crate::proofs::Meeting::meets_masks))]
pub fn state_meets(set: u16, clear: u16, clause: bool, state: u16) -> bool
    requires { (set < 8192) × (clear < 8192) × (state < 8192) }
    ensures { result ≡ state_meets set clear clause state }
{
    (state & set == set) & (state & clear == 0) & (!clause | (state >= 256))
}

// Whether no state passes that test: a bit is asked both set and clear, or a button is asked for and all five,
// the bits from 256 to 4096, are asked clear.
#[tactic(auto, using(crate::proofs::Meeting::no_meets_masks))]
pub fn no_state_meets(set: u16, clear: u16, clause: bool) -> bool
    requires { (set < 8192) × (clear < 8192) }
    ensures { result ≡ no_state_meets set clear clause }
{
    (set & clear != 0) | (clause & (clear >= 7936))
}

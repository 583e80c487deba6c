// The matcher: at each record that is heard, the production that it completes, and the state for the next.
#![tactic(auto)]

ghost use Rattle.std.specs.Prelude.{◌≡◌, not};
ghost use Rattle.model.specs.Numbers.{match_order, matched_number, matched_selection};
ghost use Rattle.model.specs.Resolving.{is_bad_map};
ghost use Rattle.tables.specs.Whole.{whole};
ghost use Rattle.keyboard.specs.Maps.{map_numbers, modifier_entries_in, lent_setting};
ghost use Rattle.states.specs.State.{whole_state};
ghost use Rattle.acting.specs.Act.{match_call};
ghost use Rattle.matcher.specs.Match.{too_short, early_checks, match_number, match_selection, match_answer};

use acting::Answer;
use states::State;

// How many bytes a keyboard map has: 496 numbers of four bytes each. The modifier map follows it.
const MAP_BYTES: usize = 1984;

// The numbers that refuse a call whatever its record.
const SHORT_BUFFER: u8 = 1;

const BAD_MODIFIER_MAP: u8 = 18;

const TABLE_NOT_WHOLE: u8 = 12;

const STATE_NOT_WHOLE: u8 = 14;

// The first of them that applies, 0 where none does.
fn first_of(short: bool, modifiers_bad: bool, table_broken: bool, state_broken: bool) -> u8
    ensures { result ≡ match_order (early_checks short modifiers_bad table_broken state_broken) }
{
    if short {
        return SHORT_BUFFER;
    }
    if modifiers_bad {
        return BAD_MODIFIER_MAP;
    }
    if table_broken {
        return TABLE_NOT_WHOLE;
    }
    if state_broken {
        return STATE_NOT_WHOLE;
    }
    0
}

fn too_short(table: &[u8], maps: &[u8]) -> bool
    ensures { result ≡ too_short table.now (map_numbers maps.now) }
{
    (table.len() < tables::TABLE_LENGTH) | (maps.len() < MAP_BYTES)
}

// Whether what follows the keyboard map is no modifier map.
fn modifiers_bad(maps: &[u8]) -> bool
    ensures { result ≡ is_bad_map (modifier_entries_in maps.now) }
{
    if maps.len() < MAP_BYTES {
        return true;
    }
    resolving::is_bad_map(&maps[MAP_BYTES..])
}

fn refusal(table: &[u8], maps: &[u8], state: State) -> u8
    ensures { result ≡ match_order (early_checks (too_short table.now (map_numbers maps.now)) (is_bad_map (modifier_entries_in maps.now)) (not (whole table.now)) (not (whole_state state))) }
{
    first_of(
        too_short(table, maps),
        modifiers_bad(maps),
        !table_check::whole(table),
        !states::state_whole(state),
    )
}

// One call: the whole answer, and by the enum's cases its number and its selection. 15 is never given: no stretch of more than
// 24 events reads as a prefix of a whole table.
pub fn match_event(
    table: &[u8],
    maps: &[u8],
    limit: u32,
    state: State,
    record: &[u8],
    order: u8,
) -> Answer
    ensures answer { result ≡ match_answer table.now (lent_setting maps.now limit) state «record».now order }
    ensures number { matched_number result.matched ≡ match_number table.now (lent_setting maps.now limit) state (match_call «record».now order) }
    ensures selection { matched_selection result.matched ≡ match_selection table.now (lent_setting maps.now limit) state (match_call «record».now order) }
{
    let number = refusal(table, maps, state);
    if number != 0 {
        return acting::refused(number, state);
    }
    acting::act(table, maps, limit, state, record, order)
}

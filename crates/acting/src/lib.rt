// A call on a table and a state that were found whole.
#![tactic(auto)]

ghost use Rattle.std.specs.Prelude.{◌≡◌, true};
ghost use Rattle.machine.specs.Kept.{stepped};
ghost use Rattle.tables.specs.Reading.{decode};
ghost use Rattle.tables.specs.Whole.{whole};
ghost use Rattle.states.specs.State.{whole_state, kept_of};
ghost use Rattle.keyboard.specs.Maps.{lent_setting};
ghost use Rattle.resolving.specs.Gathering.{MapsReady};
ghost use Rattle.acting.specs.Act.{match_call, step_answer, refused_with};

mod moves;

use model::answers::{Matched, RecordRead};
use states::State;

// The one number that refuses a record.
const BAD_RECORD: u8 = 13;

// What a call answers, and the state for the next call.
#[derive(Clone, Copy)]
pub struct Answer {
    pub matched: Matched,
    pub state: State,
}

// A refused call keeps the state.
pub fn refused(number: u8, old: State) -> Answer
    ensures { result ≡ refused_with number old }
{
    Answer {
        matched: Matched::Refused(number),
        state: old,
    }
}

// One call, past the checks of what is lent: it relies on them, so that calls on many records or many windows check the table
// once.
pub fn act(table: &[u8], maps: &[u8], limit: u32, state: State, record: &[u8], order: u8) -> Answer
    requires { ((whole table.now ≡ true) × MapsReady maps.now) × (whole_state state ≡ true) }
    ensures { result ≡ step_answer (stepped (decode table.now) (lent_setting maps.now limit) (kept_of state) (match_call «record».now order)) }
{
    let RecordRead::Event(x) = records::read_record(record, order) else {
        return refused(BAD_RECORD, state);
    };
    if !types::has_type(table, x.code) {
        return Answer {
            matched: Matched::Dropped,
            state,
        };
    }
    moves::heard(table, maps, limit, state, x)
}

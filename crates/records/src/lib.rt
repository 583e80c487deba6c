// The reader of event records: 32 bytes and a byte order to an event, or a refusal.
#![tactic(auto)]

ghost use Rattle.std.specs.Prelude.{◌≡◌};
ghost use Rattle.model.specs.Numbers.{record_number, record_event};
ghost use Rattle.records.specs.Read.{read_number, read_event};
ghost use Rattle.model.specs.Records.{code_of, time_of, state_of, event_of, is_bad_record, record_read};

use model::answers::RecordRead;
use model::events::Event;

// How long a record is.
const RECORD_LENGTH: usize = 32;

// The number of the refusal.
const BAD_RECORD: u8 = 13;

// The server time, in the byte order `l` or else the other.
#[tactic(auto, unfolding(model::specs::Records::time_of))]
fn time_of(bytes: &[u8; RECORD_LENGTH], order: u8) -> u32
    ensures { result ≡ time_of bytes.now order }
{
    let time = [bytes[4], bytes[5], bytes[6], bytes[7]];
    if order == b'l' {
        u32::from_le_bytes(time)
    } else {
        u32::from_be_bytes(time)
    }
}

// The modifier state, of which 13 bits count.
#[tactic(auto, unfolding(model::specs::Records::state_of))]
fn state_of(bytes: &[u8; RECORD_LENGTH], order: u8) -> u16
    ensures { result ≡ state_of bytes.now order }
{
    let state = [bytes[28], bytes[29]];
    let state = if order == b'l' {
        u16::from_le_bytes(state)
    } else {
        u16::from_be_bytes(state)
    };
    state % 8192
}

// The code: byte 0 without its top bit.
fn code_of(bytes: &[u8; RECORD_LENGTH]) -> u8
    ensures { result ≡ code_of bytes.now }
{
    bytes[0] % 128
}

// The event that a record holds. The code decides where its fields stand; those that it lacks are 0.
#[tactic(auto, unfolding(model::specs::Records::event_of))]
fn event_of(bytes: &[u8; RECORD_LENGTH], order: u8) -> Event
    ensures { result ≡ event_of bytes.now order (code_of bytes.now) }
{
    let code = code_of(bytes);
    let (detail, time, state) = match code {
        // Key, button and motion.
        2..=6 => (bytes[1], time_of(bytes, order), state_of(bytes, order)),
        // Enter and leave: the detail is the mode.
        7..=8 => (bytes[30], time_of(bytes, order), state_of(bytes, order)),
        // Focus: the mode.
        9..=10 => (bytes[8], 0, 0),
        // Mapping: the request.
        34 => (bytes[4], 0, 0),
        _ => (0, 0, 0),
    };
    Event {
        code,
        detail,
        time,
        state,
    }
}

// Whether a record is refused: the byte order, its code, or a key event's keycode.
#[tactic(auto, unfolding(model::specs::Records::is_bad_record))]
fn is_bad(bytes: &[u8; RECORD_LENGTH], order: u8) -> bool
    ensures { result ≡ is_bad_record bytes.now order }
{
    let code = code_of(bytes);
    let good_order = matches!(order, b'l' | b'B');
    let good_code = (2..=34).contains(&code);
    let bad_keycode = (code <= 3) & (bytes[1] < 8);
    !good_order | !good_code | bad_keycode
}

// The answer, and by the enum's cases its number and its event.
#[tactic(auto, unfolding(model::specs::Records::record_read, model::specs::Records::is_bad_record))]
pub fn read_record(bytes: &[u8], order: u8) -> RecordRead
    ensures answer { result ≡ record_read bytes.now order }
    ensures number { record_number result ≡ read_number bytes.now order }
    ensures event { record_event result ≡ read_event bytes.now order }
{
    let Ok(record) = <&[u8; RECORD_LENGTH]>::try_from(bytes) else {
        return RecordRead::Refused(BAD_RECORD);
    };
    if is_bad(record, order) {
        return RecordRead::Refused(BAD_RECORD);
    }
    RecordRead::Event(event_of(record, order))
}

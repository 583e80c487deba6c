// The matcher's state as 200 lent bytes (docs/LAYOUT.md): loaded and stored exactly.
ghost use Rattle.std.specs.Prelude.{◌≡◌, [], ◌∷◌, ◌++◌, cond, ◌+◌, ◌*◌, ◌≤◌, length, take, drop};
ghost use Rattle.words.specs.Words.{word_bytes, put_word};
ghost use Rattle.capi.specs.Match.{left_by};
ghost use Rattle.capi.specs.State.{marks_read, load_events, load, store};

use model::answers::Matched;
use states::State;

pub const STATE_LENGTH: usize = 200;

// A state with so many events is not whole.
const TOO_MANY: usize = 25;

fn marks_read(state: &[u8]) -> bool
    requires { 200 ≤ length state.now }
    ensures { result ≡ marks_read state.now }
{
    (words::word_at(state, 2) <= 1) & (words::word_at(state, 3) == 0)
}

fn load_kept(state: &[u8]) -> usize
    requires { 200 ≤ length state.now }
    ensures { result ≡ (load state.now).kept }
{
    if marks_read(state) {
        usize::from(words::word_at(state, 0))
    } else {
        TOO_MANY
    }
}

fn load_events(state: &[u8]) -> [u8; 200]
    requires { 200 ≤ length state.now }
    ensures { result ≡ load_events state.now }
{
    let mut events = [0u8; 200];
    events[..192].copy_from_slice(&state[8..200]);
    events
}

pub fn load_state(state: &[u8]) -> State
    requires { 200 ≤ length state.now }
    ensures { result ≡ load state.now }
{
    State {
        kept: load_kept(state),
        selected: usize::from(words::word_at(state, 1)),
        open: words::word_at(state, 2) == 1,
        events: load_events(state),
    }
}

// Word k: the lower 16 bits.
fn put_mark(out: &mut [u8], k: usize, n: usize)
    requires { 2 * k + 2 ≤ length out.old }
    ensures { out.new ≡ put_word out.old k n }
{
    words::put_word(out, k, (n % 65536) as u16);
}

fn store_marks(out: &mut [u8], kept: usize, selected: usize, open: bool)
    requires { 200 ≤ length out.old }
    ensures { out.new ≡ word_bytes (kept ∷ selected ∷ cond «open» 1 0 ∷ 0 ∷ []) ++ drop 8 out.old }
{
    put_mark(out, 0, kept);
    put_mark(out, 1, selected);
    put_mark(out, 2, usize::from(open));
    put_mark(out, 3, 0);
}

fn store_events(out: &mut [u8], events: &[u8])
    requires { (200 ≤ length out.old) × (length events.now ≡ 200) }
    ensures { out.new ≡ take 8 out.old ++ take 192 events.now ++ drop 200 out.old }
{
    out[8..200].copy_from_slice(&events[..192]);
}

// Bytes past the state stay.
pub fn store_state(out: &mut [u8], s: State)
    requires { 200 ≤ length out.old }
    ensures { out.new ≡ store s ++ drop 200 out.old }
{
    store_marks(out, s.kept, s.selected, s.open);
    store_events(out, &s.events);
}

// After a refusal and after a dropped event no byte is touched.
pub fn keep(out: &mut [u8], matched: Matched, next: State)
    requires { 200 ≤ length out.old }
    ensures { out.new ≡ left_by matched next out.old }
{
    match matched {
        Matched::Refused(_) | Matched::Dropped => {}
        Matched::Heard | Matched::Selected(_) => store_state(out, next),
    }
}

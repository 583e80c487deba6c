// Key sequences: one character, and the whole.
ghost use Rattle.std.specs.Prelude.{◌≡◌, ◌+◌, ◌≤◌, length};
ghost use Rattle.model.specs.Events.{marked_key, key_at, keys_from};
ghost use Rattle.event_scanner.specs.Spans.{keyed};

use model::scan::{KeyMark, KeyRead};

// The byte that a mark takes, or that stands for itself.
pub fn marked_key(l: &[u8], mark: KeyMark, at: usize) -> KeyRead
    ensures { result ≡ marked_key l.now mark at }
{
    if l.len() <= at {
        return KeyRead::Broken;
    }
    let byte = l[at];
    if byte == b'\t' {
        return KeyRead::Broken;
    }
    KeyRead::Key {
        mark,
        byte,
        next: at + 1,
    }
}

// The next character, or the quote that ends the sequence.
pub fn key_at(l: &[u8], at: usize) -> KeyRead
    ensures { result ≡ key_at l.now at }
{
    if l.len() <= at {
        return KeyRead::Broken;
    }
    let b = l[at];
    if b == b'"' {
        return KeyRead::End(at + 1);
    }
    if b == b'^' {
        return marked_key(l, KeyMark::Control, at + 1);
    }
    if b == b'\\' {
        return marked_key(l, KeyMark::Quoted, at + 1);
    }
    if b == b'$' {
        return marked_key(l, KeyMark::Meta, at + 1);
    }
    marked_key(l, KeyMark::Plain, at)
}

// A whole key sequence: how many characters it has, and where reading goes on.
#[derive(Clone, Copy)]
pub enum KeysRead {
    Broken,
    Keys { count: usize, next: usize },
}

// The characters from a position past the opening quote.
pub fn read_keys(l: &[u8], at: usize) -> KeysRead
    requires { at ≤ length l.now }
    ensures { result ≡ keyed (keys_from (length l.now + 1) l.now at) }
{
    let mut i = at;
    let mut count: usize = 0;
    loop {
        match key_at(l, i) {
            KeyRead::Broken => return KeysRead::Broken,
            KeyRead::End(next) => return KeysRead::Keys { count, next },
            KeyRead::Key {
                mark: _,
                byte: _,
                next,
            } => {
                count += 1;
                i = next;
            }
        }
    }
}

// What is read at a position of a line. Positions count from the line's first byte; an end is exclusive, and `next` is
// where reading goes on.

// Sets of bytes of which the grammar takes longest runs.
#[derive(Clone, Copy)]
pub enum Class {
    Blank,
    // Letters and digits: a modifier's name, an event type.
    Name,
    // Letters, digits and `_`: what follows `@`.
    Keysym,
    Digit,
    // All but blank, comma and colon.
    Detail,
    // Letters, digits, `_` and `-`: a call's name.
    Call,
    // All but blank, comma, quote and `)`: an unquoted parameter.
    Unquoted,
    // All but the quote: a quoted parameter.
    Quoted,
    // All but the newline: a line.
    Line,
}

// A part of a text.
#[derive(Clone, Copy)]
pub struct Span {
    pub start: usize,
    pub len: usize,
}

// `!` and `:` at the start of a modifier list.
#[derive(Clone, Copy)]
pub struct Lead {
    pub bang: bool,
    pub colon: bool,
    pub next: usize,
}

// One modifier, or the `<` that ends the list.
#[derive(Clone, Copy)]
pub enum ModifierRead {
    Broken,
    End(usize),
    Name {
        tilde: bool,
        start: usize,
        end: usize,
    },
    // `@` with a run after it.
    Keysym {
        tilde: bool,
        start: usize,
        end: usize,
    },
}

// `<type>`.
#[derive(Clone, Copy)]
pub enum TypeRead {
    Broken,
    Type {
        start: usize,
        end: usize,
        next: usize,
    },
}

// `(count)` or nothing.
#[derive(Clone, Copy)]
pub enum CountRead {
    Broken,
    Absent(usize),
    Digits {
        start: usize,
        end: usize,
        plus: bool,
        next: usize,
    },
}

// What stands before a character of a key sequence.
#[derive(Clone, Copy)]
pub enum KeyMark {
    Plain,
    // `^`.
    Control,
    // `\`.
    Quoted,
    // `$`.
    Meta,
}

// One character of a key sequence, or the quote that ends it.
#[derive(Clone, Copy)]
pub enum KeyRead {
    Broken,
    End(usize),
    Key {
        mark: KeyMark,
        byte: u8,
        next: usize,
    },
}

// What parts two events of a production, or ends them.
#[derive(Clone, Copy)]
pub enum AfterEvent {
    Broken,
    Comma(usize),
    Colon(usize),
}

// The next call's name, with the bracket after it, or the end of the line.
#[derive(Clone, Copy)]
pub enum CallRead {
    Broken,
    End,
    Name { start: usize, end: usize },
}

// One parameter without its quotes, and whether more follow.
#[derive(Clone, Copy)]
pub enum ParameterRead {
    Broken,
    More {
        start: usize,
        end: usize,
        next: usize,
    },
    Last {
        start: usize,
        end: usize,
        next: usize,
    },
}

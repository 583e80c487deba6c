// A quota desk: a click looks at a bucket, a double click grants space, and so does Ctrl G; Meta G takes it back; a drag slides the
// bar, and where it ends the cap is set. A recorded run of events is matched against the table, and each call that is selected is printed. The third click does not pair with the
// second, two clicks across the wrap of the server's 32-bit clock pair only where they are quick, Caps Lock changes nothing, and
// Meta is whichever modifier the keyboard has it on.
#![tactic(auto)]

use model::answers::{Compiled, Matched};
use states::State;
use std::io::{self, Write};

// Two presses less than this many milliseconds apart are a double click.
const MULTI_CLICK_TIME: u32 = 200;

const KEY_PRESS: u8 = 2;

const BUTTON_PRESS: u8 = 4;

const BUTTON_RELEASE: u8 = 5;

const MOTION: u8 = 6;

// The state's second byte where Button1 is down.
const BUTTON1: u8 = 1;

// The keycodes of G and of Meta on these keyboards.
const KEYCODE_G: u8 = 42;

const KEYCODE_META: u8 = 64;

// Modifier states.
const NONE: u8 = 0;

const LOCK: u8 = 2;

const CTRL: u8 = 4;

const CTRL_LOCK: u8 = 6;

const MOD1: u8 = 8;

const MOD4: u8 = 64;

// Their rows in a modifier map.
const MOD1_ROW: usize = 3;

const MOD4_ROW: usize = 6;

// A key or button event as the server sends it, least significant byte first.
fn record(code: u8, detail: u8, modifiers: u8, time: u32) -> [u8; 32] {
    let mut r = [0u8; 32];
    r[0] = code;
    r[1] = detail;
    r[4..8].copy_from_slice(&time.to_le_bytes());
    r[28] = modifiers;
    r
}

// A motion with Button1 down.
fn motion(time: u32) -> [u8; 32] {
    let mut r = record(MOTION, 0, NONE, time);
    r[29] = BUTTON1;
    r
}

// The maps of a keyboard with two keys: keycode 42, the 35th pair from keycode 8 on, has the keysym of g, and keycode 64 that of
// the left Meta, 0xffe7. A modifier map of one keycode a row follows the 1,984 bytes of pairs: Meta stands in one row.
fn keyboard(meta_row: usize) -> [u8; 1992] {
    let mut maps = [0u8; 1992];
    maps[272] = b'g';
    maps[448] = 0xe7;
    maps[449] = 0xff;
    if meta_row < 8 {
        maps[1984 + meta_row] = KEYCODE_META;
    }
    maps
}

// A table with its text, a keyboard, the state after the events so far, and where the calls are printed.
#[derive(Drop)]
struct Desk<'a, W> {
    out: &'a mut W,
    table: &'a [u8],
    text: &'a [u8],
    maps: [u8; 1992],
    state: State,
}

impl<'a, W: Write> Desk<'a, W> {
    // Before any event, on a keyboard that has Meta in this row.
    fn new(out: &'a mut W, table: &'a [u8], text: &'a [u8], meta_row: usize) -> Self {
        Desk {
            out,
            table,
            text,
            maps: keyboard(meta_row),
            state: State::fresh(),
        }
    }

    // The first call of the production that was selected.
    fn show(&mut self, label: &[u8], matched: Matched) -> io::Result<()> {
        let Matched::Selected(p) = matched else {
            return Ok(());
        };
        self.out.write_all(label)?;
        self.out.write_all(b": ")?;
        self.out
            .write_all(calls::name(self.table, self.text, self.text, p, 0))?;
        self.out.write_all(b"(")?;
        self.out.write_all(calls::parameter(self.table, self.text, self.text, p, 0, 0))?;
        self.out.write_all(b")\n")
    }

    fn hear(&mut self, r: [u8; 32], label: &[u8]) -> io::Result<()> {
        let answer = matcher::match_event(
            self.table,
            &self.maps,
            MULTI_CLICK_TIME,
            self.state,
            &r,
            b'l',
        );
        self.state = answer.state;
        self.show(label, answer.matched)
    }

    // Press and release of button 1, 20 milliseconds apart.
    fn click(&mut self, modifiers: u8, time: u32, label: &[u8]) -> io::Result<()> {
        self.hear(record(BUTTON_PRESS, 1, modifiers, time), label)?;
        self.hear(
            record(BUTTON_RELEASE, 1, modifiers, time.wrapping_add(20)),
            label,
        )
    }

    fn key(&mut self, modifiers: u8, time: u32, label: &[u8]) -> io::Result<()> {
        self.hear(record(KEY_PRESS, KEYCODE_G, modifiers, time), label)
    }

    // G with Mod1 and with Mod4.
    fn with_meta(&mut self) -> io::Result<()> {
        self.key(MOD1, 1000, b"Mod1 G")?;
        self.key(MOD4, 1100, b"Mod4 G")
    }

    fn three_clicks(&mut self) -> io::Result<()> {
        self.click(NONE, 1000, b"click at 1000")?;
        self.click(NONE, 1100, b"click at 1100, a double click")?;
        self.click(NONE, 1200, b"click at 1200, the third in a row")
    }

    // 4294967196 is 100 before the clock's wrap.
    fn across_the_wrap(&mut self) -> io::Result<()> {
        self.click(NONE, 4294967196, b"click at 4294967196")?;
        self.click(NONE, 99, b"click at 99, 199 ms later")?;
        self.click(NONE, 4294967196, b"click at 4294967196")?;
        self.click(NONE, 100, b"click at 100, 200 ms later")
    }

    fn with_caps_lock(&mut self) -> io::Result<()> {
        self.key(CTRL, 9000, b"Ctrl G at 9000")?;
        self.key(CTRL_LOCK, 9100, b"Ctrl G at 9100, Caps Lock on")?;
        self.key(NONE, 9200, b"G at 9200")?;
        self.click(LOCK, 9300, b"click at 9300, Caps Lock on")
    }

    // One motion in a line stands for any number of them.
    fn drag(&mut self) -> io::Result<()> {
        self.hear(record(BUTTON_PRESS, 1, NONE, 20000), b"press at 20000")?;
        self.hear(motion(20010), b"motion at 20010")?;
        self.hear(motion(20020), b"motion at 20020")?;
        self.hear(motion(20030), b"motion at 20030")?;
        self.hear(record(BUTTON_RELEASE, 1, NONE, 20040), b"release at 20040")
    }
}

fn run(out: &mut impl Write, table: &[u8], text: &[u8]) -> io::Result<()> {
    out.write_all(text)?;
    out.write_all(b"\n")?;
    let mut desk = Desk::new(out, table, text, MOD1_ROW);
    desk.three_clicks()?;
    desk.across_the_wrap()?;
    desk.with_caps_lock()?;
    desk.drag()?;
    out.write_all(b"\nMeta is Mod1\n")?;
    Desk::new(out, table, text, MOD1_ROW).with_meta()?;
    out.write_all(b"\nMeta is Mod4\n")?;
    Desk::new(out, table, text, MOD4_ROW).with_meta()
}

fn main(rt: HostRuntime) -> io::Result<()> {
    let mut out = io::writer(&rt);
    let text =
        b"<Btn1Down>(2): grant(space)\n<Btn1Down>: look(bucket)\nCtrl<Key>g: grant(space)\nMeta<Key>g: revoke(space)\n<Btn1Down>,<Btn1Motion>: slide(bar)\n<Btn1Down>,<Btn1Motion>,<Btn1Up>: set(cap)\n";
    let mut table = [0u8; tables::TABLE_LENGTH];
    match compiler::compile(text, &mut table) {
        Compiled::Accepted => run(&mut out, &table, text),
        Compiled::Refused { .. } => out.write_all(b"the table is refused\n"),
    }
}

// The rows of numbers that the lists of names give: what names stand for, the index of their groups, and the places of those that
// the writer uses.
// Made by tools/name_table from the lists of crates/model/specs/Names.antt and Details.antt: change those and run it again.
ghost use Rattle.std.specs.Prelude.{◌≡◌, ◌<◌};
ghost use Rattle.names.specs.Places.{type_total};
ghost use Rattle.names.specs.Groups.{modifier_line, type_line};
ghost use Rattle.names.specs.Table.{type_numbers};

// ---- What names stand for

// Of each modifier's name its bit, 0..12, and from 13 on Meta, Alt, Hyper and Super.
pub const MODIFIER_BITS: [u8; 24] = [
    14, // Alt
    8, // Button1
    9, // Button2
    10, // Button3
    11, // Button4
    12, // Button5
    2, // Ctrl
    15, // Hyper
    1, // Lock
    3, // Mod1
    4, // Mod2
    5, // Mod3
    6, // Mod4
    7, // Mod5
    13, // Meta
    0, // Shift
    16, // Super
    14, // a
    2, // c
    15, // h
    1, // l
    13, // m
    0, // s
    16, // su
];

// An event type's code; the modifier that it adds, 0..12, or 13 for none, 14 for any button, 15 for Meta; the button that it fixes,
// 0 for none.
#[derive(Clone, Copy)]
pub struct TypeNumbers(pub u8, pub u8, pub u8);

// The numbers of the event type at a place among the types.
pub fn type_numbers(i: usize) -> TypeNumbers
    requires { i < type_total }
    ensures { result ≡ type_numbers i }
{
    match i {
        0 => TypeNumbers(5, 13, 0), // BtnUp
        1 => TypeNumbers(5, 13, 1), // Btn1Up
        2 => TypeNumbers(5, 13, 2), // Btn2Up
        3 => TypeNumbers(5, 13, 3), // Btn3Up
        4 => TypeNumbers(5, 13, 4), // Btn4Up
        5 => TypeNumbers(5, 13, 5), // Btn5Up
        6 => TypeNumbers(4, 13, 0), // BtnDown
        7 => TypeNumbers(4, 13, 1), // Btn1Down
        8 => TypeNumbers(4, 13, 2), // Btn2Down
        9 => TypeNumbers(4, 13, 3), // Btn3Down
        10 => TypeNumbers(4, 13, 4), // Btn4Down
        11 => TypeNumbers(4, 13, 5), // Btn5Down
        12 => TypeNumbers(6, 14, 0), // BtnMotion
        13 => TypeNumbers(6, 8, 0), // Btn1Motion
        14 => TypeNumbers(6, 9, 0), // Btn2Motion
        15 => TypeNumbers(6, 10, 0), // Btn3Motion
        16 => TypeNumbers(6, 11, 0), // Btn4Motion
        17 => TypeNumbers(6, 12, 0), // Btn5Motion
        18 => TypeNumbers(4, 13, 0), // ButtonPress
        19 => TypeNumbers(5, 13, 0), // ButtonRelease
        20 => TypeNumbers(26, 13, 0), // Circ
        21 => TypeNumbers(2, 2, 0), // Ctrl
        22 => TypeNumbers(16, 13, 0), // Create
        23 => TypeNumbers(32, 13, 0), // Clrmap
        24 => TypeNumbers(27, 13, 0), // CircReq
        25 => TypeNumbers(22, 13, 0), // Configure
        26 => TypeNumbers(16, 13, 0), // CreateNotify
        27 => TypeNumbers(23, 13, 0), // ConfigureReq
        28 => TypeNumbers(33, 13, 0), // ClientMessage
        29 => TypeNumbers(32, 13, 0), // ColormapNotify
        30 => TypeNumbers(22, 13, 0), // ConfigureNotify
        31 => TypeNumbers(26, 13, 0), // CirculateNotify
        32 => TypeNumbers(23, 13, 0), // ConfigureRequest
        33 => TypeNumbers(27, 13, 0), // CirculateRequest
        34 => TypeNumbers(17, 13, 0), // Destroy
        35 => TypeNumbers(17, 13, 0), // DestroyNotify
        36 => TypeNumbers(7, 13, 0), // Enter
        37 => TypeNumbers(12, 13, 0), // Expose
        38 => TypeNumbers(7, 13, 0), // EnterNotify
        39 => TypeNumbers(7, 13, 0), // EnterWindow
        40 => TypeNumbers(9, 13, 0), // FocusIn
        41 => TypeNumbers(10, 13, 0), // FocusOut
        42 => TypeNumbers(24, 13, 0), // Grav
        43 => TypeNumbers(13, 13, 0), // GrExp
        44 => TypeNumbers(24, 13, 0), // GravityNotify
        45 => TypeNumbers(13, 13, 0), // GraphicsExpose
        46 => TypeNumbers(2, 13, 0), // Key
        47 => TypeNumbers(3, 13, 0), // KeyUp
        48 => TypeNumbers(11, 13, 0), // Keymap
        49 => TypeNumbers(2, 13, 0), // KeyDown
        50 => TypeNumbers(2, 13, 0), // KeyPress
        51 => TypeNumbers(3, 13, 0), // KeyRelease
        52 => TypeNumbers(11, 13, 0), // KeymapNotify
        53 => TypeNumbers(8, 13, 0), // Leave
        54 => TypeNumbers(8, 13, 0), // LeaveNotify
        55 => TypeNumbers(8, 13, 0), // LeaveWindow
        56 => TypeNumbers(19, 13, 0), // Map
        57 => TypeNumbers(2, 15, 0), // Meta
        58 => TypeNumbers(6, 13, 0), // Motion
        59 => TypeNumbers(20, 13, 0), // MapReq
        60 => TypeNumbers(33, 13, 0), // Message
        61 => TypeNumbers(34, 13, 0), // Mapping
        62 => TypeNumbers(19, 13, 0), // MapNotify
        63 => TypeNumbers(20, 13, 0), // MapRequest
        64 => TypeNumbers(6, 13, 0), // MouseMoved
        65 => TypeNumbers(6, 13, 0), // MotionNotify
        66 => TypeNumbers(34, 13, 0), // MappingNotify
        67 => TypeNumbers(14, 13, 0), // NoExp
        68 => TypeNumbers(14, 13, 0), // NoExpose
        69 => TypeNumbers(28, 13, 0), // Prop
        70 => TypeNumbers(6, 13, 0), // PtrMoved
        71 => TypeNumbers(28, 13, 0), // PropertyNotify
        72 => TypeNumbers(25, 13, 0), // ResReq
        73 => TypeNumbers(21, 13, 0), // Reparent
        74 => TypeNumbers(25, 13, 0), // ResizeRequest
        75 => TypeNumbers(21, 13, 0), // ReparentNotify
        76 => TypeNumbers(2, 0, 0), // Shift
        77 => TypeNumbers(29, 13, 0), // SelClr
        78 => TypeNumbers(30, 13, 0), // SelReq
        79 => TypeNumbers(31, 13, 0), // Select
        80 => TypeNumbers(29, 13, 0), // SelectionClear
        81 => TypeNumbers(31, 13, 0), // SelectionNotify
        82 => TypeNumbers(30, 13, 0), // SelectionRequest
        83 => TypeNumbers(18, 13, 0), // Unmap
        84 => TypeNumbers(18, 13, 0), // UnmapNotify
        85 => TypeNumbers(15, 13, 0), // Visible
        86 => TypeNumbers(15, 13, 0), // VisibilityNotify
        _ => TypeNumbers(0, 0, 0),
    }
}

// Of each detail's name its value: keysyms, buttons, motion, modes, requests.
pub const DETAIL_VALUES: [u32; 39] = [
    0x20, // space
    0x2c, // comma
    0x3a, // colon
    0xff08, // BackSpace
    0xff09, // Tab
    0xff0d, // Return
    0xff1b, // Escape
    0xffff, // Delete
    0xff50, // Home
    0xff51, // Left
    0xff52, // Up
    0xff53, // Right
    0xff54, // Down
    0xffbe, // F1
    0xffbf, // F2
    0xffc0, // F3
    0xffc1, // F4
    0xffc2, // F5
    0xffc3, // F6
    0xffc4, // F7
    0xffc5, // F8
    0xffc6, // F9
    0xffc7, // F10
    0xffc8, // F11
    0xffc9, // F12
    1, // Button1
    2, // Button2
    3, // Button3
    4, // Button4
    5, // Button5
    0, // Normal
    1, // Hint
    0, // Normal
    1, // Grab
    2, // Ungrab
    3, // WhileGrabbed
    0, // Modifier
    1, // Keyboard
    2, // Pointer
];

// ---- The index of the groups. Its line of a first byte has where the group of each length begins, the shortest first, and where the
// last one ends.

pub const SHORTEST_MODIFIER: usize = 1;

pub const LONGEST_MODIFIER: usize = 7;

pub fn modifier_line(first: u8) -> [u8; 8]
    ensures { result ≡ modifier_line first }
{
    match first {
        b'A' => [0, 0, 0, 1, 1, 1, 1, 1],
        b'B' => [1, 1, 1, 1, 1, 1, 1, 6],
        b'C' => [6, 6, 6, 6, 7, 7, 7, 7],
        b'H' => [7, 7, 7, 7, 7, 8, 8, 8],
        b'L' => [8, 8, 8, 8, 9, 9, 9, 9],
        b'M' => [9, 9, 9, 9, 15, 15, 15, 15],
        b'S' => [15, 15, 15, 15, 15, 17, 17, 17],
        b'a' => [17, 18, 18, 18, 18, 18, 18, 18],
        b'c' => [18, 19, 19, 19, 19, 19, 19, 19],
        b'h' => [19, 20, 20, 20, 20, 20, 20, 20],
        b'l' => [20, 21, 21, 21, 21, 21, 21, 21],
        b'm' => [21, 22, 22, 22, 22, 22, 22, 22],
        b's' => [22, 23, 24, 24, 24, 24, 24, 24],
        _ => [0u8; 8],
    }
}

pub const SHORTEST_TYPE: usize = 3;

pub const LONGEST_TYPE: usize = 16;

pub fn type_line(first: u8) -> [u8; 15]
    ensures { result ≡ type_line first }
{
    match first {
        b'B' => [0, 0, 0, 1, 6, 7, 12, 13, 18, 19, 19, 20, 20, 20, 20],
        b'C' => [20, 20, 22, 22, 24, 25, 25, 26, 26, 26, 28, 29, 30, 32, 34],
        b'D' => [34, 34, 34, 34, 34, 35, 35, 35, 35, 35, 35, 36, 36, 36, 36],
        b'E' => [36, 36, 36, 37, 38, 38, 38, 38, 38, 40, 40, 40, 40, 40, 40],
        b'F' => [40, 40, 40, 40, 40, 41, 42, 42, 42, 42, 42, 42, 42, 42, 42],
        b'G' => [42, 42, 43, 44, 44, 44, 44, 44, 44, 44, 44, 45, 46, 46, 46],
        b'K' => [46, 47, 47, 48, 49, 50, 51, 51, 52, 52, 53, 53, 53, 53, 53],
        b'L' => [53, 53, 53, 54, 54, 54, 54, 54, 54, 56, 56, 56, 56, 56, 56],
        b'M' => [56, 57, 58, 58, 60, 62, 62, 63, 65, 65, 66, 67, 67, 67, 67],
        b'N' => [67, 67, 67, 68, 68, 68, 69, 69, 69, 69, 69, 69, 69, 69, 69],
        b'P' => [69, 69, 70, 70, 70, 70, 71, 71, 71, 71, 71, 71, 72, 72, 72],
        b'R' => [72, 72, 72, 72, 73, 73, 74, 74, 74, 74, 74, 75, 76, 76, 76],
        b'S' => [76, 76, 76, 77, 80, 80, 80, 80, 80, 80, 80, 80, 81, 82, 83],
        b'U' => [83, 83, 83, 84, 84, 84, 84, 84, 84, 85, 85, 85, 85, 85, 85],
        b'V' => [85, 85, 85, 85, 85, 86, 86, 86, 86, 86, 86, 86, 86, 86, 87],
        _ => [0u8; 15],
    }
}

// ---- The places of the names that the writer uses

pub const BUTTON_MOTION: usize = 80;

// Of the protocol's names, in the order of their codes.
pub const TYPE_PLACES: [u8; 33] = [
    118, // KeyPress
    119, // KeyRelease
    86, // ButtonPress
    87, // ButtonRelease
    133, // MotionNotify
    106, // EnterNotify
    122, // LeaveNotify
    108, // FocusIn
    109, // FocusOut
    120, // KeymapNotify
    105, // Expose
    113, // GraphicsExpose
    136, // NoExpose
    154, // VisibilityNotify
    94, // CreateNotify
    103, // DestroyNotify
    152, // UnmapNotify
    130, // MapNotify
    131, // MapRequest
    143, // ReparentNotify
    98, // ConfigureNotify
    100, // ConfigureRequest
    112, // GravityNotify
    142, // ResizeRequest
    99, // CirculateNotify
    101, // CirculateRequest
    139, // PropertyNotify
    148, // SelectionClear
    150, // SelectionRequest
    149, // SelectionNotify
    97, // ColormapNotify
    96, // ClientMessage
    134, // MappingNotify
];

// Of the long names of the modifier bits.
pub const BIT_PLACES: [u8; 13] = [
    59, // Shift
    52, // Lock
    50, // Ctrl
    53, // Mod1
    54, // Mod2
    55, // Mod3
    56, // Mod4
    57, // Mod5
    45, // Button1
    46, // Button2
    47, // Button3
    48, // Button4
    49, // Button5
];

// Of the long names whose bits the modifier map gives.
pub const LONG_PLACES: [u8; 4] = [
    58, // Meta
    44, // Alt
    51, // Hyper
    60, // Super
];

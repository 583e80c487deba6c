// The table of names: details, directives, `None` and `Any`, then modifiers and event types in the order of their groups. The bytes
// of a name stand at its place as numbers, so that a word is compared with it at once. A `match` on places is compiled to rows of
// constants; an array would be copied to the stack wherever it is read.
// Made by tools/name_table from the lists of crates/model/specs/Names.antt and Details.antt: change those and run it again.
ghost use Rattle.std.specs.Prelude.{◌≡◌, ◌<◌};
ghost use Rattle.names.specs.Places.{name_total};
ghost use Rattle.names.specs.Table.{name_row, spelling_of};

// The first place of each kind. A kind ends where the next one starts.
pub const KEYSYMS: usize = 0;

pub const BUTTONS: usize = 25;

pub const MOTIONS: usize = 30;

pub const MODES: usize = 32;

pub const REQUESTS: usize = 36;

pub const DIRECTIVES: usize = 39;

pub const NONE: usize = 42;

pub const ANY: usize = 43;

pub const MODIFIERS: usize = 44;

pub const TYPES: usize = 68;

// A name's length, its first eight bytes and the eight after them, each as a number with the first byte lowest.
#[derive(Clone, Copy)]
pub struct Spelling(pub usize, pub u64, pub u64);

// A spelling has room for no more bytes.
pub const LONGEST: usize = 16;

// The name at a place.
pub fn spelling_at(place: usize) -> Spelling
    requires { place < name_total }
    ensures { result ≡ spelling_of (name_row place) }
{
    match place {
        0 => Spelling(5, 0x6563617073, 0x0), // space
        1 => Spelling(5, 0x616d6d6f63, 0x0), // comma
        2 => Spelling(5, 0x6e6f6c6f63, 0x0), // colon
        3 => Spelling(9, 0x636170536b636142, 0x65), // BackSpace
        4 => Spelling(3, 0x626154, 0x0), // Tab
        5 => Spelling(6, 0x6e7275746552, 0x0), // Return
        6 => Spelling(6, 0x657061637345, 0x0), // Escape
        7 => Spelling(6, 0x6574656c6544, 0x0), // Delete
        8 => Spelling(4, 0x656d6f48, 0x0), // Home
        9 => Spelling(4, 0x7466654c, 0x0), // Left
        10 => Spelling(2, 0x7055, 0x0), // Up
        11 => Spelling(5, 0x7468676952, 0x0), // Right
        12 => Spelling(4, 0x6e776f44, 0x0), // Down
        13 => Spelling(2, 0x3146, 0x0), // F1
        14 => Spelling(2, 0x3246, 0x0), // F2
        15 => Spelling(2, 0x3346, 0x0), // F3
        16 => Spelling(2, 0x3446, 0x0), // F4
        17 => Spelling(2, 0x3546, 0x0), // F5
        18 => Spelling(2, 0x3646, 0x0), // F6
        19 => Spelling(2, 0x3746, 0x0), // F7
        20 => Spelling(2, 0x3846, 0x0), // F8
        21 => Spelling(2, 0x3946, 0x0), // F9
        22 => Spelling(3, 0x303146, 0x0), // F10
        23 => Spelling(3, 0x313146, 0x0), // F11
        24 => Spelling(3, 0x323146, 0x0), // F12
        25 => Spelling(7, 0x316e6f74747542, 0x0), // Button1
        26 => Spelling(7, 0x326e6f74747542, 0x0), // Button2
        27 => Spelling(7, 0x336e6f74747542, 0x0), // Button3
        28 => Spelling(7, 0x346e6f74747542, 0x0), // Button4
        29 => Spelling(7, 0x356e6f74747542, 0x0), // Button5
        30 => Spelling(6, 0x6c616d726f4e, 0x0), // Normal
        31 => Spelling(4, 0x746e6948, 0x0), // Hint
        32 => Spelling(6, 0x6c616d726f4e, 0x0), // Normal
        33 => Spelling(4, 0x62617247, 0x0), // Grab
        34 => Spelling(6, 0x626172676e55, 0x0), // Ungrab
        35 => Spelling(12, 0x617247656c696857, 0x64656262), // WhileGrabbed
        36 => Spelling(8, 0x7265696669646f4d, 0x0), // Modifier
        37 => Spelling(8, 0x6472616f6279654b, 0x0), // Keyboard
        38 => Spelling(7, 0x7265746e696f50, 0x0), // Pointer
        39 => Spelling(8, 0x6563616c70657223, 0x0), // #replace
        40 => Spelling(9, 0x6469727265766f23, 0x65), // #override
        41 => Spelling(8, 0x746e656d67756123, 0x0), // #augment
        42 => Spelling(4, 0x656e6f4e, 0x0), // None
        43 => Spelling(3, 0x796e41, 0x0), // Any
        44 => Spelling(3, 0x746c41, 0x0), // Alt
        45 => Spelling(7, 0x316e6f74747542, 0x0), // Button1
        46 => Spelling(7, 0x326e6f74747542, 0x0), // Button2
        47 => Spelling(7, 0x336e6f74747542, 0x0), // Button3
        48 => Spelling(7, 0x346e6f74747542, 0x0), // Button4
        49 => Spelling(7, 0x356e6f74747542, 0x0), // Button5
        50 => Spelling(4, 0x6c727443, 0x0), // Ctrl
        51 => Spelling(5, 0x7265707948, 0x0), // Hyper
        52 => Spelling(4, 0x6b636f4c, 0x0), // Lock
        53 => Spelling(4, 0x31646f4d, 0x0), // Mod1
        54 => Spelling(4, 0x32646f4d, 0x0), // Mod2
        55 => Spelling(4, 0x33646f4d, 0x0), // Mod3
        56 => Spelling(4, 0x34646f4d, 0x0), // Mod4
        57 => Spelling(4, 0x35646f4d, 0x0), // Mod5
        58 => Spelling(4, 0x6174654d, 0x0), // Meta
        59 => Spelling(5, 0x7466696853, 0x0), // Shift
        60 => Spelling(5, 0x7265707553, 0x0), // Super
        61 => Spelling(1, 0x61, 0x0), // a
        62 => Spelling(1, 0x63, 0x0), // c
        63 => Spelling(1, 0x68, 0x0), // h
        64 => Spelling(1, 0x6c, 0x0), // l
        65 => Spelling(1, 0x6d, 0x0), // m
        66 => Spelling(1, 0x73, 0x0), // s
        67 => Spelling(2, 0x7573, 0x0), // su
        68 => Spelling(5, 0x70556e7442, 0x0), // BtnUp
        69 => Spelling(6, 0x7055316e7442, 0x0), // Btn1Up
        70 => Spelling(6, 0x7055326e7442, 0x0), // Btn2Up
        71 => Spelling(6, 0x7055336e7442, 0x0), // Btn3Up
        72 => Spelling(6, 0x7055346e7442, 0x0), // Btn4Up
        73 => Spelling(6, 0x7055356e7442, 0x0), // Btn5Up
        74 => Spelling(7, 0x6e776f446e7442, 0x0), // BtnDown
        75 => Spelling(8, 0x6e776f44316e7442, 0x0), // Btn1Down
        76 => Spelling(8, 0x6e776f44326e7442, 0x0), // Btn2Down
        77 => Spelling(8, 0x6e776f44336e7442, 0x0), // Btn3Down
        78 => Spelling(8, 0x6e776f44346e7442, 0x0), // Btn4Down
        79 => Spelling(8, 0x6e776f44356e7442, 0x0), // Btn5Down
        80 => Spelling(9, 0x6f69746f4d6e7442, 0x6e), // BtnMotion
        81 => Spelling(10, 0x69746f4d316e7442, 0x6e6f), // Btn1Motion
        82 => Spelling(10, 0x69746f4d326e7442, 0x6e6f), // Btn2Motion
        83 => Spelling(10, 0x69746f4d336e7442, 0x6e6f), // Btn3Motion
        84 => Spelling(10, 0x69746f4d346e7442, 0x6e6f), // Btn4Motion
        85 => Spelling(10, 0x69746f4d356e7442, 0x6e6f), // Btn5Motion
        86 => Spelling(11, 0x72506e6f74747542, 0x737365), // ButtonPress
        87 => Spelling(13, 0x65526e6f74747542, 0x657361656c), // ButtonRelease
        88 => Spelling(4, 0x63726943, 0x0), // Circ
        89 => Spelling(4, 0x6c727443, 0x0), // Ctrl
        90 => Spelling(6, 0x657461657243, 0x0), // Create
        91 => Spelling(6, 0x70616d726c43, 0x0), // Clrmap
        92 => Spelling(7, 0x71655263726943, 0x0), // CircReq
        93 => Spelling(9, 0x72756769666e6f43, 0x65), // Configure
        94 => Spelling(12, 0x6f4e657461657243, 0x79666974), // CreateNotify
        95 => Spelling(12, 0x72756769666e6f43, 0x71655265), // ConfigureReq
        96 => Spelling(13, 0x654d746e65696c43, 0x6567617373), // ClientMessage
        97 => Spelling(14, 0x70616d726f6c6f43, 0x796669746f4e), // ColormapNotify
        98 => Spelling(15, 0x72756769666e6f43, 0x796669746f4e65), // ConfigureNotify
        99 => Spelling(15, 0x74616c7563726943, 0x796669746f4e65), // CirculateNotify
        100 => Spelling(16, 0x72756769666e6f43, 0x7473657571655265), // ConfigureRequest
        101 => Spelling(16, 0x74616c7563726943, 0x7473657571655265), // CirculateRequest
        102 => Spelling(7, 0x796f7274736544, 0x0), // Destroy
        103 => Spelling(13, 0x4e796f7274736544, 0x796669746f), // DestroyNotify
        104 => Spelling(5, 0x7265746e45, 0x0), // Enter
        105 => Spelling(6, 0x65736f707845, 0x0), // Expose
        106 => Spelling(11, 0x746f4e7265746e45, 0x796669), // EnterNotify
        107 => Spelling(11, 0x6e69577265746e45, 0x776f64), // EnterWindow
        108 => Spelling(7, 0x6e497375636f46, 0x0), // FocusIn
        109 => Spelling(8, 0x74754f7375636f46, 0x0), // FocusOut
        110 => Spelling(4, 0x76617247, 0x0), // Grav
        111 => Spelling(5, 0x7078457247, 0x0), // GrExp
        112 => Spelling(13, 0x4e79746976617247, 0x796669746f), // GravityNotify
        113 => Spelling(14, 0x7363696870617247, 0x65736f707845), // GraphicsExpose
        114 => Spelling(3, 0x79654b, 0x0), // Key
        115 => Spelling(5, 0x705579654b, 0x0), // KeyUp
        116 => Spelling(6, 0x70616d79654b, 0x0), // Keymap
        117 => Spelling(7, 0x6e776f4479654b, 0x0), // KeyDown
        118 => Spelling(8, 0x737365725079654b, 0x0), // KeyPress
        119 => Spelling(10, 0x61656c655279654b, 0x6573), // KeyRelease
        120 => Spelling(12, 0x6f4e70616d79654b, 0x79666974), // KeymapNotify
        121 => Spelling(5, 0x657661654c, 0x0), // Leave
        122 => Spelling(11, 0x746f4e657661654c, 0x796669), // LeaveNotify
        123 => Spelling(11, 0x6e6957657661654c, 0x776f64), // LeaveWindow
        124 => Spelling(3, 0x70614d, 0x0), // Map
        125 => Spelling(4, 0x6174654d, 0x0), // Meta
        126 => Spelling(6, 0x6e6f69746f4d, 0x0), // Motion
        127 => Spelling(6, 0x71655270614d, 0x0), // MapReq
        128 => Spelling(7, 0x6567617373654d, 0x0), // Message
        129 => Spelling(7, 0x676e697070614d, 0x0), // Mapping
        130 => Spelling(9, 0x6669746f4e70614d, 0x79), // MapNotify
        131 => Spelling(10, 0x657571655270614d, 0x7473), // MapRequest
        132 => Spelling(10, 0x766f4d6573756f4d, 0x6465), // MouseMoved
        133 => Spelling(12, 0x6f4e6e6f69746f4d, 0x79666974), // MotionNotify
        134 => Spelling(13, 0x4e676e697070614d, 0x796669746f), // MappingNotify
        135 => Spelling(5, 0x7078456f4e, 0x0), // NoExp
        136 => Spelling(8, 0x65736f7078456f4e, 0x0), // NoExpose
        137 => Spelling(4, 0x706f7250, 0x0), // Prop
        138 => Spelling(8, 0x6465766f4d727450, 0x0), // PtrMoved
        139 => Spelling(14, 0x79747265706f7250, 0x796669746f4e), // PropertyNotify
        140 => Spelling(6, 0x716552736552, 0x0), // ResReq
        141 => Spelling(8, 0x746e657261706552, 0x0), // Reparent
        142 => Spelling(13, 0x6552657a69736552, 0x7473657571), // ResizeRequest
        143 => Spelling(14, 0x746e657261706552, 0x796669746f4e), // ReparentNotify
        144 => Spelling(5, 0x7466696853, 0x0), // Shift
        145 => Spelling(6, 0x726c436c6553, 0x0), // SelClr
        146 => Spelling(6, 0x7165526c6553, 0x0), // SelReq
        147 => Spelling(6, 0x7463656c6553, 0x0), // Select
        148 => Spelling(14, 0x6f697463656c6553, 0x7261656c436e), // SelectionClear
        149 => Spelling(15, 0x6f697463656c6553, 0x796669746f4e6e), // SelectionNotify
        150 => Spelling(16, 0x6f697463656c6553, 0x747365757165526e), // SelectionRequest
        151 => Spelling(5, 0x70616d6e55, 0x0), // Unmap
        152 => Spelling(11, 0x746f4e70616d6e55, 0x796669), // UnmapNotify
        153 => Spelling(7, 0x656c6269736956, 0x0), // Visible
        154 => Spelling(16, 0x696c696269736956, 0x796669746f4e7974), // VisibilityNotify
        _ => Spelling(0, 0, 0),
    }
}

// The Latin-1 names of keysymdef.h in byte order: their bytes, one name after the other, where each begins, and their keysyms.
// Made by tools/name_table from the list of crates/model/specs/Latin1.antt: change that and run it again.

// How many names there are.
pub const TOTAL: usize = 197;

// The bytes of all names.
pub const NAME_BYTES: [u8; 1100] = *b"\
    0\
    1\
    2\
    3\
    4\
    5\
    6\
    7\
    8\
    9\
    A\
    AE\
    Aacute\
    Acircumflex\
    Adiaeresis\
    Agrave\
    Aring\
    Atilde\
    B\
    C\
    Ccedilla\
    D\
    E\
    ETH\
    Eacute\
    Ecircumflex\
    Ediaeresis\
    Egrave\
    Eth\
    F\
    G\
    H\
    I\
    Iacute\
    Icircumflex\
    Idiaeresis\
    Igrave\
    J\
    K\
    L\
    M\
    N\
    Ntilde\
    O\
    Oacute\
    Ocircumflex\
    Odiaeresis\
    Ograve\
    Ooblique\
    Oslash\
    Otilde\
    P\
    Q\
    R\
    S\
    T\
    THORN\
    Thorn\
    U\
    Uacute\
    Ucircumflex\
    Udiaeresis\
    Ugrave\
    V\
    W\
    X\
    Y\
    Yacute\
    Z\
    a\
    aacute\
    acircumflex\
    acute\
    adiaeresis\
    ae\
    agrave\
    ampersand\
    apostrophe\
    aring\
    asciicircum\
    asciitilde\
    asterisk\
    at\
    atilde\
    b\
    backslash\
    bar\
    braceleft\
    braceright\
    bracketleft\
    bracketright\
    brokenbar\
    c\
    ccedilla\
    cedilla\
    cent\
    colon\
    comma\
    copyright\
    currency\
    d\
    degree\
    diaeresis\
    division\
    dollar\
    e\
    eacute\
    ecircumflex\
    ediaeresis\
    egrave\
    equal\
    eth\
    exclam\
    exclamdown\
    f\
    g\
    grave\
    greater\
    guillemotleft\
    guillemotright\
    h\
    hyphen\
    i\
    iacute\
    icircumflex\
    idiaeresis\
    igrave\
    j\
    k\
    l\
    less\
    m\
    macron\
    masculine\
    minus\
    mu\
    multiply\
    n\
    nobreakspace\
    notsign\
    ntilde\
    numbersign\
    o\
    oacute\
    ocircumflex\
    odiaeresis\
    ograve\
    onehalf\
    onequarter\
    onesuperior\
    ooblique\
    ordfeminine\
    oslash\
    otilde\
    p\
    paragraph\
    parenleft\
    parenright\
    percent\
    period\
    periodcentered\
    plus\
    plusminus\
    q\
    question\
    questiondown\
    quotedbl\
    quoteleft\
    quoteright\
    r\
    registered\
    s\
    section\
    semicolon\
    slash\
    space\
    ssharp\
    sterling\
    t\
    thorn\
    threequarters\
    threesuperior\
    twosuperior\
    u\
    uacute\
    ucircumflex\
    udiaeresis\
    ugrave\
    underscore\
    v\
    w\
    x\
    y\
    yacute\
    ydiaeresis\
    yen\
    z";

// Where each name begins among the bytes, and where the last one ends.
pub const STARTS: [u16; 198] = [
    0, // 0
    1, // 1
    2, // 2
    3, // 3
    4, // 4
    5, // 5
    6, // 6
    7, // 7
    8, // 8
    9, // 9
    10, // A
    11, // AE
    13, // Aacute
    19, // Acircumflex
    30, // Adiaeresis
    40, // Agrave
    46, // Aring
    51, // Atilde
    57, // B
    58, // C
    59, // Ccedilla
    67, // D
    68, // E
    69, // ETH
    72, // Eacute
    78, // Ecircumflex
    89, // Ediaeresis
    99, // Egrave
    105, // Eth
    108, // F
    109, // G
    110, // H
    111, // I
    112, // Iacute
    118, // Icircumflex
    129, // Idiaeresis
    139, // Igrave
    145, // J
    146, // K
    147, // L
    148, // M
    149, // N
    150, // Ntilde
    156, // O
    157, // Oacute
    163, // Ocircumflex
    174, // Odiaeresis
    184, // Ograve
    190, // Ooblique
    198, // Oslash
    204, // Otilde
    210, // P
    211, // Q
    212, // R
    213, // S
    214, // T
    215, // THORN
    220, // Thorn
    225, // U
    226, // Uacute
    232, // Ucircumflex
    243, // Udiaeresis
    253, // Ugrave
    259, // V
    260, // W
    261, // X
    262, // Y
    263, // Yacute
    269, // Z
    270, // a
    271, // aacute
    277, // acircumflex
    288, // acute
    293, // adiaeresis
    303, // ae
    305, // agrave
    311, // ampersand
    320, // apostrophe
    330, // aring
    335, // asciicircum
    346, // asciitilde
    356, // asterisk
    364, // at
    366, // atilde
    372, // b
    373, // backslash
    382, // bar
    385, // braceleft
    394, // braceright
    404, // bracketleft
    415, // bracketright
    427, // brokenbar
    436, // c
    437, // ccedilla
    445, // cedilla
    452, // cent
    456, // colon
    461, // comma
    466, // copyright
    475, // currency
    483, // d
    484, // degree
    490, // diaeresis
    499, // division
    507, // dollar
    513, // e
    514, // eacute
    520, // ecircumflex
    531, // ediaeresis
    541, // egrave
    547, // equal
    552, // eth
    555, // exclam
    561, // exclamdown
    571, // f
    572, // g
    573, // grave
    578, // greater
    585, // guillemotleft
    598, // guillemotright
    612, // h
    613, // hyphen
    619, // i
    620, // iacute
    626, // icircumflex
    637, // idiaeresis
    647, // igrave
    653, // j
    654, // k
    655, // l
    656, // less
    660, // m
    661, // macron
    667, // masculine
    676, // minus
    681, // mu
    683, // multiply
    691, // n
    692, // nobreakspace
    704, // notsign
    711, // ntilde
    717, // numbersign
    727, // o
    728, // oacute
    734, // ocircumflex
    745, // odiaeresis
    755, // ograve
    761, // onehalf
    768, // onequarter
    778, // onesuperior
    789, // ooblique
    797, // ordfeminine
    808, // oslash
    814, // otilde
    820, // p
    821, // paragraph
    830, // parenleft
    839, // parenright
    849, // percent
    856, // period
    862, // periodcentered
    876, // plus
    880, // plusminus
    889, // q
    890, // question
    898, // questiondown
    910, // quotedbl
    918, // quoteleft
    927, // quoteright
    937, // r
    938, // registered
    948, // s
    949, // section
    956, // semicolon
    965, // slash
    970, // space
    975, // ssharp
    981, // sterling
    989, // t
    990, // thorn
    995, // threequarters
    1008, // threesuperior
    1021, // twosuperior
    1032, // u
    1033, // uacute
    1039, // ucircumflex
    1050, // udiaeresis
    1060, // ugrave
    1066, // underscore
    1076, // v
    1077, // w
    1078, // x
    1079, // y
    1080, // yacute
    1086, // ydiaeresis
    1096, // yen
    1099, // z
    1100,
];

// The keysym of each name.
pub const VALUES: [u8; 197] = [
    0x30, // 0
    0x31, // 1
    0x32, // 2
    0x33, // 3
    0x34, // 4
    0x35, // 5
    0x36, // 6
    0x37, // 7
    0x38, // 8
    0x39, // 9
    0x41, // A
    0xc6, // AE
    0xc1, // Aacute
    0xc2, // Acircumflex
    0xc4, // Adiaeresis
    0xc0, // Agrave
    0xc5, // Aring
    0xc3, // Atilde
    0x42, // B
    0x43, // C
    0xc7, // Ccedilla
    0x44, // D
    0x45, // E
    0xd0, // ETH
    0xc9, // Eacute
    0xca, // Ecircumflex
    0xcb, // Ediaeresis
    0xc8, // Egrave
    0xd0, // Eth
    0x46, // F
    0x47, // G
    0x48, // H
    0x49, // I
    0xcd, // Iacute
    0xce, // Icircumflex
    0xcf, // Idiaeresis
    0xcc, // Igrave
    0x4a, // J
    0x4b, // K
    0x4c, // L
    0x4d, // M
    0x4e, // N
    0xd1, // Ntilde
    0x4f, // O
    0xd3, // Oacute
    0xd4, // Ocircumflex
    0xd6, // Odiaeresis
    0xd2, // Ograve
    0xd8, // Ooblique
    0xd8, // Oslash
    0xd5, // Otilde
    0x50, // P
    0x51, // Q
    0x52, // R
    0x53, // S
    0x54, // T
    0xde, // THORN
    0xde, // Thorn
    0x55, // U
    0xda, // Uacute
    0xdb, // Ucircumflex
    0xdc, // Udiaeresis
    0xd9, // Ugrave
    0x56, // V
    0x57, // W
    0x58, // X
    0x59, // Y
    0xdd, // Yacute
    0x5a, // Z
    0x61, // a
    0xe1, // aacute
    0xe2, // acircumflex
    0xb4, // acute
    0xe4, // adiaeresis
    0xe6, // ae
    0xe0, // agrave
    0x26, // ampersand
    0x27, // apostrophe
    0xe5, // aring
    0x5e, // asciicircum
    0x7e, // asciitilde
    0x2a, // asterisk
    0x40, // at
    0xe3, // atilde
    0x62, // b
    0x5c, // backslash
    0x7c, // bar
    0x7b, // braceleft
    0x7d, // braceright
    0x5b, // bracketleft
    0x5d, // bracketright
    0xa6, // brokenbar
    0x63, // c
    0xe7, // ccedilla
    0xb8, // cedilla
    0xa2, // cent
    0x3a, // colon
    0x2c, // comma
    0xa9, // copyright
    0xa4, // currency
    0x64, // d
    0xb0, // degree
    0xa8, // diaeresis
    0xf7, // division
    0x24, // dollar
    0x65, // e
    0xe9, // eacute
    0xea, // ecircumflex
    0xeb, // ediaeresis
    0xe8, // egrave
    0x3d, // equal
    0xf0, // eth
    0x21, // exclam
    0xa1, // exclamdown
    0x66, // f
    0x67, // g
    0x60, // grave
    0x3e, // greater
    0xab, // guillemotleft
    0xbb, // guillemotright
    0x68, // h
    0xad, // hyphen
    0x69, // i
    0xed, // iacute
    0xee, // icircumflex
    0xef, // idiaeresis
    0xec, // igrave
    0x6a, // j
    0x6b, // k
    0x6c, // l
    0x3c, // less
    0x6d, // m
    0xaf, // macron
    0xba, // masculine
    0x2d, // minus
    0xb5, // mu
    0xd7, // multiply
    0x6e, // n
    0xa0, // nobreakspace
    0xac, // notsign
    0xf1, // ntilde
    0x23, // numbersign
    0x6f, // o
    0xf3, // oacute
    0xf4, // ocircumflex
    0xf6, // odiaeresis
    0xf2, // ograve
    0xbd, // onehalf
    0xbc, // onequarter
    0xb9, // onesuperior
    0xf8, // ooblique
    0xaa, // ordfeminine
    0xf8, // oslash
    0xf5, // otilde
    0x70, // p
    0xb6, // paragraph
    0x28, // parenleft
    0x29, // parenright
    0x25, // percent
    0x2e, // period
    0xb7, // periodcentered
    0x2b, // plus
    0xb1, // plusminus
    0x71, // q
    0x3f, // question
    0xbf, // questiondown
    0x22, // quotedbl
    0x60, // quoteleft
    0x27, // quoteright
    0x72, // r
    0xae, // registered
    0x73, // s
    0xa7, // section
    0x3b, // semicolon
    0x2f, // slash
    0x20, // space
    0xdf, // ssharp
    0xa3, // sterling
    0x74, // t
    0xfe, // thorn
    0xbe, // threequarters
    0xb3, // threesuperior
    0xb2, // twosuperior
    0x75, // u
    0xfa, // uacute
    0xfb, // ucircumflex
    0xfc, // udiaeresis
    0xf9, // ugrave
    0x5f, // underscore
    0x76, // v
    0x77, // w
    0x78, // x
    0x79, // y
    0xfd, // yacute
    0xff, // ydiaeresis
    0xa5, // yen
    0x7a, // z
];

// The place of the first name of each keysym, of 0x20 to 0x7e and then of 0xa0 to 0xff.
pub const FIRST: [u16; 191] = [
    175, // space
    112, // exclam
    166, // quotedbl
    141, // numbersign
    104, // dollar
    158, // percent
    76, // ampersand
    77, // apostrophe
    156, // parenleft
    157, // parenright
    81, // asterisk
    161, // plus
    97, // comma
    134, // minus
    159, // period
    174, // slash
    0, // 0
    1, // 1
    2, // 2
    3, // 3
    4, // 4
    5, // 5
    6, // 6
    7, // 7
    8, // 8
    9, // 9
    96, // colon
    173, // semicolon
    130, // less
    110, // equal
    117, // greater
    164, // question
    82, // at
    10, // A
    18, // B
    19, // C
    21, // D
    22, // E
    29, // F
    30, // G
    31, // H
    32, // I
    37, // J
    38, // K
    39, // L
    40, // M
    41, // N
    43, // O
    51, // P
    52, // Q
    53, // R
    54, // S
    55, // T
    58, // U
    63, // V
    64, // W
    65, // X
    66, // Y
    68, // Z
    89, // bracketleft
    85, // backslash
    90, // bracketright
    79, // asciicircum
    188, // underscore
    116, // grave
    69, // a
    84, // b
    92, // c
    100, // d
    105, // e
    114, // f
    115, // g
    120, // h
    122, // i
    127, // j
    128, // k
    129, // l
    131, // m
    137, // n
    142, // o
    154, // p
    163, // q
    169, // r
    171, // s
    178, // t
    183, // u
    189, // v
    190, // w
    191, // x
    192, // y
    196, // z
    87, // braceleft
    86, // bar
    88, // braceright
    80, // asciitilde
    138, // nobreakspace
    113, // exclamdown
    95, // cent
    177, // sterling
    99, // currency
    195, // yen
    91, // brokenbar
    172, // section
    102, // diaeresis
    98, // copyright
    151, // ordfeminine
    118, // guillemotleft
    139, // notsign
    121, // hyphen
    170, // registered
    132, // macron
    101, // degree
    162, // plusminus
    182, // twosuperior
    181, // threesuperior
    72, // acute
    135, // mu
    155, // paragraph
    160, // periodcentered
    94, // cedilla
    149, // onesuperior
    133, // masculine
    119, // guillemotright
    148, // onequarter
    147, // onehalf
    180, // threequarters
    165, // questiondown
    15, // Agrave
    12, // Aacute
    13, // Acircumflex
    17, // Atilde
    14, // Adiaeresis
    16, // Aring
    11, // AE
    20, // Ccedilla
    27, // Egrave
    24, // Eacute
    25, // Ecircumflex
    26, // Ediaeresis
    36, // Igrave
    33, // Iacute
    34, // Icircumflex
    35, // Idiaeresis
    23, // ETH
    42, // Ntilde
    47, // Ograve
    44, // Oacute
    45, // Ocircumflex
    50, // Otilde
    46, // Odiaeresis
    136, // multiply
    48, // Ooblique
    62, // Ugrave
    59, // Uacute
    60, // Ucircumflex
    61, // Udiaeresis
    67, // Yacute
    56, // THORN
    176, // ssharp
    75, // agrave
    70, // aacute
    71, // acircumflex
    83, // atilde
    73, // adiaeresis
    78, // aring
    74, // ae
    93, // ccedilla
    109, // egrave
    106, // eacute
    107, // ecircumflex
    108, // ediaeresis
    126, // igrave
    123, // iacute
    124, // icircumflex
    125, // idiaeresis
    111, // eth
    140, // ntilde
    146, // ograve
    143, // oacute
    144, // ocircumflex
    153, // otilde
    145, // odiaeresis
    103, // division
    150, // ooblique
    187, // ugrave
    184, // uacute
    185, // ucircumflex
    186, // udiaeresis
    193, // yacute
    179, // thorn
    194, // ydiaeresis
];

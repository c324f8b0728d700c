// The kinds of tokens that readers ask for: a sign is 10 and its number among the signs, a keyword 60 and its number among the
// keywords.

pub const GLOBAL: u16 = 4;

pub const BRACE: u16 = 10;

pub const UNBRACE: u16 = 11;

pub const PAREN: u16 = 12;

pub const UNPAREN: u16 = 13;

pub const BRACKET: u16 = 14;

pub const UNBRACKET: u16 = 15;

pub const COMMA: u16 = 16;

pub const SEMICOLON: u16 = 17;

pub const COLON: u16 = 18;

pub const DOT: u16 = 19;

pub const QUESTION: u16 = 20;

pub const EQUALS: u16 = 21;

pub const LESS: u16 = 22;

pub const GREATER: u16 = 23;

pub const AMP: u16 = 24;

pub const BAR: u16 = 25;

pub const CARET: u16 = 26;

pub const PLUS: u16 = 27;

pub const MINUS: u16 = 28;

pub const TIMES: u16 = 29;

pub const SLASH: u16 = 30;

pub const PERCENT: u16 = 31;

pub const BANG: u16 = 32;

pub const TILDE: u16 = 33;

pub const EQUAL: u16 = 34;

pub const UNEQUAL: u16 = 35;

pub const AT_MOST: u16 = 36;

pub const AT_LEAST: u16 = 37;

pub const SHIFT_LEFT: u16 = 38;

pub const SHIFT_RIGHT: u16 = 39;

pub const BOTH: u16 = 40;

pub const EITHER_ONE: u16 = 41;

pub const ARROW: u16 = 42;

pub const COLONS: u16 = 43;

pub const KW_AS: u16 = 61;

pub const KW_BASE: u16 = 62;

pub const KW_BOOL: u16 = 63;

pub const KW_BYTE: u16 = 65;

pub const KW_CHAR: u16 = 68;

pub const KW_CHECKED: u16 = 69;

pub const KW_DEFAULT: u16 = 74;

pub const KW_INT: u16 = 93;

pub const KW_IS: u16 = 96;

pub const KW_LONG: u16 = 98;

pub const KW_NEW: u16 = 100;

pub const KW_NULL: u16 = 101;

pub const KW_OBJECT: u16 = 102;

pub const KW_OUT: u16 = 104;

pub const KW_REF: u16 = 111;

pub const KW_SBYTE: u16 = 113;

pub const KW_SHORT: u16 = 115;

pub const KW_THIS: u16 = 122;

pub const KW_TRUE: u16 = 124;

pub const KW_UINT: u16 = 127;

pub const KW_ULONG: u16 = 128;

pub const KW_UNCHECKED: u16 = 129;

pub const KW_USHORT: u16 = 131;

/// What may stand where a name is wanted.
pub const NAMES: [u16; 5] = [0, 4, 5, 6, 7];

/// The keywords that name a type.
pub const KEYWORD_TYPES: [u16; 12] = [63, 68, 113, 65, 115, 131, 93, 127, 98, 128, 102, 119];

/// The tokens that are an expression by themselves.
pub const SIMPLE: [u16; 12] = [0, 5, 6, 7, 1, 8, 2, 3, 124, 83, 101, 122];

/// What begins with a construct that counts as a level.
pub const COUNTED: [u16; 5] = [12, 100, 74, 69, 129];

/// What an operand of a cast begins with.
pub const OPERAND: [u16; 19] = [
    0, 5, 6, 7, 1, 8, 2, 3, 124, 83, 101, 122, 12, 100, 74, 69, 129, 62, 4,
];

/// What an expression begins with.
pub const EXPRESSION: [u16; 22] = [
    32, 33, 28, 0, 5, 6, 7, 1, 8, 2, 3, 124, 83, 101, 122, 12, 100, 74, 69, 129, 62, 4,
];

pub const UNARY: [u16; 3] = [BANG, TILDE, MINUS];

pub const MULTIPLICATIVE: [u16; 3] = [TIMES, SLASH, PERCENT];

pub const ADDITIVE: [u16; 2] = [PLUS, MINUS];

pub const SHIFT: [u16; 2] = [SHIFT_LEFT, SHIFT_RIGHT];

pub const COMPARISONS: [u16; 4] = [LESS, GREATER, AT_MOST, AT_LEAST];

pub const TYPE_TESTS: [u16; 2] = [KW_IS, KW_AS];

pub const RELATIONAL: [u16; 6] = [LESS, GREATER, AT_MOST, AT_LEAST, KW_IS, KW_AS];

pub const EQUALITY: [u16; 2] = [EQUAL, UNEQUAL];

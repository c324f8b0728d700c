// The kinds of tokens that declarations begin with, and of those that tell members apart.

pub const NUMBER: u16 = 1;

pub const GETTER: u16 = 5;

pub const SETTER: u16 = 6;

pub const INDEXER: u16 = 7;

pub const KW_ABSTRACT: u16 = 60;

pub const KW_CLASS: u16 = 70;

pub const KW_CONST: u16 = 71;

pub const KW_DELEGATE: u16 = 75;

pub const KW_ENUM: u16 = 79;

pub const KW_EXTERN: u16 = 82;

pub const KW_INTERFACE: u16 = 94;

pub const KW_INTERNAL: u16 = 95;

pub const KW_NAMESPACE: u16 = 99;

pub const KW_OPERATOR: u16 = 103;

pub const KW_OVERRIDE: u16 = 105;

pub const KW_PRIVATE: u16 = 107;

pub const KW_PROTECTED: u16 = 108;

pub const KW_PUBLIC: u16 = 109;

pub const KW_READONLY: u16 = 110;

pub const KW_SEALED: u16 = 114;

pub const KW_STATIC: u16 = 118;

pub const KW_STRUCT: u16 = 120;

pub const KW_VIRTUAL: u16 = 133;

pub const KW_VOID: u16 = 134;

/// The words of an access.
pub const ACCESS: [u16; 4] = [KW_PUBLIC, KW_INTERNAL, KW_PRIVATE, KW_PROTECTED];

/// What a type with a body of members is told by.
pub const BODIES: [u16; 3] = [KW_CLASS, KW_INTERFACE, KW_STRUCT];

/// What a type is told by.
pub const TYPE_WORDS: [u16; 5] = [KW_CLASS, KW_INTERFACE, KW_STRUCT, KW_ENUM, KW_DELEGATE];

/// Names but `global`.
pub const PLAIN_NAMES: [u16; 4] = [0, 5, 6, 7];

/// Names that mean nothing of their own where a member begins.
pub const MAKERS: [u16; 3] = [0, 5, 6];

/// What the declaration of a type begins with.
pub const DECLARATIONS: [u16; 16] = [
    109, 95, 107, 108, 118, 60, 114, 133, 105, 110, 82, 70, 94, 120, 79, 75,
];

/// What a whole text is made of begins with one of these.
pub const SPACES: [u16; 17] = [
    99, 109, 95, 107, 108, 118, 60, 114, 133, 105, 110, 82, 70, 94, 120, 79, 75,
];

/// What stands in a type begins with one of these.
pub const ITEMS: [u16; 36] = [
    109, 95, 107, 108, 118, 60, 114, 133, 105, 110, 82, 70, 94, 120, 79, 75, 63, 68, 113, 65, 115,
    131, 93, 127, 98, 128, 102, 119, 4, 7, 0, 5, 6, 134, 103, 71,
];

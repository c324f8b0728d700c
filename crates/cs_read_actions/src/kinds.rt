// The kinds of tokens that readers of statements ask for: a sign is 10 and its number among the signs, a keyword 60 and its number
// among the keywords.

pub const PLUS_EQUALS: u16 = 44;

pub const MINUS_EQUALS: u16 = 45;

pub const TIMES_EQUALS: u16 = 46;

pub const AMP_EQUALS: u16 = 47;

pub const BAR_EQUALS: u16 = 48;

pub const KW_BREAK: u16 = 64;

pub const KW_CONTINUE: u16 = 72;

pub const KW_GOTO: u16 = 89;

pub const KW_RETURN: u16 = 112;

pub const KW_THROW: u16 = 123;

/// Names but `global`.
pub const PLAIN_NAMES: [u16; 4] = [0, 5, 6, 7];

/// Literals and `this`.
pub const UNNAMED: [u16; 8] = [1, 8, 2, 3, 124, 83, 101, 122];

/// The operators of compound assignments.
pub const COMPOUND: [u16; 6] = [44, 45, 46, 47, 48, 49];

/// `=` and the operators of compound assignments.
pub const ASSIGNMENT: [u16; 7] = [21, 44, 45, 46, 47, 48, 49];

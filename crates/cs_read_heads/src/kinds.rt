// The kinds of tokens that readers of statements with blocks ask for: a keyword is 60 and its number among the keywords.

pub const KW_CASE: u16 = 66;

pub const KW_CATCH: u16 = 67;

pub const KW_DO: u16 = 76;

pub const KW_ELSE: u16 = 78;

pub const KW_FINALLY: u16 = 84;

pub const KW_FOR: u16 = 87;

pub const KW_FOREACH: u16 = 88;

pub const KW_IF: u16 = 90;

pub const KW_IN: u16 = 92;

pub const KW_LOCK: u16 = 97;

pub const KW_SWITCH: u16 = 121;

pub const KW_TRY: u16 = 125;

pub const KW_USING: u16 = 132;

pub const KW_WHILE: u16 = 136;

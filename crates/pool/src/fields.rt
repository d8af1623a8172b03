// The words of each table's rows by name: places of words that C lends, so numbers.

// A string's.
pub const STRING_OFFSET: usize = 0;

pub const STRING_LENGTH: usize = 1;

// A name's: its kind, the row before its last component, a string row or the low half of a number, the high half.
pub const NAME_KIND: usize = 0;

pub const NAME_PREFIX: usize = 1;

pub const NAME_LOW: usize = 2;

pub const NAME_HIGH: usize = 3;

// A level's: its kind; the level or name that it is made of, the second level.
pub const LEVEL_KIND: usize = 0;

pub const LEVEL_FIRST: usize = 1;

pub const LEVEL_SECOND: usize = 2;

// A list's: its first list word, and how many it has.
pub const LIST_OFFSET: usize = 0;

pub const LIST_LENGTH: usize = 1;

// An expression's: its kind, depth and loose, and the fields of each kind.
pub const EXPR_KIND: usize = 0;

pub const EXPR_DEPTH: usize = 6;

pub const EXPR_LOOSE: usize = 7;

pub const VAR_INDEX: usize = 1;

pub const SORT_LEVEL: usize = 1;

pub const CONST_NAME: usize = 1;

pub const CONST_LIST: usize = 2;

// Of a natural or a string literal.
pub const LITERAL_STRING: usize = 1;

pub const APP_FUNCTION: usize = 1;

pub const APP_ARGUMENT: usize = 2;

// Of a pi or a lambda.
pub const BINDER_NAME: usize = 1;

pub const BINDER_STYLE: usize = 2;

pub const BINDER_TYPE: usize = 3;

pub const BINDER_BODY: usize = 4;

pub const LET_NAME: usize = 1;

pub const LET_TYPE: usize = 2;

pub const LET_VALUE: usize = 3;

pub const LET_BODY: usize = 4;

pub const LET_NONDEP: usize = 5;

pub const PROJ_NAME: usize = 1;

pub const PROJ_INDEX: usize = 2;

pub const PROJ_STRUCTURE: usize = 3;

// A declaration's.
pub const DECLAR_KIND: usize = 0;

pub const DECLAR_NAME: usize = 1;

pub const DECLAR_LIST: usize = 2;

pub const DECLAR_TYPE: usize = 3;

pub const DECLAR_VALUE: usize = 4;

// A notation row's.
pub const NOTATION_NAME: usize = 0;

pub const NOTATION_KIND: usize = 1;

pub const NOTATION_PRIORITY: usize = 2;

pub const NOTATION_STRING: usize = 3;

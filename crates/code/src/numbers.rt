// The numbers of document 01 and of the requests, each named once: contracts have them in specs/Limits.antt and specs/Refusals.antt, C in
// wrapper/bijterne.h, Rust in wrapper/src/lib.rs. wrapper/check compares the four.

// Condition 4: 'file over 65,535 .. bytes'.
pub const LONGEST_FILE: usize = 65535;

// Condition 4: 'term over 4,096 bytes'; condition 11: 'a compared body or written result over 4,096 bytes'.
pub const LONGEST_TERM: usize = 4096;

// Condition 11: 'a state where R, W, Y and B together exceed 8,192 bytes'.
pub const LONGEST_STATE: usize = 8192;

// Condition 6: 'over 253 abstractors in scope'; condition 11 counts the frame's too.
pub const MOST_ABSTRACTORS: usize = 253;

// What an answer's number says.
pub const ACCEPTED: u32 = 0;

pub const CUT_SHORT: u32 = 1;

pub const WRONG_FIELD: u32 = 2;

pub const NOT_ONE_TERM: u32 = 3;

pub const TOO_LONG: u32 = 4;

pub const BEYOND_SCOPE: u32 = 5;

pub const TOO_MANY_IN_SCOPE: u32 = 6;

pub const NO_TYPE: u32 = 7;

pub const STILL_WAITING: u32 = 8;

pub const NO_GROUP_LEFT: u32 = 9;

pub const STEP_NOT_POSSIBLE: u32 = 10;

pub const OUTGROWN: u32 = 11;

pub const BODIES_DIFFER: u32 = 12;

pub const GROUPS_LEFT: u32 = 13;

pub const BUFFER_TOO_SHORT: u32 = 14;

pub const TOO_LONG_TO_COUNT: u32 = 15;

pub const NOT_A_SET: u32 = 16;

// Proved never to be an answer.
pub const NEVER: u32 = 255;

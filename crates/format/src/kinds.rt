// The kinds of records, as in specs/Format.antt: their one home in code.
pub const RIG: u8 = 1;

pub const CLAIM: u8 = 2;

pub const RELEASE: u8 = 3;

pub const WITHDRAW: u8 = 4;

pub const CLOCK: u8 = 5;

// Document 02: desk.
pub const DECLARATION: u8 = 6;

pub const GRACE: u8 = 8;

// All are below it.
pub const BOUND: u8 = 9;

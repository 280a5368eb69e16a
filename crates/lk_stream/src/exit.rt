//! The exit statuses of a program that reads a text. Status 0 is success.

/// The words behind the program's name ask for nothing that it does.
pub const USAGE: u8 = 2;

/// The grammar refuses a line.
pub const BAD_INPUT: u8 = 3;

/// A read failed.
pub const READ_FAULT: u8 = 4;

/// A write failed.
pub const WRITE_FAULT: u8 = 5;

/// There is not enough memory.
pub const MEMORY: u8 = 6;

/// A line passes a limit.
pub const LIMIT: u8 = 7;

/// A line is the first that breaks an audited history.
pub const UNLAWFUL: u8 = 8;

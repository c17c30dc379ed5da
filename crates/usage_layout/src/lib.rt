//! The usage file: the bytes that it opens with, and in `specs/` its layout, what a file says, and the laws of both.

#![tactic(auto)]

/// The file's first four bytes, written by the writer and compared by the reader.
pub const MAGIC: [u8; 4] = *b"USGE";

//! What a call returns to C, as `c/hayro_ccitt.h` and `c/fax_encode.h` number it.

/// The call did what it is for.
pub const OK: u32 = 0;
/// The data ends inside a code word, or where a line must begin.
pub const UNEXPECTED_EOF: u32 = 1;
/// The bits are no code word, or strict data breaks a rule.
pub const INVALID_CODE: u32 = 2;
/// A length or a position has more than 32 bits, a changing element lies left of a0, or the data fed is too long.
pub const OVERFLOW: u32 = 3;
/// An allocation failed.
pub const OUT_OF_MEMORY: u32 = 4;
/// There is no room for what is next.
pub const REFUSED: u32 = 5;
/// The settings are invalid, the data is too long, or the handle isn't one of this call.
pub const NOT_TAKEN: u32 = 6;
/// No row is left.
pub const NO_ROW: u32 = 7;
/// More data is needed, or its end.
pub const NEEDS_MORE: u32 = 8;
/// The data that is checked doesn't conform.
pub const VIOLATION: u32 = 9;

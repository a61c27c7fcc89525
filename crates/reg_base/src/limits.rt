//! How long inputs and their lines may be.

/// How many bytes a line of a rule text or of a script may have, without its newline.
pub const MOST_LINE_BYTES: usize = 4096;

/// How many bytes a rule text, a database or a script may have.
pub const MOST_INPUT_BYTES: usize = 16_777_216;

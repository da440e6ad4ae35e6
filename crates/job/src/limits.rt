//! How many bytes a text may have that is held whole.

/// The most bytes of a text that is held whole in memory: 2^26. A list of counted vertices is such
/// a text, and so is an input of the program that is read whole.
pub const MOST_BYTES: usize = 67_108_864;

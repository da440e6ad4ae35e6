//! What is between the fields of a record.

/// What is between the fields of a record.
#[derive(Clone, Copy, Debug, PartialEq, Eq)]
pub enum Delimiter {
    /// A horizontal tab, the byte 9.
    Tab,
    /// A comma, the byte 44.
    Comma,
    /// One space, the byte 32; two in a row have an empty field between them.
    Space,
}

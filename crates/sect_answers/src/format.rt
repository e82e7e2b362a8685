//! How an answer is printed.

/// How an answer is printed.
#[derive(Clone, Copy, Debug)]
pub enum Format {
    /// Lines for a reader.
    Text,
    /// One JSON document, on a line.
    Json,
}

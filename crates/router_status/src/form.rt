//! How an answer is written.

/// How an answer is written.
#[derive(Clone, Copy)]
pub enum Form {
    /// As a line for people.
    Text,
    /// As an object, in a line of JSON.
    Json,
}

//! How what was found is written.

/// How the reports of `check`, `diff` and `lint` are written.
#[derive(Clone, Copy)]
pub enum Format {
    /// In lines for people.
    Text,
    /// In lines of JSON.
    Json,
}

/// How what comes of tests is written.
#[derive(Clone, Copy)]
pub enum TestFormat {
    /// In the lines of the Test Anything Protocol.
    Tap,
    /// In lines of JSON.
    Json,
    /// In JUnit's XML.
    Junit,
}

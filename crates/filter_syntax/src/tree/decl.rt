/// The kind of a variable.
#[derive(Clone, Copy, Debug, PartialEq, Eq)]
pub enum Kind {
    /// `int`
    Int,
    /// `bool`
    Bool,
    /// `ip`
    Ip,
    /// `prefix`
    Prefix,
}

/// The declaration of a variable.
#[derive(Drop)]
pub struct Decl {
    /// The place of the name.
    pub at: usize,
    /// The variable's kind.
    pub kind: Kind,
    /// The variable's name.
    pub name: Vec<u8>,
}

use filter_syntax::{Command, Decl};

/// What a filter says, without the tokens of its text.
#[derive(Drop)]
pub struct Parts {
    /// The filter's name.
    pub name: Vec<u8>,
    /// Its declarations, those before the body first.
    pub decls: Vec<Decl>,
    /// The commands of its body.
    pub body: Vec<Command>,
}

ghost use Rattle.std.specs.Prelude.{◌≡◌, map};
ghost use Rattle.filter_syntax.specs.Places.{body_of, decls_of};
ghost use Rattle.filter_syntax.specs.SyntaxCommands.{commands_of, view_command, view_decl};
ghost use Rattle.filter_syntax.specs.SyntaxText.{view_filter};

use crate::tree::command::Command;
use crate::tree::decl::Decl;
use filter_tokens::Token;

/// A filter that was read.
#[derive(Drop)]
pub struct Filter {
    name: Vec<u8>,
    decls: Vec<Decl>,
    body: Vec<Command>,
    tokens: Vec<Token>,
}

impl Filter {
    /// A filter by its name, its declarations, those before the body first, the commands of its body, and the tokens of its text.
    pub fn new(name: Vec<u8>, decls: Vec<Decl>, body: Vec<Command>, tokens: Vec<Token>) -> Filter
        ensures { result ≡ record { name = name; decls = decls; body = body; tokens = tokens } }
    {
        Filter {
            name,
            decls,
            body,
            tokens,
        }
    }

    /// The filter's name.
    pub fn name(&self) -> &[u8]
        ensures { result.now ≡ (view_filter self.now).name }
    {
        self.name.as_slice()
    }

    /// The variables in the order of their declarations, those before the body first.
    pub fn decls(&self) -> &[Decl]
        ensures value { result.now ≡ decls_of self.now }
        ensures view { map view_decl result.now ≡ (view_filter self.now).decls }
    {
        self.decls.as_slice()
    }

    /// The commands of the body.
    pub fn body(&self) -> &[Command]
        ensures value { result.now ≡ body_of self.now }
        ensures view { commands_of (map view_command result.now) ≡ (view_filter self.now).body }
    {
        self.body.as_slice()
    }

    /// The tokens of the text, each with the place of its first byte and the place after its last one.
    pub fn tokens(&self) -> &[Token]
        ensures { result.now ≡ (view_filter self.now).tokens }
    {
        self.tokens.as_slice()
    }

    /// The same, where nothing else of the filter is wanted any more.
    pub fn into_tokens(self) -> Vec<Token>
        ensures { result.items ≡ (view_filter self).tokens }
    {
        self.tokens
    }
}

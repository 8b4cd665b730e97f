use std::fmt;

/// What a text could have gone on with, where it goes on with something else.
#[derive(Clone, Copy, Debug, PartialEq, Eq)]
pub enum Expected {
    /// The word `filter`, with which each filter begins.
    FilterWord,
    /// A name.
    Name,
    /// A declaration, or the body's `{`.
    Body,
    /// A command, or the `}` that ends the commands.
    CommandOrEnd,
    /// A command.
    Command,
    /// The `;` that ends a declaration or a command.
    Semicolon,
    /// A text, or the `;` that ends the command.
    TextOrSemicolon,
    /// The `=` of an assignment.
    Assign,
    /// The word `then`.
    Then,
    /// A value: a number, a name, `(` and the like.
    Operand,
    /// A value, or a set.
    OperandOrSet,
    /// `(`
    LeftParen,
    /// `)`
    RightParen,
    /// `ip`, `len` or `mask`, after a dot.
    Part,
    /// A number.
    Number,
    /// `net` or `rip_metric`.
    Attribute,
    /// A number or a prefix, with which a set begins.
    Member,
    /// The `{` after the argument of `case`.
    LeftBrace,
    /// A command, a number or `else`, with which a part of `case` begins, or the `}` that ends the parts.
    CommandOrPart,
    /// A command, a number, or the `}` that ends the parts of a `case`, where its `else` part was.
    CommandOrRange,
    /// A `,` or a `:` after a range of a label.
    CommaOrColon,
    /// The `:` after `else`.
    Colon,
    /// A prefix, with which a pattern begins.
    Prefix,
    /// A `,` between two lengths.
    Comma,
    /// The `}` after two lengths.
    RightBrace,
    /// A `,` or a `]` in a set.
    CommaOrBracket,
    /// Nothing, after the filter.
    End,
}

impl fmt::Display for Expected {
    fn fmt<W: fmt::Write>(&self, f: &mut fmt::Formatter<W>) -> fmt::Result {
        f.write_str(match self {
            Expected::FilterWord => "`filter`",
            Expected::Name => "a name",
            Expected::Body => "a declaration or `{`",
            Expected::CommandOrEnd => "a command or `}`",
            Expected::Command => "a command",
            Expected::Semicolon => "`;`",
            Expected::TextOrSemicolon => "a text or `;`",
            Expected::Assign => "`=`",
            Expected::Then => "`then`",
            Expected::Operand => "a value",
            Expected::OperandOrSet => "a value or a set",
            Expected::LeftParen => "`(`",
            Expected::RightParen => "`)`",
            Expected::Part => "`ip`, `len` or `mask`",
            Expected::Number => "a number",
            Expected::Attribute => "`net` or `rip_metric`",
            Expected::Member => "a number or a prefix",
            Expected::LeftBrace => "`{`",
            Expected::CommandOrPart => "a command, a number, `else` or `}`",
            Expected::CommandOrRange => "a command, a number or `}`",
            Expected::CommaOrColon => "`,` or `:`",
            Expected::Colon => "`:`",
            Expected::Prefix => "a prefix",
            Expected::Comma => "`,`",
            Expected::RightBrace => "`}`",
            Expected::CommaOrBracket => "`,` or `]`",
            Expected::End => "the end of the text",
        })
    }
}

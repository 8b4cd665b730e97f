ghost use Rattle.std.specs.Prelude.{◌≡◌};

/// A keyword or a punctuator of the filter language.
#[derive(Clone, Copy, PartialEq, Eq)]
pub enum Symbol {
    /// `&&`
    And,
    /// `||`
    Or,
    /// `!=`
    NotEqual,
    /// `!~`
    NotMatch,
    /// `<=`
    LessEqual,
    /// `>=`
    GreaterEqual,
    /// `..`
    DotDot,
    /// `(`
    LeftParen,
    /// `)`
    RightParen,
    /// `{`
    LeftBrace,
    /// `}`
    RightBrace,
    /// `[`
    LeftBracket,
    /// `]`
    RightBracket,
    /// `;`
    Semicolon,
    /// `:`
    Colon,
    /// `,`
    Comma,
    /// `.`
    Dot,
    /// `=`
    Equal,
    /// `<`
    Less,
    /// `>`
    Greater,
    /// `~`
    Match,
    /// `!`
    Not,
    /// `+`
    Plus,
    /// `-`
    Minus,
    /// `*`
    Times,
    /// `/`
    Divide,
    /// `filter`
    Filter,
    /// `int`
    Int,
    /// `bool`
    Bool,
    /// `ip`
    Ip,
    /// `prefix`
    Prefix,
    /// `if`
    If,
    /// `then`
    Then,
    /// `else`
    Else,
    /// `case`
    Case,
    /// `accept`
    Accept,
    /// `reject`
    Reject,
    /// `true`
    True,
    /// `false`
    False,
    /// `defined`
    Defined,
    /// `net`
    Net,
    /// `rip_metric`
    RipMetric,
}

impl Symbol {
    ghost use Rattle.filter_tokens.specs.Symbols.{symbol_text};

    /// How it is written.
    pub fn text(&self) -> &'static str
        ensures { result.now ≡ symbol_text self.now }
    {
        match self {
            Symbol::And => "&&",
            Symbol::Or => "||",
            Symbol::NotEqual => "!=",
            Symbol::NotMatch => "!~",
            Symbol::LessEqual => "<=",
            Symbol::GreaterEqual => ">=",
            Symbol::DotDot => "..",
            Symbol::LeftParen => "(",
            Symbol::RightParen => ")",
            Symbol::LeftBrace => "{",
            Symbol::RightBrace => "}",
            Symbol::LeftBracket => "[",
            Symbol::RightBracket => "]",
            Symbol::Semicolon => ";",
            Symbol::Colon => ":",
            Symbol::Comma => ",",
            Symbol::Dot => ".",
            Symbol::Equal => "=",
            Symbol::Less => "<",
            Symbol::Greater => ">",
            Symbol::Match => "~",
            Symbol::Not => "!",
            Symbol::Plus => "+",
            Symbol::Minus => "-",
            Symbol::Times => "*",
            Symbol::Divide => "/",
            Symbol::Filter => "filter",
            Symbol::Int => "int",
            Symbol::Bool => "bool",
            Symbol::Ip => "ip",
            Symbol::Prefix => "prefix",
            Symbol::If => "if",
            Symbol::Then => "then",
            Symbol::Else => "else",
            Symbol::Case => "case",
            Symbol::Accept => "accept",
            Symbol::Reject => "reject",
            Symbol::True => "true",
            Symbol::False => "false",
            Symbol::Defined => "defined",
            Symbol::Net => "net",
            Symbol::RipMetric => "rip_metric",
        }
    }
}

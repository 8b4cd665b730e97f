//! The commands of scripts, and the words that each of them takes.

/// Whose script it is.
#[derive(Clone, Copy)]
pub enum ScriptKind {
    /// That of a router: `ncroute run`.
    Router,
    /// That of a whole domain: `ncroute domain`.
    Domain,
}

/// The first words of the commands of a router's script.
static ROUTER_VERBS: [&str; 15] = [
    "network",
    "prefix",
    "load",
    "code",
    "import",
    "export",
    "up",
    "down",
    "recv",
    "take",
    "show",
    "routes",
    "neighbours",
    "told",
    "history",
];

/// The first words of the commands of a domain's script.
static DOMAIN_VERBS: [&str; 18] = [
    "domain", "prefix", "load", "code", "link", "cut", "import", "export", "anew", "route", "path",
    "table", "draw", "reach", "mark", "changes", "failures", "settle",
];

/// The words that follow the first of a command.
#[derive(Clone, Copy)]
pub(crate) struct Form {
    /// How they are written.
    pub words: &'static str,
    /// How many there are at least.
    pub least: usize,
    /// How many there are at most.
    pub most: usize,
    /// So many of them are numbers, which come first.
    pub numbers: usize,
    /// The index in the line of the name of a filter, if one of them is that.
    pub name: Option<usize>,
}

/// The words of `network`, of which the third may be left out.
const NETWORK: Form = Form {
    words: "N ME [LIMIT]",
    least: 2,
    most: 3,
    numbers: 3,
    name: None,
};

/// The words of `domain`.
const DOMAIN: Form = Form {
    words: "N",
    least: 1,
    most: 1,
    numbers: 1,
    name: None,
};

/// The words of `prefix`.
const PREFIX: Form = Form {
    words: "V PREFIX",
    least: 2,
    most: 2,
    numbers: 1,
    name: None,
};

/// The words of `load`.
const TEXT: Form = Form {
    words: "NAME TEXT",
    least: 2,
    most: usize::MAX,
    numbers: 0,
    name: Some(1),
};

/// The words of `code`.
const FILE: Form = Form {
    words: "NAME HEX",
    least: 2,
    most: 2,
    numbers: 0,
    name: Some(1),
};

/// The words of `import` and `export` in a router's script.
const NAMED: Form = Form {
    words: "W NAME",
    least: 2,
    most: 2,
    numbers: 1,
    name: Some(2),
};

/// The words of `import` and `export` in a domain's script.
const NAMED_PAIR: Form = Form {
    words: "U W NAME",
    least: 3,
    most: 3,
    numbers: 2,
    name: Some(3),
};

/// The words of commands about a neighbour.
const NEIGHBOUR: Form = Form {
    words: "W",
    least: 1,
    most: 1,
    numbers: 1,
    name: None,
};

/// The words of `recv`.
const DISTANCE: Form = Form {
    words: "W V D",
    least: 3,
    most: 3,
    numbers: 3,
    name: None,
};

/// The words of commands about a destination.
const DESTINATION: Form = Form {
    words: "V",
    least: 1,
    most: 1,
    numbers: 1,
    name: None,
};

/// The words of `draw`.
const PICTURE: Form = Form {
    words: "V [changes]",
    least: 1,
    most: 2,
    numbers: 1,
    name: None,
};

/// The words of `history`.
const POSITION: Form = Form {
    words: "FROM",
    least: 1,
    most: 1,
    numbers: 1,
    name: None,
};

/// The words of commands about two neighbours.
const PAIR: Form = Form {
    words: "U W",
    least: 2,
    most: 2,
    numbers: 2,
    name: None,
};

/// The words of commands about a node and a destination.
const ROUTE: Form = Form {
    words: "U V",
    least: 2,
    most: 2,
    numbers: 2,
    name: None,
};

/// The words of `table` and `anew`.
const NODE: Form = Form {
    words: "U",
    least: 1,
    most: 1,
    numbers: 1,
    name: None,
};

/// The words of `failures`.
const FAILED: Form = Form {
    words: "[nodes]",
    least: 0,
    most: 1,
    numbers: 0,
    name: None,
};

/// The words of commands that are one word.
const ALONE: Form = Form {
    words: "",
    least: 0,
    most: 0,
    numbers: 0,
    name: None,
};

/// The words of the commands of a router's script, in the order of `ROUTER_VERBS`.
static ROUTER_FORMS: [Form; 15] = [
    NETWORK,
    PREFIX,
    TEXT,
    FILE,
    NAMED,
    NAMED,
    NEIGHBOUR,
    NEIGHBOUR,
    DISTANCE,
    NEIGHBOUR,
    DESTINATION,
    ALONE,
    ALONE,
    NEIGHBOUR,
    POSITION,
];

/// The words of the commands of a domain's script, in the order of `DOMAIN_VERBS`.
static DOMAIN_FORMS: [Form; 18] = [
    DOMAIN, PREFIX, TEXT, FILE, PAIR, PAIR, NAMED_PAIR, NAMED_PAIR, NODE, ROUTE, ROUTE, NODE,
    PICTURE, ALONE, ALONE, ALONE, FAILED, ALONE,
];

impl ScriptKind {
    /// The command of the program that carries such scripts out.
    pub(crate) fn program(self) -> &'static str {
        match self {
            ScriptKind::Router => "ncroute run",
            ScriptKind::Domain => "ncroute domain",
        }
    }

    /// What the first command of such a script sets up, which is its first word too.
    pub(crate) fn set_up(self) -> &'static str {
        match self {
            ScriptKind::Router => "network",
            ScriptKind::Domain => "domain",
        }
    }

    /// The other kind.
    pub(crate) fn other(self) -> ScriptKind {
        match self {
            ScriptKind::Router => ScriptKind::Domain,
            ScriptKind::Domain => ScriptKind::Router,
        }
    }

    /// The first words of the commands of such scripts.
    pub(crate) fn verbs(self) -> &'static [&'static str] {
        match self {
            ScriptKind::Router => ROUTER_VERBS.as_slice(),
            ScriptKind::Domain => DOMAIN_VERBS.as_slice(),
        }
    }

    /// The words of such commands, in the order of their first words.
    fn forms(self) -> &'static [Form] {
        match self {
            ScriptKind::Router => ROUTER_FORMS.as_slice(),
            ScriptKind::Domain => DOMAIN_FORMS.as_slice(),
        }
    }

    /// The words of a command that begins with this word, if there is such a command.
    pub(crate) fn form_of(self, verb: &[u8]) -> Option<Form> {
        for (text, form) in self.verbs().iter().zip(self.forms()) {
            if text.as_bytes() == verb {
                return Some(*form);
            }
        }
        None
    }
}

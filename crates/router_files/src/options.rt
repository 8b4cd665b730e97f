//! The options that a file may say.
ghost use Rattle.std.specs.Prelude.{◌≡◌, find};
ghost use Rattle.router_files.specs.Options as spec;

/// An option of a router.
#[derive(Clone, Copy, Debug)]
pub enum RouterOption {
    /// `size N`
    Size,
    /// `node ME`
    Node,
    /// `limit ENTRIES`
    Limit,
    /// `queue MESSAGES`
    Queue,
    /// `retry SECONDS`
    Retry,
    /// `hold SECONDS`
    Hold,
    /// `segments COUNT`
    Segments,
    /// `settle SECONDS`
    Settle,
    /// `save FOLDER`
    Save,
    /// `routes FILE`
    Routes,
    /// `stay`
    Stay,
    /// `domain FILE`
    Domain,
    /// `allow-other-domain`
    AllowOtherDomain,
    /// `prefix V PREFIX`
    Prefix,
    /// `filter NAME FILE`
    Filter,
    /// `import W NAME`
    Import,
    /// `export W NAME`
    Export,
    /// `link W IN OUT`
    Link,
    /// `control IN OUT` or `control IN OUT look`
    Control,
    /// `log FILE`
    Log,
}

/// What stands behind the name of an option.
#[derive(Clone, Copy)]
pub enum Shape {
    /// Nothing.
    Alone,
    /// A number.
    Number,
    /// The name of a folder or file.
    Path,
    /// A node, and what is said of it.
    Pair,
    /// The name of a filter, and of the file of its text.
    Named,
    /// A node, and the names of two files.
    Files,
    /// The names of two files, and maybe a right.
    Ends,
}

/// All of them.
static OPTIONS: [RouterOption; 20] = [
    RouterOption::Size,
    RouterOption::Node,
    RouterOption::Limit,
    RouterOption::Queue,
    RouterOption::Retry,
    RouterOption::Hold,
    RouterOption::Segments,
    RouterOption::Settle,
    RouterOption::Save,
    RouterOption::Routes,
    RouterOption::Stay,
    RouterOption::Domain,
    RouterOption::AllowOtherDomain,
    RouterOption::Prefix,
    RouterOption::Filter,
    RouterOption::Import,
    RouterOption::Export,
    RouterOption::Link,
    RouterOption::Control,
    RouterOption::Log,
];

impl RouterOption {
    ghost use Rattle.router_files.specs.Options.{form_of, name_of, shape_of, stands_once};

    /// Its name.
    pub fn name(&self) -> &'static str
        ensures { result.now ≡ name_of self.now }
    {
        match self {
            RouterOption::Size => "size",
            RouterOption::Node => "node",
            RouterOption::Limit => "limit",
            RouterOption::Queue => "queue",
            RouterOption::Retry => "retry",
            RouterOption::Hold => "hold",
            RouterOption::Segments => "segments",
            RouterOption::Settle => "settle",
            RouterOption::Save => "save",
            RouterOption::Routes => "routes",
            RouterOption::Stay => "stay",
            RouterOption::Domain => "domain",
            RouterOption::AllowOtherDomain => "allow-other-domain",
            RouterOption::Prefix => "prefix",
            RouterOption::Filter => "filter",
            RouterOption::Import => "import",
            RouterOption::Export => "export",
            RouterOption::Link => "link",
            RouterOption::Control => "control",
            RouterOption::Log => "log",
        }
    }

    /// The form of its line.
    pub fn form(&self) -> &'static str
        ensures { result.now ≡ form_of self.now }
    {
        match self {
            RouterOption::Size => "size N",
            RouterOption::Node => "node ME",
            RouterOption::Limit => "limit ENTRIES",
            RouterOption::Queue => "queue MESSAGES",
            RouterOption::Retry => "retry SECONDS",
            RouterOption::Hold => "hold SECONDS",
            RouterOption::Segments => "segments COUNT",
            RouterOption::Settle => "settle SECONDS",
            RouterOption::Save => "save FOLDER",
            RouterOption::Routes => "routes FILE",
            RouterOption::Stay => "stay",
            RouterOption::Domain => "domain FILE",
            RouterOption::AllowOtherDomain => "allow-other-domain",
            RouterOption::Prefix => "prefix V PREFIX",
            RouterOption::Filter => "filter NAME FILE",
            RouterOption::Import => "import W NAME",
            RouterOption::Export => "export W NAME",
            RouterOption::Link => "link W IN OUT",
            RouterOption::Control => "control IN OUT [look]",
            RouterOption::Log => "log FILE",
        }
    }

    /// What stands behind its name.
    pub(crate) fn shape(&self) -> Shape
        ensures { result ≡ shape_of self.now }
    {
        match self {
            RouterOption::Size
            | RouterOption::Node
            | RouterOption::Limit
            | RouterOption::Queue
            | RouterOption::Retry
            | RouterOption::Hold
            | RouterOption::Segments
            | RouterOption::Settle => Shape::Number,
            RouterOption::Save | RouterOption::Routes | RouterOption::Log | RouterOption::Domain =>
                Shape::Path,
            RouterOption::Stay | RouterOption::AllowOtherDomain => Shape::Alone,
            RouterOption::Prefix | RouterOption::Import | RouterOption::Export => Shape::Pair,
            RouterOption::Filter => Shape::Named,
            RouterOption::Link => Shape::Files,
            RouterOption::Control => Shape::Ends,
        }
    }

    /// Whether one line alone may say it.
    pub fn stands_once(&self) -> bool
        ensures { result ≡ stands_once self.now }
    {
        matches!(self.shape(), Shape::Alone | Shape::Number | Shape::Path)
    }
}

/// The option of a name.
#[tactic(auto, unfolding(crate::specs::Options::option_in))]
pub(crate) fn option_named(name: &str) -> Option<RouterOption>
    ensures { spec.option_in name.now ≡ result }
{
    first_named(&OPTIONS, name)
}

/// The first of the options that has a name.
fn first_named(options: &[RouterOption], name: &str) -> Option<RouterOption>
    ensures { find (spec.is_named name.now) options.now ≡ result }
{
    for option in options {
        if option.name() == name {
            return Some(*option);
        }
    }
    None
}

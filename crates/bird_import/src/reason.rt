//! Why a filter is left out.
ghost use Rattle.std.specs.Option.{option_map};
ghost use Rattle.std.specs.Prelude.{◌≡◌, IfOk};
ghost use Rattle.bird_import.specs.Reasons.{AreReasonWords, name_in};
ghost use Rattle.bird_import.specs.declared.reason.Why.TheVariants as why;

use prefix_patterns::read_ip;
use std::alloc::{AllocError, Global};

/// Why a filter is left out, and at which byte of the configuration.
#[derive(Clone, Copy)]
pub struct Reason<'a> {
    /// The place.
    pub at: usize,
    /// Why.
    pub why: Why<'a>,
}

/// Why a filter is left out.
#[derive(Clone, Copy)]
pub enum Why<'a> {
    /// A name that is neither a variable nor defined: an attribute or a word of BIRD's.
    Unknown(&'a [u8]),
    /// A word of BIRD's that has no counterpart.
    Foreign(&'a [u8]),
    /// A part of a value that has no counterpart.
    Property(&'a [u8]),
    /// A byte that begins no word.
    Strange,
    /// A name that is defined behind its use.
    DefinedLater(&'a [u8]),
    /// A name with two definitions.
    DefinedTwice(&'a [u8]),
    /// A name that is defined as more than one word, where only one can stand.
    OneWord(&'a [u8]),
    /// A call of what is no function of the configuration.
    UnknownCall(&'a [u8]),
    /// A call with arguments.
    FunctionArguments(&'a [u8]),
    /// A function that cannot be put in the place of its call.
    FunctionShape(&'a [u8]),
    /// A function that returns before its end, and not `true` or `false` on a condition alone.
    EarlyReturn,
    /// A set that is assigned on a condition, or more than once.
    SetVariable(&'a [u8]),
    /// A command that prints what another function computes.
    PrintDoesMore,
    /// A `case` of addresses whose labels are no lists of addresses, or share one.
    CaseLabels,
    /// The braces are not closed.
    Unclosed,
    /// A parenthesis or a bracket that is not closed.
    LeftOpen(&'a [u8]),
    /// A filter before it has the name.
    SameName,
    /// Its name, or that of its protocol, is none of this language.
    NoName,
    /// A variable that may be read before it is assigned.
    Unset(&'a [u8]),
    /// A variable that the body declares without a value.
    NoValue(&'a [u8]),
    /// A variable with the name of a definition.
    TwoMeanings(&'a [u8]),
    /// A variable that is used before its declaration, or behind its block.
    OutOfScope(&'a [u8]),
    /// It is for routes of IPv6, or for others that are none of IPv4.
    Ipv6,
    /// More words or steps than are taken.
    TooLong,
    /// The words could not be written.
    Unwritten,
}

/// The most bytes of a name.
const NAME_LIMIT: usize = 64;

/// What is said where nothing else can be.
pub(crate) fn unwritten<'a>(at: usize) -> Reason<'a>
    ensures { result.why ≡ why.Unwritten }
{
    Reason {
        at,
        why: Why::Unwritten,
    }
}

/// Whether an attribute is one of BGP's.
fn is_of_bgp(name: &str) -> bool {
    name.starts_with("bgp_")
}

/// Whose attribute a name is, if it is one of BIRD's.
fn owner_of(name: &str) -> Option<&'static str> {
    if is_of_bgp(name) {
        Some("is an attribute of BGP")
    } else if name.starts_with("ospf_") {
        Some("is an attribute of OSPF")
    } else if name.starts_with("krt_") {
        Some("is an attribute of the kernel's routes")
    } else if name.starts_with("babel_") {
        Some("is an attribute of Babel")
    } else if name.starts_with("ra_") {
        Some("is an attribute of router advertisements")
    } else {
        owner_of_word(name)
    }
}

/// The attributes that this router does not keep, but for those whose names begin with their owner's.
static ATTRIBUTES: [&str; 16] = [
    "dest",
    "gw",
    "ifname",
    "ifindex",
    "scope",
    "cast",
    "igp_metric",
    "weight",
    "from",
    "proto",
    "preference",
    "source",
    "onlink",
    "gw_mpls",
    "gw_mpls_stack",
    "generated",
];

/// The types that are not taken.
static TYPES: [&str; 13] = [
    "bgppath",
    "bgpmask",
    "clist",
    "eclist",
    "lclist",
    "ec",
    "lc",
    "pair",
    "quad",
    "string",
    "rd",
    "bytestring",
    "enum",
];

/// Whether a name is that of an attribute.
fn is_attribute(name: &str) -> bool {
    ATTRIBUTES.contains(&name)
}

/// Whether a name is that of a type.
fn is_type(name: &str) -> bool {
    TYPES.contains(&name)
}

/// The same of attributes whose names do not begin with their owner's.
fn owner_of_word(name: &str) -> Option<&'static str> {
    if name == "rip_tag" {
        Some("is an attribute of RIP that this router does not keep")
    } else if is_attribute(name) {
        Some("is an attribute that this router does not keep: a route has `net` and `rip_metric`")
    } else {
        None
    }
}

/// What is said of a word of BIRD's, if it is one of these.
fn words_for(name: &str) -> Option<&'static str> {
    if is_type(name) {
        return Some("is a type that is not taken: a variable is an int, a bool, an ip or a prefix");
    }
    match name {
        "for" | "do" => Some("belongs to a loop, and there are no loops"),
        "return" => Some("is a command of a function"),
        "set" => Some("makes a variable of sets that is not taken"),
        "include" => Some("names a file that was not read"),
        "unset" => Some("takes an attribute away, and none is taken"),
        "roa_check" => Some("asks a table of origins, and there is none"),
        "error" => Some("ends a run as an error, and there are none: write `reject`"),
        "rt" | "ro" | "generic" | "unknown" => Some("makes a community, and none is taken"),
        _ if name.starts_with("RTS_") || name.starts_with("RTD_") || name.starts_with("SCOPE_") =>
            Some("is a value of an attribute that this router does not keep"),
        "net_type" | "NET_IP4" | "NET_IP6" => Some("is not taken in this place"),
        _ => None,
    }
}

/// The text of a word: of one that is no text, none.
fn text_of(bytes: &[u8]) -> &str {
    match str::from_utf8(bytes) {
        Ok(text) => text,
        Err(_) => "",
    }
}

/// Whether a text begins with an address that is one: an address, or the front of a prefix.
fn has_address(name: &[u8]) -> bool {
    let front = match name.iter().position(|byte| *byte == b'/') {
        Some(slash) => name.get(..slash),
        None => Some(name),
    };
    match front {
        Some(address) => read_ip(address).is_some(),
        None => false,
    }
}

/// What is said of a number, an address or a prefix that is none.
fn words_of_number(name: &[u8]) -> &'static str {
    let dots = name.iter().filter(|byte| **byte == b'.').count();
    if name.starts_with(b"0x") && name.len() == 2 {
        "is no number: no hexadecimal digit follows (P1)"
    } else if dots != 3 {
        "is out of range: the number exceeds 4294967295 (P3)"
    } else if has_address(name) {
        "is out of range: the length of the prefix exceeds 32 (P4)"
    } else {
        "is out of range: a number of the address exceeds 255 (P4)"
    }
}

/// What is said of a word that is neither a variable nor defined, or of one of BIRD's.
fn words_of_word(name: &[u8], is_foreign: bool) -> &'static str {
    if name.starts_with(b"'") {
        return "is a name in quotes: take one of letters, digits and `_`";
    }
    match name.first() {
        Some(first) if first.is_ascii_digit() => return words_of_number(name),
        _ => {}
    }
    if is_foreign && name.len() > NAME_LIMIT {
        return "is a name of more than 64 bytes (P8)";
    }
    let name = text_of(name);
    if let Some(words) = owner_of(name) {
        return words;
    }
    match words_for(name) {
        Some(words) => words,
        None if is_foreign => "is not taken",
        None => "is no variable, no attribute, and not defined",
    }
}

/// What is said of a word before a parenthesis that is no function of the configuration: BIRD has functions, commands and attributes of its own.
fn words_of_call(name: &[u8]) -> &'static str {
    let name = text_of(name);
    match name {
        "prepend" | "add" | "delete" | "filter" =>
            "changes a path or a list of communities, and none is taken",
        "format" => "makes a text of a value, and there are none",
        "not" => "is no operator: write `!`",
        _ => owner_of(name)
            .or(words_for(name))
            .unwrap_or("is no function of this configuration"),
    }
}

/// The words of a reason. The name that it is about is in them as the configuration has it: it is not yet shown.
pub fn reason_words(alloc: Global, why: Why<'_>) -> Result<Vec<u8>, AllocError>
    ensures { IfOk result (λ words. AreReasonWords why.entry words.items) }
{
    let mut words = Vec::new(alloc);
    match why.name() {
        Some(name) => {
            words.extend_from_slice(why.front().as_bytes())?;
            words.extend_from_slice(name)?;
            words.extend_from_slice(b"` ")?;
            words.extend_from_slice(why.words(name).as_bytes())?;
        }
        None => words.extend_from_slice(why.plain_words().as_bytes())?,
    }
    Ok(words)
}

impl<'a> Why<'a> {
    /// The name that it is about, if it is about one.
    fn name(&self) -> Option<&'a [u8]>
        ensures { option_map (λ name. name.now) result ≡ name_in self.now }
    {
        match self {
            Why::Unknown(name) | Why::Foreign(name) | Why::Property(name) => Some(*name),
            Why::DefinedLater(name) | Why::DefinedTwice(name) | Why::UnknownCall(name) => {
                Some(*name)
            }
            Why::FunctionArguments(name) | Why::FunctionShape(name) | Why::SetVariable(name) => {
                Some(*name)
            }
            Why::Unset(name) | Why::NoValue(name) | Why::OneWord(name) => Some(*name),
            Why::LeftOpen(name) | Why::TwoMeanings(name) | Why::OutOfScope(name) => Some(*name),
            _ => None,
        }
    }

    /// What stands before the name.
    fn front(&self) -> &'static str {
        match self {
            Why::Property(_) => "`.",
            Why::FunctionShape(_) => "the function `",
            Why::SetVariable(_) => "the set `",
            _ => "`",
        }
    }

    /// What is said of the name.
    fn words(&self, name: &[u8]) -> &'static str {
        match self {
            Why::Unknown(_) => words_of_word(name, false),
            Why::Foreign(_) => words_of_word(name, true),
            Why::Property(_) =>
                "is not taken: a prefix has `.ip` and `.len`, an address `.mask(n)`",
            Why::DefinedLater(_) => "is used before its definition ends: move the definition up",
            Why::DefinedTwice(_) => "has two definitions",
            Why::OneWord(_) =>
                "is defined by more than one word, and a set, a label or a mask takes one: define it as its value",
            Why::UnknownCall(_) => words_of_call(name),
            Why::LeftOpen(_) => "is not closed: nothing behind it was read",
            Why::FunctionArguments(_) => "is called with arguments: write its commands in place",
            Why::FunctionShape(_) =>
                "cannot be put in place: it has variables, or does more than return a value where one is wanted, or returns one where none is",
            Why::SetVariable(_) => "is not assigned just once, before all else: `define` it",
            Why::Unset(_) =>
                "may be read before it is assigned, and is void in BIRD then: assign it before",
            Why::OutOfScope(_) =>
                "stands outside the braces or the part of a `case` in which it is declared, or before that: declare it once, before the first command",
            Why::TwoMeanings(_) =>
                "is a variable here and a definition too: give one of them another name",
            _ => "has no value in the body, so BIRD 2.0.12 rejects each route there: give it one",
        }
    }

    /// What is said where no name is.
    fn plain_words(&self) -> &'static str {
        match self {
            Why::Strange => "no word of a configuration begins with this byte",
            Why::PrintDoesMore =>
                "what is printed here is computed by more than attributes: take it out",
            Why::EarlyReturn =>
                "before its end a function returns by `if C then return true;` or `false` alone: write its commands in place",
            Why::CaseLabels =>
                "the labels of a `case` of addresses are lists of addresses, and share none",
            Why::Unclosed => "its braces are not closed: nothing behind them was read",
            Why::SameName => "a filter before it has this name",
            Why::NoName => "a name is letters, digits and `_`, with no digit first",
            Why::Ipv6 =>
                "the routes that it is for are none of IPv4: IPv6 is not supported, nor are VPNs, flows, origins and labels",
            Why::TooLong =>
                "it is longer than 65536 bytes with all definitions in place, or takes too many steps",
            _ => "its words could not be written",
        }
    }
}

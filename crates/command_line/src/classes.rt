//! The classes of the codes by which something is refused or warned of, and the pages that `explain` shows.
ghost use Rattle.std.specs.Prelude.{◌≡◌, ◌++◌, ℕ, List, None, IfOk, MatchOption, OnOk, false, map, string_bytes, true};
ghost use Rattle.command_line.specs.Pages.{IsPage, letter_head, letter_line, letters, page_head};
ghost use Rattle.refusal_texts.specs.Codes.{begins_with, is_among};

use refusal_texts::explanation_of;
use std::alloc::{AllocError, Global};

/// The codes that begin with one letter.
#[derive(Clone, Copy)]
struct CodeClass {
    /// The letter.
    letter: &'static str,
    /// What they say.
    meaning: &'static str,
}

/// All classes, in the order in which a filter, a script and a run meet them.
static CLASSES: [CodeClass; 15] = [
    CodeClass {
        letter: "P",
        meaning: "the text is not a filter",
    },
    CodeClass {
        letter: "Y",
        meaning: "a name or a kind in a filter is wrong",
    },
    CodeClass {
        letter: "G",
        meaning: "the code of a filter would be too long",
    },
    CodeClass {
        letter: "V",
        meaning: "the code might go wrong on some route",
    },
    CodeClass {
        letter: "W",
        meaning: "a filter is verified, and yet plainly wrong",
    },
    CodeClass {
        letter: "C",
        meaning: "the bytes are not a code file",
    },
    CodeClass {
        letter: "K",
        meaning: "code went wrong on a route that it was not verified for",
    },
    CodeClass {
        letter: "O",
        meaning: "a line or a word of a script or of routes is wrong",
    },
    CodeClass {
        letter: "N",
        meaning: "the router refused an event",
    },
    CodeClass {
        letter: "D",
        meaning: "a domain refused a command of its script",
    },
    CodeClass {
        letter: "J",
        meaning: "the history took no entry",
    },
    CodeClass {
        letter: "H",
        meaning: "a line is not as the text of a history has it",
    },
    CodeClass {
        letter: "E",
        meaning: "input, output or memory failed",
    },
    CodeClass {
        letter: "L",
        meaning: "a router's lock",
    },
    CodeClass {
        letter: "X",
        meaning: "sessions or threads were not run",
    },
];

/// The table of classes. What handles it is not to know its texts: the checker would carry them along with each step.
fn class_table() -> &'static [CodeClass]
    ensures { map (λ class. class.letter.now) result.now ≡ letters }
{
    &CLASSES
}

/// No class has more codes than this.
const MOST_CODES: u32 = 20;

/// What `explain` shows of a code, of a letter, or of no word. Small letters do for large ones. None if there is no such code.
pub(crate) fn page_of(alloc: Global, word: &str) -> Result<Option<String>, AllocError>
    ensures { IfOk result (λ page. MatchOption page (page_head word.now ≡ None) (λ page. IsPage word.now (string_bytes page))) }
{
    if word.is_empty() {
        return Ok(Some(all_classes(alloc)?));
    }
    let word = word.to_ascii_uppercase(alloc)?;
    if let Some(page) = explanation_of(word.as_str()) {
        return Ok(Some(String::from_str(alloc, page)?));
    }
    letter_page(alloc, word.as_str())
}

/// What is shown of a letter, in capitals. None if there is no such letter.
fn letter_page(alloc: Global, word: &str) -> Result<Option<String>, AllocError>
    ensures { IfOk result (λ page. MatchOption page (is_among letters word.now ≡ false) (λ page.
        (is_among letters word.now ≡ true) × (begins_with (letter_head word.now) (string_bytes page) ≡ true))) }
{
    match class_of(word) {
        Some(class) => Ok(Some(codes_of(alloc, class)?)),
        None => Ok(None),
    }
}

/// The class of a letter.
fn class_of(letter: &str) -> Option<CodeClass>
    ensures { MatchOption result (is_among letters letter.now ≡ false) (λ class.
        (is_among letters letter.now ≡ true) × (class.letter.now ≡ letter.now)) }
{
    for class in class_table() {
        if class.letter == letter {
            return Some(*class);
        }
    }
    None
}

/// The letters, a line each.
fn all_classes(alloc: Global) -> Result<String, AllocError> {
    let mut page = String::from_str(alloc, "A code is a letter and a number. The letters are:\n")?;
    for class in class_table() {
        push_class(&mut page, *class)?;
    }
    page.push_str(
        "`ncroute explain V` lists the codes of a letter, and `ncroute explain V3` says what a code means.\n",
    )?;
    Ok(page)
}

/// Adds the line of a class.
fn push_class(page: &mut String, class: CodeClass) -> Result<(), AllocError>
    ensures { OnOk result (string_bytes page.new ≡ string_bytes page.old ++ letter_line class.letter.now class.meaning.now) }
{
    page.push_str("  ")?;
    page.push_str(class.letter)?;
    page.push_str("  ")?;
    page.push_str(class.meaning)?;
    page.push_str("\n")
}

/// The codes of a class, each by the first line of its page.
fn codes_of(alloc: Global, class: CodeClass) -> Result<String, AllocError>
    ensures { IfOk result (λ page. begins_with (letter_head class.letter.now) (string_bytes page) ≡ true) }
{
    let mut page = String::new(alloc);
    push_class(&mut page, class)?;
    for n in 1..MOST_CODES {
        push_code(alloc, &mut page, class.letter, n)?;
    }
    Ok(page)
}

/// Adds the first line of the page of a code, if there is such a code.
fn push_code(alloc: Global, page: &mut String, letter: &str, number: u32) -> Result<(), AllocError>
    ensures { OnOk result ((more : List ℕ) × (string_bytes page.new ≡ string_bytes page.old ++ more)) }
{
    let code = format!(in alloc; "{letter}{number}")?;
    match explanation_of(code.as_str()) {
        Some(text) => push_first_line(page, text),
        None => Ok(()),
    }
}

/// Adds the first line of a page.
fn push_first_line(page: &mut String, text: &str) -> Result<(), AllocError>
    ensures { OnOk result ((more : List ℕ) × (string_bytes page.new ≡ string_bytes page.old ++ more)) }
{
    match text.split_once('\n') {
        Some((line, _)) => {
            page.push_str(line)?;
            page.push_str("\n")
        }
        None => Ok(()),
    }
}

//! What is wrong with a line that gives no route, in words.
ghost use Rattle.std.specs.Prelude.{◌≡◌, [], None, IfOk, codes};
ghost use Rattle.refusal_words.specs.Explanations.{explained_at};
ghost use Rattle.route_answers.specs.WatchedRoutes.{TellsLine, TellsRoute, no_code_words};

use crate::line_fault::LineFault;
use crate::watch::{RefusedRoute, WhyRefused};
use filter_code::{LARGEST_SIZE, SMALLEST_SIZE};
use line_protocol::{LINE_LIMIT, NUMBER_LIMIT};
use prefix_patterns::read_number;
use refusal_words::{
    IPV6, byte_of_word, count_words, explain_line, push_shown, spelled, tell_at, word_at,
};
use std::alloc::{AllocError, Global};

/// What is wrong with a line, and where.
#[derive(Drop)]
struct RouteFinding {
    /// In words. What they repeat of the line stands in them as it is.
    words: String,
    /// The byte of the line at which it is, if the line is to be shown.
    byte: Option<usize>,
}

/// Words about the word of this index of a line, or about the line's end where it has fewer words.
fn found_at(line: &[u8], index: usize, words: String) -> RouteFinding {
    RouteFinding {
        words,
        byte: Some(byte_of_word(line, index)),
    }
}

/// The words that a route line has.
fn form_of(size: Option<u32>) -> (&'static str, usize) {
    match size {
        Some(_) => ("PREFIX METRIC", 2),
        None => ("PREFIX METRIC SIZE", 3),
    }
}

/// That a line has not the words of a route.
fn count_finding(
    alloc: Global,
    line: &[u8],
    size: Option<u32>,
) -> Result<RouteFinding, AllocError> {
    let (form, wanted) = form_of(size);
    let count = count_words(line, wanted);
    if count > wanted {
        let word = spelled(alloc, word_at(line, wanted))?;
        let words = format!(in alloc; "a route is `{form}`, and {word} follows it")?;
        return Ok(found_at(line, wanted, words));
    }
    let words = format!(in alloc; "a route is `{form}`, and this line has too few words")?;
    Ok(found_at(line, count, words))
}

/// What is wrong with a word that is no prefix.
fn prefix_finding(alloc: Global, line: &[u8]) -> Result<RouteFinding, AllocError> {
    let word = word_at(line, 0);
    let words = if word.contains(&b':') {
        String::from_str(alloc, IPV6)?
    } else {
        let shown = spelled(alloc, word)?;
        format!(in alloc; "{shown} is no prefix: write one as 10.0.0.0/8")?
    };
    Ok(found_at(line, 0, words))
}

/// What is wrong with a word that is no number.
fn digit_words(alloc: Global, word: &[u8]) -> Result<String, AllocError> {
    let shown = spelled(alloc, word)?;
    if word.iter().all(|byte| byte.is_ascii_digit()) {
        return format!(in alloc; "{shown} is more than {NUMBER_LIMIT}");
    }
    format!(in alloc; "{shown} is no number: write decimal digits")
}

/// What is wrong with the numbers of a line.
fn number_finding(
    alloc: Global,
    line: &[u8],
    size: Option<u32>,
) -> Result<RouteFinding, AllocError> {
    let metric = word_at(line, 1);
    let Some(metric) = read_number(metric, NUMBER_LIMIT) else {
        return Ok(found_at(line, 1, digit_words(alloc, metric)?));
    };
    match size {
        Some(size) => metric_finding(alloc, line, metric, size),
        None => size_finding(alloc, line, metric),
    }
}

/// That a metric is out of its range.
fn metric_finding(
    alloc: Global,
    line: &[u8],
    metric: u32,
    size: u32,
) -> Result<RouteFinding, AllocError> {
    let words = format!(in alloc;
        "in a domain of {size} nodes a metric is at most {size}, and this one is {metric}"
    )?;
    Ok(found_at(line, 1, words))
}

/// What is wrong with the size of a line, or with its metric for that size.
fn size_finding(alloc: Global, line: &[u8], metric: u32) -> Result<RouteFinding, AllocError> {
    let word = word_at(line, 2);
    let Some(size) = read_number(word, NUMBER_LIMIT) else {
        return Ok(found_at(line, 2, digit_words(alloc, word)?));
    };
    if size < SMALLEST_SIZE || LARGEST_SIZE < size {
        let words = format!(in alloc;
            "a domain has {SMALLEST_SIZE} to {LARGEST_SIZE} nodes, and not {size}"
        )?;
        return Ok(found_at(line, 2, words));
    }
    metric_finding(alloc, line, metric, size)
}

/// That a line is too long. It is not shown.
fn length_finding(alloc: Global, line: &[u8]) -> Result<RouteFinding, AllocError> {
    let count = line.len();
    Ok(RouteFinding {
        words: format!(in alloc; "the line has {count} bytes, and at most {LINE_LIMIT} are read")?,
        byte: None,
    })
}

/// What is wrong with a line that gives no route.
fn find_fault(
    alloc: Global,
    line: &[u8],
    size: Option<u32>,
    fault: LineFault,
) -> Result<RouteFinding, AllocError> {
    match fault {
        LineFault::Words => count_finding(alloc, line, size),
        LineFault::Numbers => number_finding(alloc, line, size),
        LineFault::TooLong => length_finding(alloc, line),
        LineFault::Prefix => prefix_finding(alloc, line),
    }
}

/// Why a line gives no route, for people: `NAME:NUMBER:COLUMN: WORDS (CODE)`, and the line with a caret under the word that is wrong.
fn tell_route(
    alloc: Global,
    name: &[u8],
    refused: &RefusedRoute<'_>,
    fault: LineFault,
) -> Result<Vec<u8>, AllocError>
    ensures { IfOk result (λ out. TellsRoute name.now refused.now.number refused.now.line.now fault out.items) }
{
    let found = find_fault(alloc, refused.line, refused.size, fault)?;
    let mut words = Vec::new(alloc);
    push_shown(alloc, &mut words, found.words.as_bytes())?;
    let (number, line) = (Some(refused.number), refused.line);
    tell_at(
        alloc,
        name,
        number,
        line,
        words.as_slice(),
        fault.code(),
        found.byte,
    )
}

/// That no line gives code, for people.
fn tell_no_code(alloc: Global, name: &[u8]) -> Result<Vec<u8>, AllocError>
    ensures { IfOk result (λ out. out.items ≡ explained_at name.now None [] no_code_words (codes "O1") None) }
{
    let words = b"there is no code: the first line is a code file in hexadecimal".as_slice();
    let code = LineFault::Words.code();
    tell_at(alloc, name, None, b"", words, code, None)
}

/// Why a line is refused in place of a route's or the code's, for people.
pub(crate) fn explain_route(
    alloc: Global,
    name: &[u8],
    refused: &RefusedRoute<'_>,
) -> Result<Vec<u8>, AllocError>
    ensures { IfOk result (λ out. TellsLine name.now refused.now.number refused.now.line.now refused.now.why out.items) }
{
    let (number, line) = (refused.number, refused.line);
    match &refused.why {
        WhyRefused::Route(fault) => tell_route(alloc, name, refused, *fault),
        WhyRefused::Code(diagnosis) => explain_line(alloc, name, number, line, line, diagnosis),
        WhyRefused::NoCode => tell_no_code(alloc, name),
    }
}

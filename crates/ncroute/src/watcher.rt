//! Who watches a script: people are told in words why a line is refused, and where a script ends.
ghost use Rattle.std.specs.Prelude.{◌≡◌, ◌++◌, ◌∷◌, IfOk, codes, decimal};
ghost use Rattle.refusal_words.specs.Shown.{shown};
ghost use Rattle.ncroute.specs.Watching.{IsReported, name_in, number_in, part_of, stopped_line};

use line_protocol::{push_decimal, write_text};
use operator_cmds::{RefusedLine, Watch};
use refusal_words::push_shown;
use script_words::{ScriptKind, explain_refused};
use std::alloc::{AllocError, Global};
use std::io::Write;

/// Tells people on `errors` why a line of a domain's script is refused. Where these take no text, or memory is refused, people are not told: the
/// answer on standard output stays.
#[derive(Drop)]
pub struct Teller<'a, E: Write> {
    /// The name by which people know the script.
    pub name: &'a [u8],
    /// What people read.
    pub errors: &'a mut E,
}

impl<'a, E: Write> Watch for Teller<'a, E> {
    fn see_refused(&mut self, alloc: Global, refused: &RefusedLine<'_>) {
        tell_refused(alloc, ScriptKind::Domain, self.name, refused, self.errors);
    }
}

/// Tells why a line is refused, if there is memory for the words.
pub(crate) fn tell_refused<E: Write>(
    alloc: Global,
    kind: ScriptKind,
    name: &[u8],
    refused: &RefusedLine<'_>,
    errors: &mut E,
)
    ensures { IsReported name.now refused.now (E.contents errors.old) (E.contents errors.new) }
{
    if let Ok(Some(words)) = explain_refused(alloc, kind, name, refused) {
        let _ = write_text(errors, words.as_slice());
    }
}

/// A part of a script that comes from one source.
#[derive(Clone, Copy)]
pub struct ScriptPart<'a> {
    /// The name by which people know the source.
    pub name: &'a [u8],
    /// The number of lines of the script before it.
    pub before: u32,
}

/// A script that people know by one name.
pub(crate) fn whole(name: &[u8]) -> ScriptPart<'_>
    ensures name { result.name.now ≡ name.now }
    ensures before { result.before ≡ 0 }
{
    ScriptPart { name, before: 0 }
}

/// The part that has the line of a number, and the line's number in it. The parts are in order, and there is one.
fn place_of<'a>(parts: &[ScriptPart<'a>], number: u32) -> (&'a [u8], u32)
    ensures name { result.0.now ≡ name_in (part_of parts.now number) }
    ensures number { result.1 ≡ number_in number (part_of parts.now number) }
{
    let mut place: (&'a [u8], u32) = (b"", number);
    for part in parts {
        if part.before < number {
            place = (part.name, number.saturating_sub(part.before));
        }
    }
    place
}

/// Tells people on `errors` why a line of a router's script is refused, and where the script ends.
#[derive(Drop)]
pub struct Guide<'a, E: Write> {
    /// The parts of the script.
    pub parts: &'a [ScriptPart<'a>],
    /// What people read.
    pub errors: &'a mut E,
    /// Why a line is refused is told.
    pub is_explained: bool,
    /// The script ends at its first refused line.
    pub stops: bool,
}

impl<'a, E: Write> Watch for Guide<'a, E> {
    fn see_refused(&mut self, alloc: Global, refused: &RefusedLine<'_>) {
        let (name, number) = place_of(self.parts, refused.number);
        if self.is_explained {
            let placed = RefusedLine { number, ..*refused };
            tell_refused(alloc, ScriptKind::Router, name, &placed, self.errors);
        }
        if self.stops {
            if let Ok(words) = stopped_line(alloc, name, number) {
                let _ = write_text(self.errors, words.as_slice());
            }
        }
    }
}

/// The line that tells where a script ends.
fn stopped_line(alloc: Global, name: &[u8], number: u32) -> Result<Vec<u8>, AllocError>
    ensures { IfOk result (λ line. line.items ≡ stopped_line name.now number) }
{
    let mut line = Vec::new(alloc);
    push_shown(alloc, &mut line, name)?;
    line.push(b':')?;
    push_decimal(&mut line, u64::from(number))?;
    line.extend_from_slice(b": stopped: this line is refused, and none after it is answered\n")?;
    Ok(line)
}

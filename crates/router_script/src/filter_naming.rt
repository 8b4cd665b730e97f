//! A script that is started with filters: they get their names when its domain is set up, which has the size that they are verified for.
ghost use Rattle.std.specs.Prelude.{◌≡◌, IfOk, OnErr, OnOk};
ghost use Rattle.std.specs.Io.{StartsWith};
ghost use Rattle.operator_cmds.specs.Replies.{Answers};
ghost use Rattle.operator_cmds.specs.Script.{Names};
ghost use Rattle.router_script.specs.State.{script_of};
ghost use Rattle.router_script.specs.Naming as spec;
ghost use Rattle.router_script.specs.News as news;
ghost use Rattle.router_script.specs.State.{prepared_of};

use crate::script::Script;
use filter_source::{Diagnosis, Failure};
use filter_verifier::Verified;
use line_protocol::{LineReply, Service};
use operator_cmds::verify_text;
use std::alloc::{AllocError, Global};
use std::sync::Arc;

/// A filter that a script is started with.
#[derive(Drop)]
pub struct NamedFilter {
    /// Its name.
    pub name: Vec<u8>,
    /// The name by which people know its source.
    pub origin: Vec<u8>,
    /// Its text.
    pub text: Vec<u8>,
}

/// The first of the filters of a script that is refused.
#[derive(Clone, Copy)]
pub struct Unfit {
    /// Its place among them, from 0.
    pub index: usize,
    /// What is told of the refusal.
    pub diagnosis: Diagnosis,
}

/// A script and the filters that it is started with.
#[derive(Drop)]
pub struct Prepared<'a> {
    /// The script.
    pub script: Script,
    /// The filters.
    pub filters: &'a [NamedFilter],
    /// The first of them that was refused.
    pub unfit: Option<Unfit>,
}

/// Gives a verified filter its name.
fn give_name(
    alloc: Global,
    script: &mut Script,
    name: &[u8],
    filter: Verified,
) -> Result<(), AllocError>
    ensures { OnOk result (Names name.now filter (script_of script.old) (script_of script.new)) }
{
    script.set_filter(alloc, name, Arc::new(alloc, filter)?)
}

/// The filter at a place that was not verified, if it is refused.
fn unfit_at(index: usize, failure: Failure) -> Result<Option<Unfit>, AllocError>
    ensures { IfOk result (news.IsFailureAt index failure) }
{
    match failure {
        Failure::Refused(diagnosis) => Ok(Some(Unfit { index, diagnosis })),
        Failure::Memory => Err(AllocError),
    }
}

/// Verifies each of some filters for domains of a size, and gives it its name, up to the first that is refused, which is returned.
pub fn name_filters(
    alloc: Global,
    script: &mut Script,
    filters: &[NamedFilter],
    size: u16,
) -> Result<Option<Unfit>, AllocError>
    ensures { IfOk result (λ unfit. spec.AreNamed size filters.now unfit (script_of script.old) (script_of script.new)) }
{
    for index in 0..filters.len() {
        let named = &filters[index];
        match verify_text(alloc, named.text.as_slice(), size) {
            Ok(filter) => give_name(alloc, script, named.name.as_slice(), filter)?,
            Err(failure) => return unfit_at(index, failure),
        }
    }
    Ok(None)
}

/// The size of the domain that a line set up, if there was none before it.
fn size_set_up(earlier: Option<u16>, later: Option<u16>) -> Option<u16>
    ensures { result ≡ spec.size_set_up earlier later }
{
    match earlier {
        None => later,
        Some(_) => None,
    }
}

/// What is answered to the line that sets the domain up: where a filter is refused nothing is, and the script ends. `begun` is how much
/// had been written before that answer.
fn tell_unless(
    unfit: &Option<Unfit>,
    begun: usize,
    reply: LineReply,
    out: &mut Vec<u8>,
) -> LineReply
    ensures { news.Tells unfit.now begun reply out.old.items out.new.items result }
{
    match unfit {
        None => reply,
        Some(_) => {
            out.truncate(begun);
            LineReply::Ended
        }
    }
}

impl<'a> Prepared<'a> {
    /// A script at its first line.
    pub fn new(alloc: Global, filters: &'a [NamedFilter]) -> Prepared<'a>
        ensures { prepared_of result ≡ spec.fresh_with filters.now }
    {
        Prepared {
            script: Script::new(alloc),
            filters,
            unfit: None,
        }
    }

    /// Answers a line.
    pub fn answer(
        &mut self,
        alloc: Global,
        number: u32,
        line: &[u8],
        out: &mut Vec<u8>,
    ) -> Result<LineReply, AllocError>
        ensures ok { IfOk result (Answers (λ answer. spec.AnswersPrepared (prepared_of self.old) number line.now answer
            (prepared_of self.new)) out.old.items out.new.items) }
        ensures err { OnErr result (StartsWith out.new.items out.old.items) }
    {
        let begun = out.len();
        let earlier = self.script.size();
        let reply = self.script.answer(alloc, number, line, out)?;
        match size_set_up(earlier, self.script.size()) {
            None => Ok(reply),
            Some(size) => self.set_up(alloc, size, begun, reply, out),
        }
    }

    /// Gives the filters their names, now that a line set up a domain of this size, and says what the line is answered. Its answer is
    /// written, and `begun` is how much had been written before it.
    fn set_up(
        &mut self,
        alloc: Global,
        size: u16,
        begun: usize,
        reply: LineReply,
        out: &mut Vec<u8>,
    ) -> Result<LineReply, AllocError>
        ensures named { OnOk result (spec.AreNamed size self.old.filters.now self.new.unfit (script_of self.old.script)
            (script_of self.new.script)) }
        ensures filters { self.new.filters.now ≡ self.old.filters.now }
        ensures told { IfOk result (news.Tells self.new.unfit begun reply out.old.items out.new.items) }
        ensures err { OnErr result (out.new.items ≡ out.old.items) }
    {
        match name_filters(alloc, &mut self.script, self.filters, size) {
            Ok(unfit) => {
                self.unfit = unfit;
                Ok(tell_unless(&self.unfit, begun, reply, out))
            }
            Err(error) => Err(error),
        }
    }
}

//! Domains that scripts leave behind, and what the change of one to another does.
//!
//! **A script that is compared is answered, and its answers are left out**: what it leaves behind is what counts. A domain of which a line was
//! refused is not the one that was meant, so it is not compared.
ghost use Rattle.std.specs.Prelude.{◌≡◌, IfErr, IfOk};
ghost use Rattle.domain_cmds.specs.Comparing.{comparison_view};
ghost use Rattle.domain_cmds.specs.Left as spec;

use crate::comparing::{Comparison, comparison_of};
use crate::comparison_report::push_report;
use crate::comparison_text::push_comparison;
use crate::engine::{DomainScript, WatchedDomain};
use crate::resting::RestingPlan;
use line_protocol::{StreamFault, answer_lines, write_text};
use operator_cmds::Watch;
use report_formats::Format;
use std::alloc::{AllocError, Global};
use std::io::{Write, sink};
use std::marker::Model;

/// The domain that a script leaves behind. A contract sees it as its plan.
#[derive(Drop)]
pub struct LeftDomain {
    /// The domain.
    domain: RestingPlan,
}

impl Model for LeftDomain {
    ghost use Rattle.domain_routes.specs.PlanView.{PlanView};

    ghost Value = { PlanView };

    ghost view = { λ left. left.domain };
}

impl LeftDomain {
    /// The number of nodes.
    pub fn size(&self) -> u16
        ensures { result ≡ self.now.size }
    {
        self.domain.size()
    }
}

/// What a script leaves behind.
#[derive(Drop)]
pub enum Left {
    /// A domain.
    Domain(LeftDomain),
    /// Nothing: it set no domain up.
    Nothing,
    /// Nothing that was meant: a line was refused.
    Refused,
}

/// What a script leaves behind of which so many lines were refused.
fn left_of(engine: DomainScript, refused: u32) -> Left
    ensures { spec.IsLeft engine.planning refused result }
{
    if refused > 0 {
        return Left::Refused;
    }
    match engine.into_domain() {
        Some(domain) => Left::Domain(LeftDomain { domain }),
        None => Left::Nothing,
    }
}

/// Carries out a script, shows each line that is refused to who watches, and hands over what it leaves behind.
pub fn leave_domain<S: Watch + Drop>(
    alloc: Global,
    script: &[u8],
    watcher: S,
) -> Result<Left, StreamFault>
    ensures { IfOk result (spec.Leaves script.now) }
{
    let mut lines = script;
    let mut service = WatchedDomain {
        engine: DomainScript::new(),
        watcher,
    };
    let refused = answer_lines(alloc, &mut lines, &mut sink(), &mut service)?;
    Ok(left_of(service.engine, refused))
}

/// What a change does, as it is written.
fn text_of(alloc: Global, format: Format, found: &Comparison) -> Result<Vec<u8>, AllocError>
    ensures { IfOk result (λ text. text.items ≡ spec.text_of format (comparison_view found.now)) }
{
    let mut text = Vec::new(alloc);
    match format {
        Format::Text => {
            push_comparison(&mut text, found)?;
            text.push(b'\n')?;
        }
        Format::Json => push_report(alloc, &mut text, found)?,
    }
    Ok(text)
}

/// What is told of a change.
#[derive(Drop)]
struct Told {
    /// What it does, as it is written.
    text: Vec<u8>,
    /// Something is lost.
    is_lost: bool,
}

/// What is told of the change of one domain to another of as many nodes.
fn told_of(
    alloc: Global,
    format: Format,
    old: &mut RestingPlan,
    new: &mut RestingPlan,
) -> Result<Told, AllocError>
    requires sizes { new.old.size ≡ old.old.size }
    ensures { IfOk result (λ told. spec.IsAnswer format old.old new.old told.text.items told.is_lost) }
{
    let found = comparison_of(alloc, old, new)?;
    Ok(Told {
        text: text_of(alloc, format, &found)?,
        is_lost: found.loses_something(),
    })
}

/// Writes what the change of one domain to another of as many nodes does. Whether something is lost.
pub fn compare_domains<W: Write>(
    alloc: Global,
    format: Format,
    old: LeftDomain,
    new: LeftDomain,
    writer: &mut W,
) -> Result<bool, StreamFault>
    requires sizes { new.size ≡ old.size }
    ensures ok { IfOk result (spec.Compares format old new (W.contents writer.old) (W.contents writer.new)) }
    ensures err { IfErr result (λ fault. spec.ComparesOff fault format old new (W.contents writer.old) (W.contents writer.new)) }
{
    let (mut old, mut new) = (old.domain, new.domain);
    match told_of(alloc, format, &mut old, &mut new) {
        Ok(told) => {
            write_text(writer, told.text.as_slice())?;
            Ok(told.is_lost)
        }
        Err(_) => Err(StreamFault::Memory),
    }
}

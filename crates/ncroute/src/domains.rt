//! What the change of one domain to another does.
//!
//! **`domain --compare` ends with 1 only where something is lost**, and with 0 only where nothing is. What keeps it from knowing is 3, also a
//! command that is refused: a domain without it is not the one that was meant. BEFORE is read and carried out before FILE is read.
ghost use Rattle.std.specs.Prelude.{◌≡◌, ◌∷◌, [], IfErr, IfOk, None};
ghost use Rattle.std.specs.Io.KnownBytes.{Appends};
ghost use Rattle.domain_cmds.specs.Left.{Leaves};
ghost use Rattle.ncroute.specs.Domains as spec;
ghost use Rattle.program_console.specs.Reading.{notice_line};
ghost use Rattle.ncroute.specs.Scripts.{IsQuiet};

use crate::domain_loading::read_script;
use crate::watcher::Teller;
use domain_cmds::{Left, LeftDomain, compare_domains, leave_domain};
use filter_reports::{FAULT, ProgramFault, status_of_found};
use line_protocol::StreamFault;
use operator_cmds::NoWatcher;
use program_console::{Console, Folder, Loaded, name_of, tell_of};
use program_words::Source;
use report_formats::Format;
use std::alloc::Global;
use std::io::{Read, Write};

/// Carries out a script that people know by a name.
fn leave<E: Write>(
    alloc: Global,
    name: &[u8],
    script: &[u8],
    is_explained: bool,
    errors: &mut E,
) -> Result<Left, StreamFault>
    ensures leaves { IfOk result (Leaves script.now) }
    ensures quiet { IsQuiet is_explained (E.contents errors.old) (E.contents errors.new) }
{
    if is_explained {
        let teller = Teller { name, errors };
        leave_domain(alloc, script, teller)
    } else {
        leave_domain(alloc, script, NoWatcher)
    }
}

/// What is told of a script that sets no domain up.
#[tactic(auto, unfolding(crate::specs::Domains::nothing_words))]
fn nothing_words() -> &'static str
    ensures { result.now ≡ spec.nothing_words }
{
    "this script sets up no domain"
}

/// What is told of a script of which a line is refused.
#[tactic(auto, unfolding(crate::specs::Domains::refused_words))]
fn refused_words() -> &'static str
    ensures { result.now ≡ spec.refused_words }
{
    "a line of this script is refused, so nothing is compared"
}

/// What is told of a domain that has another size than the one before it.
#[tactic(auto, unfolding(crate::specs::Domains::unlike_words))]
fn unlike_words() -> &'static str
    ensures { result.now ≡ spec.unlike_words }
{
    "this domain has not as many nodes as the one before it"
}

/// Tells people why a script left no domain behind.
fn tell_none<E: Write>(
    alloc: Global,
    name: &[u8],
    words: &str,
    errors: &mut E,
) -> Result<Option<LeftDomain>, ProgramFault>
    ensures { IfOk result (λ domain. (domain ≡ None)
        × Appends (E.contents errors.old) (E.contents errors.new) (notice_line name.now words.now (10 ∷ []))) }
{
    tell_of(alloc, errors, name, words, b"\n")?;
    Ok(None)
}

/// The domain that a script left behind. Where there is none, people are told why.
fn domain_of<E: Write>(
    alloc: Global,
    name: &[u8],
    left: Left,
    errors: &mut E,
) -> Result<Option<LeftDomain>, ProgramFault>
    ensures { IfOk result (λ domain. spec.IsDomainOf name.now left (E.contents errors.old) (E.contents errors.new) domain) }
{
    match left {
        Left::Domain(domain) => Ok(Some(domain)),
        Left::Nothing => tell_none(alloc, name, nothing_words(), errors),
        Left::Refused => tell_none(alloc, name, refused_words(), errors),
    }
}

/// Carries out a script. Where it leaves no domain behind, people are told why.
fn leave_text<R: Read, W: Write, E: Write>(
    alloc: Global,
    name: &[u8],
    script: &[u8],
    is_explained: bool,
    console: &mut Console<R, W, E>,
) -> Result<Option<LeftDomain>, ProgramFault>
    ensures left { IfOk result (spec.LeavesPlan name.now script.now is_explained console.old console.new) }
    ensures unwritten { console.new.holds ≡ console.old.holds }
{
    let left = leave(alloc, name, script, is_explained, &mut console.errors)?;
    match domain_of(alloc, name, left, &mut console.errors) {
        Ok(domain) => Ok(domain),
        Err(fault) => Err(fault),
    }
}

/// Reads a script and carries it out. Where it leaves no domain behind, people are told why.
#[tactic(auto, unfolding(crate::specs::Domains::LeftBy))]
fn left_by<F: Folder, R: Read, W: Write, E: Write>(
    files: &F,
    alloc: Global,
    source: &Source,
    is_explained: bool,
    console: &mut Console<R, W, E>,
) -> Result<Option<LeftDomain>, ProgramFault>
    ensures left { IfOk result (spec.LeftBy (F.opens files.now) source.now is_explained console.old console.new) }
    ensures unwritten { console.new.holds ≡ console.old.holds }
{
    match read_script(files, alloc, source, console) {
        Loaded::Text(script) => {
            let (name, script) = (name_of(source), script.as_slice());
            leave_text(alloc, name, script, is_explained, console)
        }
        Loaded::Skipped => Ok(None),
        Loaded::Stopped(fault) => Err(fault),
    }
}

/// Writes what the change of one domain to another of as many nodes does, and returns the exit status.
fn write_change<R: Read, W: Write, E: Write>(
    alloc: Global,
    format: Format,
    old: LeftDomain,
    new: LeftDomain,
    console: &mut Console<R, W, E>,
) -> Result<u8, ProgramFault>
    requires sizes { new.size ≡ old.size }
    ensures finished { IfOk result (spec.WritesChange format old new console.old console.new) }
    ensures stopped { IfErr result (λ _. spec.StopsDomains format console.old.holds console.new.holds) }
{
    match compare_domains(alloc, format, old, new, &mut console.writer) {
        Ok(is_lost) => Ok(status_of_found(is_lost)),
        Err(fault) => Err(ProgramFault::Stream(fault)),
    }
}

/// Writes what the change of one domain to another does, and returns the exit status.
#[tactic(auto, unfolding(crate::specs::Domains::ComparesPlans), using(crate::proofs::ComparedOff::nothing_compared))]
fn compare_left<R: Read, W: Write, E: Write>(
    alloc: Global,
    format: Format,
    old: LeftDomain,
    new: LeftDomain,
    name: &[u8],
    console: &mut Console<R, W, E>,
) -> Result<u8, ProgramFault>
    ensures finished { IfOk result (spec.ComparesPlans format old name.now new console.old console.new) }
    ensures stopped { IfErr result (λ _. spec.StopsDomains format console.old.holds console.new.holds) }
{
    if new.size() == old.size() {
        write_change(alloc, format, old, new, console)
    } else {
        match tell_of(alloc, &mut console.errors, name, unlike_words(), b"\n") {
            Ok(()) => Ok(FAULT),
            Err(fault) => Err(fault),
        }
    }
}

/// Writes what the change of a domain to that of a script does, and returns the exit status.
#[tactic(auto, unfolding(crate::specs::Domains::ComparesNewer), using(crate::proofs::ComparedOff::nothing_compared))]
fn compare_newer<F: Folder, R: Read, W: Write, E: Write>(
    files: &F,
    alloc: Global,
    format: Format,
    old: LeftDomain,
    new: &Source,
    is_explained: bool,
    console: &mut Console<R, W, E>,
) -> Result<u8, ProgramFault>
    ensures finished { IfOk result (spec.ComparesNewer (F.opens files.now) format old new.now is_explained console.old console.new) }
    ensures stopped { IfErr result (λ _. spec.StopsDomains format console.old.holds console.new.holds) }
{
    match left_by(files, alloc, new, is_explained, console) {
        Ok(Some(domain)) => compare_left(alloc, format, old, domain, name_of(new), console),
        Ok(None) => Ok(FAULT),
        Err(fault) => Err(fault),
    }
}

/// Writes what the change of the domain of one script to that of another does, and returns the exit status.
#[tactic(auto, unfolding(crate::specs::Domains::ComparesDomains), using(crate::proofs::ComparedOff::nothing_compared))]
pub(crate) fn compare_scripts<F: Folder, R: Read, W: Write, E: Write>(
    files: &F,
    alloc: Global,
    format: Format,
    old: &Source,
    new: &Source,
    is_explained: bool,
    console: &mut Console<R, W, E>,
) -> Result<u8, ProgramFault>
    ensures finished { IfOk result (spec.ComparesDomains (F.opens files.now) format old.now new.now is_explained console.old console.new) }
    ensures stopped { IfErr result (λ _. spec.StopsDomains format console.old.holds console.new.holds) }
{
    match left_by(files, alloc, old, is_explained, console) {
        Ok(Some(domain)) => {
            compare_newer(files, alloc, format, domain, new, is_explained, console)
        }
        Ok(None) => Ok(FAULT),
        Err(fault) => Err(fault),
    }
}

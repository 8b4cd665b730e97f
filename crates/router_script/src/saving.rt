//! A script whose history is saved as it is made.
//!
//! **A history is saved by a service round the script**, which writes what the text of the history grew by. So the script knows nothing of files,
//! and its answers are those of `run_script` by its own contract. `one_line_one_entry` says why a line or two are all there is to write.
//!
//! **The saver is a writer that is given and given back**, flushed for each entry. So the contract can say what it got, of any writer.
//!
//! **The opening is saved at the end of a script without an event**, and not when `network` is answered, since prefixes can still be set then. So a
//! script that came to its end leaves a history that can be replayed, as `ncroute router` does; without `network` there is none, and the file is
//! empty.
//!
//! **`--save` takes a new file alone.** A history that is there is evidence, and no run is worth writing over one; to go on in it would need its
//! opening to be this one's. Whoever wants the old file gone removes it.
ghost use Rattle.std.specs.Prelude.{◌≡◌, ◌++◌, ◌∷◌, [], Ok, IfErr, IfOk, IfSome, MatchResult, OnErr, OnOk, true};
ghost use Rattle.std.specs.Io.{StartsWith};
ghost use Rattle.std.specs.Io.KnownBytes.{Appends};
ghost use Rattle.history_lines.specs.Text.{opening_line};
ghost use Rattle.router_script.specs.State.{script_of};
ghost use Rattle.router_script.specs.Faults.{stream_of};
ghost use Rattle.router_script.specs.News as spec;
ghost use Rattle.router_script.specs.Running.{IsSaved, IsSavedInPart};
ghost use Rattle.router_script.specs.State.{prepared_of};
ghost use Rattle.router_script.specs.Stopping as stopping;

use crate::fault::SavingFault;
use crate::filter_naming::{NamedFilter, Prepared, Unfit};
use crate::script::{Script, ScriptFault};
use history_lines::{write_entry, write_opening};
use line_protocol::{LineReply, Service, StreamFault, answer_lines, write_text};
use netchange_core::Opening;
use operator_cmds::Watch;
use route_history::{Journal, LARGEST_LIMIT};
use std::alloc::{AllocError, Global};
use std::io::{Read, Write};

/// Adds the line of the entry at a position, if there is one.
fn push_entry_at(
    alloc: Global,
    out: &mut Vec<u8>,
    journal: &Journal,
    at: usize,
) -> Result<(), AllocError>
    ensures { OnOk result (out.new.items ≡ out.old.items ++ spec.next_lines (Some at) journal.now) }
{
    match journal.entries().get(at) {
        Some(entry) => write_entry(alloc, out, at as u64, entry),
        None => Ok(()),
    }
}

/// Adds the line of a history's opening.
fn push_opening(
    alloc: Global,
    out: &mut Vec<u8>,
    opening: &Opening,
    limit: u32,
) -> Result<(), AllocError>
    ensures { OnOk result (out.new.items ≡ out.old.items ++ opening_line opening.now limit ++ 10 ∷ []) }
{
    // No script opens a journal with another limit.
    if limit == 0 || limit > LARGEST_LIMIT {
        return Err(AllocError);
    }
    write_opening(alloc, out, opening, limit)
}

/// Adds the next line of a journal of which so many entries are saved, and the opening's line before it where nothing is.
fn push_next(
    alloc: Global,
    out: &mut Vec<u8>,
    journal: &Journal,
    saved: Option<usize>,
) -> Result<(), AllocError>
    ensures { OnOk result (out.new.items ≡ out.old.items ++ spec.next_lines saved journal.now) }
{
    match saved {
        Some(count) => push_entry_at(alloc, out, journal, count),
        None => {
            push_opening(alloc, out, journal.opening(), journal.limit())?;
            push_entry_at(alloc, out, journal, 0)
        }
    }
}

/// How many entries a script has, if its journal is open.
fn count_entries(script: &Script) -> Option<usize>
    ensures { result ≡ spec.count_in (script_of script.now).stage }
{
    match script.journal() {
        Some(journal) => Some(journal.entries().len()),
        None => None,
    }
}

/// The lines that are not saved of a script's history, of which so many entries are.
fn unsaved(alloc: Global, script: &Script, saved: Option<usize>) -> Result<Vec<u8>, AllocError>
    ensures { IfOk result (λ text. text.items ≡ spec.news saved (script_of script.now).stage) }
{
    let mut text = Vec::new(alloc);
    if let Some(journal) = script.journal() {
        push_next(alloc, &mut text, journal, saved)?;
    }
    Ok(text)
}

/// What the end of a script adds to the text of its history.
fn closing(alloc: Global, script: &Script) -> Result<Vec<u8>, AllocError>
    ensures { IfOk result (λ text. text.items ≡ spec.closing (script_of script.now).stage) }
{
    let mut text = Vec::new(alloc);
    if let Some((opening, limit)) = script.setting() {
        push_opening(alloc, &mut text, opening, limit)?;
    }
    Ok(text)
}

/// Saves what the end of a script adds to its history.
fn save_closing<V: Write>(alloc: Global, script: &Script, saver: &mut V) -> Result<(), SavingFault>
    ensures ok { OnOk result (Appends (V.contents saver.old) (V.contents saver.new) (spec.closing (script_of script.now).stage)) }
    ensures err { IfErr result (λ fault. stream_of fault ≡ StreamFault.Memory) }
{
    let Ok(text) = closing(alloc, script) else {
        return Err(SavingFault::Stream(StreamFault::Memory));
    };
    match write_text(saver, text.as_slice()) {
        Ok(()) => Ok(()),
        Err(_) => Err(SavingFault::Saver),
    }
}

/// A script, where its history is saved, and who watches it.
#[derive(Drop)]
struct Saving<'a, V: Write + Drop, S: Watch + Drop> {
    /// The script, with the filters that it is started with.
    prepared: Prepared<'a>,
    /// Its history is saved.
    saves: bool,
    /// Where its history is saved.
    saver: V,
    /// The saver failed.
    is_broken: bool,
    /// Who is shown each line that is refused.
    watcher: S,
    /// The script ends at its first refused line.
    stops: bool,
}

impl<'a, V: Write + Drop, S: Watch + Drop> Service for Saving<'a, V, S> {
    ghost use Rattle.std.specs.Prelude.{⊤};
    ghost use Rattle.router_script.specs.Saved.{AnswersSaved};

    ghost answers = { λ before number line answer after. AnswersSaved
        (record { script = prepared_of before.prepared; saves = before.saves; holds = V.contents before.saver; stops = before.stops })
        number line answer
        (record { script = prepared_of after.prepared; saves = after.saves; holds = V.contents after.saver; stops = after.stops }) };

    ghost refuses = { λ _ _. ⊤ };

    fn answer(
        &mut self,
        alloc: Global,
        number: u32,
        line: &[u8],
        out: &mut Vec<u8>,
    ) -> Result<LineReply, AllocError> {
        let begun = out.len();
        let saved = count_entries(&self.prepared.script);
        let reply = self.prepared.answer(alloc, number, line, out)?;
        self.save(alloc, saved)?;
        let told = out.as_slice().get(begun..).unwrap_or(&[]);
        Ok(self.end(alloc, number, line, told, reply))
    }
}

impl<'a, V: Write + Drop, S: Watch + Drop> Saving<'a, V, S> {
    /// Shows a line that is refused, with its answer, to who watches, and makes it the last one where the script ends there.
    fn end(
        &mut self,
        alloc: Global,
        number: u32,
        line: &[u8],
        told: &[u8],
        reply: LineReply,
    ) -> LineReply
        ensures script { prepared_of self.new.prepared ≡ prepared_of self.old.prepared }
        ensures saves { self.new.saves ≡ self.old.saves }
        ensures saver { self.new.saver ≡ self.old.saver }
        ensures stops { self.new.stops ≡ self.old.stops }
        ensures reply { result ≡ stopping.reply_where self.old.stops reply }
    {
        if reply != LineReply::Refused {
            return reply;
        }
        let refused = self.prepared.script.refused_line(number, line, told);
        self.watcher.see_refused(alloc, &refused);
        if self.stops { LineReply::Ended } else { reply }
    }

    /// Saves what is not saved of the history, of which so many entries are.
    fn save(&mut self, alloc: Global, saved: Option<usize>) -> Result<(), AllocError>
        ensures script { prepared_of self.new.prepared ≡ prepared_of self.old.prepared }
        ensures saves { self.new.saves ≡ self.old.saves }
        ensures stops { self.new.stops ≡ self.old.stops }
        ensures ok { OnOk result (self.old.saves ≡ true → Appends (V.contents self.old.saver) (V.contents self.new.saver)
            (spec.news saved (script_of self.old.prepared.script).stage)) }
    {
        if !self.saves {
            return Ok(());
        }
        let text = unsaved(alloc, &self.prepared.script, saved)?;
        match write_text(&mut self.saver, text.as_slice()) {
            Ok(()) => Ok(()),
            Err(_) => {
                self.is_broken = true;
                Err(AllocError)
            }
        }
    }

    /// Saves what the end of the run adds to the history, where no fault ended it. Gives what is told of the end, the saver, and the filter
    /// that was refused.
    fn finish(
        self,
        alloc: Global,
        ended: Result<u32, ScriptFault>,
    ) -> (Result<u32, SavingFault>, V, Option<Unfit>)
        ensures finished { IfOk result.0 (λ refused. (ended ≡ Ok refused)
            × (self.entry.saves ≡ true → Appends (V.contents self.entry.saver) (V.contents result.1)
            (spec.closing (script_of self.entry.prepared.script).stage))) }
        ensures broken_off { IfErr result.0 (λ fault. MatchResult ended (λ _. stream_of fault ≡ StreamFault.Memory)
            (λ first. (stream_of fault ≡ first) × (result.1 ≡ self.entry.saver))) }
        ensures unfit { result.2 ≡ (prepared_of self.entry.prepared).unfit }
    {
        let Saving {
            prepared,
            saves,
            saver,
            is_broken,
            watcher: _watcher,
            stops: _stops,
        } = self;
        let mut saver = saver;
        let told = match ended {
            Ok(refused) if !saves => Ok(refused),
            Ok(refused) => match save_closing(alloc, &prepared.script, &mut saver) {
                Ok(()) => Ok(refused),
                Err(fault) => Err(fault),
            },
            Err(fault) => Err(saving_fault(fault, is_broken)),
        };
        (told, saver, prepared.unfit)
    }
}

/// What is told of a fault that ended the lines of a run. A line for which the saver failed was given up as one is for which memory is refused.
fn saving_fault(fault: ScriptFault, is_broken: bool) -> SavingFault
    ensures { stream_of result ≡ fault }
{
    match fault {
        StreamFault::Memory if is_broken => SavingFault::Saver,
        _ => SavingFault::Stream(fault),
    }
}

/// Does what `run_script` does, and shows each line that is refused to who watches. Gives the saver back.
///
/// Where `saves` says so, the script's history is saved as it is made: the opening's line when the first event opens the journal, then the line
/// of each entry, written and flushed before the answer to its line is written. Where a domain is set up and no event came, the opening's line
/// is saved at the end, unless a fault ended the script. Otherwise nothing is said of the saver, and nothing is written to it.
///
/// Where `stops` says so, the script ends at its first refused line: that line is answered, and none that follows.
///
/// The line that sets the domain up also verifies each of `filters` for domains of that size, in order, and gives it its name, as `load`
/// does. At the first of them that is refused the script ends, and that line is not answered; that filter is returned.
///
/// Where a write to the saver fails the fault is `Saver`, and the line whose entry it was is not answered.
pub fn run_saved_script<R: Read, W: Write, V: Write + Drop, S: Watch + Drop>(
    alloc: Global,
    reader: &mut R,
    writer: &mut W,
    saves: bool,
    saver: V,
    watcher: S,
    filters: &[NamedFilter],
    stops: bool,
) -> (Result<u32, SavingFault>, V, Option<Unfit>)
    // The answers are those of `run_script`, up to the one that ends it, and what was saved is the text of the whole history.
    ensures finished { IfOk result.0 (λ refused. IfSome (R.remaining reader.old) (λ input.
        IsSaved saves stops filters.now input (R.remaining reader.new) (W.contents writer.old) (W.contents writer.new) refused
        (V.contents saver) (V.contents result.1) result.2)) }
    ensures broken_off { IfErr result.0 (λ fault. IfSome (R.remaining reader.old) (λ input.
        IsSavedInPart (stream_of fault) saves stops filters.now input (R.remaining reader.new) (W.contents writer.old) (W.contents writer.new)
        (V.contents saver) (V.contents result.1))) }
{
    let mut service = Saving {
        prepared: Prepared::new(alloc, filters),
        saves,
        saver,
        is_broken: false,
        watcher,
        stops,
    };
    let ended = answer_lines(alloc, reader, writer, &mut service);
    service.finish(alloc, ended)
}

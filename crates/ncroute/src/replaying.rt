//! The command `replay`: from the text of a history, or the texts of its segments, to the line of the verdict.
ghost use Rattle.std.specs.Prelude.{◌≡◌, ◌++◌, ◌+◌, ◌≤◌, IfErr, IfOk, length};
ghost use Rattle.filter_reports.specs.Faults.{stream_fault};
ghost use Rattle.filter_reports.specs.Reports.{report_of};
ghost use Rattle.history_file.specs.ChainLines.{chain_line, fault_line, file_words};
ghost use Rattle.ncroute.specs.Replaying as spec;
ghost use Rattle.program_console.specs.Putting.{CutsPut, Puts};

use filter_reports::{FAILED, FAULT, ProgramFault, Report};
use history_file::{
    Chain, ChainFault, is_segment, judge, push_chain, push_chain_fault, push_verdict,
};
use line_protocol::StreamFault;
use program_console::{Console, Folder, SourceText, load, unread_report};
use program_words::Source;
use std::alloc::{AllocError, Global};
use std::io::{Read, Write};

/// A history of more bytes than this is not replayed.
pub const REPLAY_LIMIT: usize = 1_073_741_824;

/// What came of a replay of segments.
#[derive(Drop)]
pub enum ReplayedSegments {
    /// All replies are right.
    Right(Chain),
    /// A file is not the next segment; this is its number, counted from 1, where there are several.
    Refused(Option<u64>, ChainFault),
    /// A file could not be read, as this line tells.
    Unread(Vec<u8>),
}

/// The report on the text of a whole history: the line of its verdict, with status 0 where it is the text of a right history, to its end.
fn history_report(alloc: Global, text: &[u8]) -> Result<Report, ProgramFault>
    requires { length text.now ≤ REPLAY_LIMIT + 1 }
    ensures made { IfOk result (λ report. spec.ReplaysHistory text.now (report_of report)) }
    ensures stopped { IfErr result (λ fault. spec.StopsReplay (stream_fault fault) text.now) }
{
    if text.len() > REPLAY_LIMIT {
        return Err(ProgramFault::Stream(StreamFault::TooLong));
    }
    let verdict = judge(alloc, text)?;
    let mut line = Vec::new(alloc);
    push_verdict(&mut line, &verdict)?;
    Ok(Report {
        out: line,
        err: Vec::new(alloc),
        status: if verdict.is_right() { 0 } else { FAILED },
    })
}

/// Replays the text of the next segment of a chain; of the first one where there is no chain yet.
fn join_text(
    alloc: Global,
    chain: Option<Chain>,
    file: Option<u64>,
    text: &[u8],
) -> Result<ReplayedSegments, ProgramFault>
    ensures finished { IfOk result (spec.JoinsText chain file text.now) }
    ensures stopped { IfErr result (λ fault. spec.StopsReplay (stream_fault fault) text.now) }
{
    if text.len() > REPLAY_LIMIT {
        return Err(ProgramFault::Stream(StreamFault::TooLong));
    }
    match Chain::join(alloc, chain, text) {
        Ok(chain) => Ok(ReplayedSegments::Right(chain)),
        Err(ChainFault::Memory) => Err(ProgramFault::MEMORY),
        Err(fault) => Ok(ReplayedSegments::Refused(file, fault)),
    }
}

/// The line of a chain whose last segment was replayed.
fn chain_text(alloc: Global, chain: &Chain) -> Result<Vec<u8>, AllocError>
    ensures { IfOk result (λ line. line.items ≡ chain_line chain.now) }
{
    let mut line = Vec::new(alloc);
    push_chain(&mut line, chain)?;
    Ok(line)
}

/// The line of a file that is not the next segment.
fn fault_text(alloc: Global, file: Option<u64>, fault: ChainFault) -> Result<Vec<u8>, AllocError>
    ensures { IfOk result (λ line. line.items ≡ file_words file ++ fault_line fault) }
{
    let mut line = Vec::new(alloc);
    push_chain_fault(&mut line, file, fault)?;
    Ok(line)
}

/// The report on a replay of segments.
fn replay_report(alloc: Global, found: ReplayedSegments) -> Result<Report, AllocError>
    ensures { IfOk result (λ report. report_of report ≡ spec.replay_report found) }
{
    match found {
        ReplayedSegments::Right(chain) => Ok(Report {
            out: chain_text(alloc, &chain)?,
            err: Vec::new(alloc),
            status: 0,
        }),
        ReplayedSegments::Refused(file, fault) => Ok(Report {
            out: fault_text(alloc, file, fault)?,
            err: Vec::new(alloc),
            status: FAILED,
        }),
        ReplayedSegments::Unread(line) => Ok(unread_report(alloc, FAULT, line)),
    }
}

/// The report on the text of one segment.
fn segment_report(alloc: Global, text: &[u8]) -> Result<Report, ProgramFault>
    ensures made { IfOk result (λ report. spec.ReplaysSegment text.now (report_of report)) }
    ensures stopped { IfErr result (λ fault. spec.StopsReplay (stream_fault fault) text.now) }
{
    match join_text(alloc, None, None, text) {
        Ok(found) => match replay_report(alloc, found) {
            Ok(report) => Ok(report),
            Err(_) => Err(ProgramFault::MEMORY),
        },
        Err(fault) => Err(fault),
    }
}

/// The report on the text of a segment or of a whole history.
fn text_report(alloc: Global, text: &[u8]) -> Result<Report, ProgramFault>
    requires { length text.now ≤ REPLAY_LIMIT + 1 }
    ensures made { IfOk result (λ report. spec.ReplaysText text.now (report_of report)) }
    ensures stopped { IfErr result (λ fault. spec.StopsReplay (stream_fault fault) text.now) }
{
    if is_segment(text) {
        segment_report(alloc, text)
    } else {
        history_report(alloc, text)
    }
}

/// The report on the history or the segment that a source is the text of.
fn source_report<F: Folder, R: Read>(
    files: &F,
    alloc: Global,
    source: &Source,
    reader: &mut R,
) -> Result<Report, ProgramFault>
    ensures made { IfOk result (λ report. spec.ReplaysSource (F.opens files.now) source.now (report_of report)
        (R.remaining reader.old) (R.remaining reader.new)) }
    ensures stopped { IfErr result (λ fault. spec.StopsReading (F.opens files.now) (stream_fault fault) source.now
        (R.remaining reader.old) (R.remaining reader.new)) }
{
    match load(files, alloc, source, REPLAY_LIMIT, reader) {
        Ok(SourceText::Text(text)) => text_report(alloc, text.as_slice()),
        Ok(SourceText::Unread(line)) => Ok(unread_report(alloc, FAULT, line)),
        Err(fault) => Err(fault),
    }
}

/// Replays the segment that a source is the text of, as the next one of a chain.
fn join_source<F: Folder, R: Read>(
    files: &F,
    alloc: Global,
    chain: Option<Chain>,
    file: Option<u64>,
    source: &Source,
    reader: &mut R,
) -> Result<ReplayedSegments, ProgramFault>
    ensures finished { IfOk result (λ found. spec.JoinsSource (F.opens files.now) chain file source.now found
        (R.remaining reader.old) (R.remaining reader.new)) }
    ensures stopped { IfErr result (λ fault. spec.StopsReading (F.opens files.now) (stream_fault fault) source.now
        (R.remaining reader.old) (R.remaining reader.new)) }
{
    match load(files, alloc, source, REPLAY_LIMIT, reader) {
        Ok(SourceText::Text(text)) => join_text(alloc, chain, file, text.as_slice()),
        Ok(SourceText::Unread(line)) => Ok(ReplayedSegments::Unread(line)),
        Err(fault) => Err(fault),
    }
}

/// Replays the segments that sources are the texts of, in order, up to the first that is refused or not read.
fn join_all<F: Folder, R: Read>(
    files: &F,
    alloc: Global,
    sources: &[Source],
    reader: &mut R,
) -> Result<ReplayedSegments, ProgramFault>
    ensures finished { IfOk result (λ found. spec.JoinsAll (F.opens files.now) sources.now found (R.remaining reader.old) (R.remaining reader.new)) }
    ensures stopped { IfErr result (λ fault. spec.StopsAmong (F.opens files.now) (stream_fault fault) sources.now
        (R.remaining reader.old) (R.remaining reader.new)) }
{
    let mut chain = None;
    for at in 0..sources.len() {
        let number = at as u64 + 1;
        match join_source(files, alloc, chain, Some(number), &sources[at], reader)? {
            ReplayedSegments::Right(now) => chain = Some(now),
            found => return Ok(found),
        }
    }
    match chain {
        Some(chain) => Ok(ReplayedSegments::Right(chain)),
        None => Ok(ReplayedSegments::Unread(Vec::new(alloc))),
    }
}

/// The report on the segments that sources are the texts of, in order.
fn segments_report<F: Folder, R: Read>(
    files: &F,
    alloc: Global,
    sources: &[Source],
    reader: &mut R,
) -> Result<Report, ProgramFault>
    ensures made { IfOk result (λ report. spec.ReplaysSegments (F.opens files.now) sources.now (report_of report)
        (R.remaining reader.old) (R.remaining reader.new)) }
    ensures stopped { IfErr result (λ fault. spec.StopsSegments (F.opens files.now) (stream_fault fault) sources.now
        (R.remaining reader.old) (R.remaining reader.new)) }
{
    match join_all(files, alloc, sources, reader) {
        Ok(found) => match replay_report(alloc, found) {
            Ok(report) => Ok(report),
            Err(_) => Err(ProgramFault::MEMORY),
        },
        Err(fault) => Err(fault),
    }
}

/// The report on the history that a source is the text of, or whose segments sources are the texts of, in order.
fn sources_report<F: Folder, R: Read>(
    files: &F,
    alloc: Global,
    sources: &[Source],
    reader: &mut R,
) -> Result<Report, ProgramFault>
    ensures made { IfOk result (λ report. spec.ReplaysSources (F.opens files.now) sources.now (report_of report)
        (R.remaining reader.old) (R.remaining reader.new)) }
    ensures stopped { IfErr result (λ fault. spec.StopsSources (F.opens files.now) (stream_fault fault) sources.now
        (R.remaining reader.old) (R.remaining reader.new)) }
{
    if sources.len() == 1 {
        source_report(files, alloc, &sources[0], reader)
    } else {
        segments_report(files, alloc, sources, reader)
    }
}

/// Replays the history that a source is the text of, or whose segments sources are the texts of, in order, and returns the exit status.
pub(crate) fn replay_sources<F: Folder, R: Read, W: Write, E: Write>(
    files: &F,
    alloc: Global,
    sources: &[Source],
    console: &mut Console<R, W, E>,
) -> Result<u8, ProgramFault>
    ensures finished { IfOk result (Puts (spec.ReplaysSources (F.opens files.now) sources.now) console.old console.new) }
    ensures stopped { IfErr result (λ fault. CutsPut (stream_fault fault) (spec.ReplaysSources (F.opens files.now) sources.now)
        (spec.StopsSources (F.opens files.now) (stream_fault fault) sources.now) console.old console.new) }
{
    match sources_report(files, alloc, sources, &mut console.reader) {
        Ok(report) => console.put(&report),
        Err(fault) => Err(fault),
    }
}

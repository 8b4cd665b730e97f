//! How test files are run.
//!
//! **`test` ends with 0 only where each test holds, and with 1 only where one does not.** Where none is found that does not, but one is undecided,
//! it is 3.
//!
//! **The report on a file is a part of the stream of all files**: it is written before the next file is read, and numbers its tests behind those before.
ghost use Rattle.std.specs.Prelude.{◌≡◌, ◌+◌, ◌<◌, ◌^◌, IfErr, IfOk, length};
ghost use Rattle.filter_checks.specs.Files.{file_view};
ghost use Rattle.filter_reports.specs.Faults.{stream_fault};
ghost use Rattle.filter_reports.specs.Reports.{report_of};
ghost use Rattle.program_console.specs.Following.{CutsLater, DoesAll};
ghost use Rattle.ncroute.specs.Testing as spec;

use filter_checks::{
    TestFile, TestFileFault, TestReport, end_in, faulty_tests, head_in, path_beside, read_tests,
    skipped_tests, test_report,
};
use filter_reports::{NamedText, ProgramFault, Report};
use filter_source::SOURCE_LIMIT;
use line_protocol::StreamFault;
use program_console::{Console, Folder, SourceText, load, name_of, worst_status};
use program_words::Source;
use report_formats::TestOptions;
use std::alloc::{AllocError, Global};
use std::io::{Read, Write};

/// What came of the tests of some files.
#[derive(Clone, Copy)]
pub struct Tally {
    /// How many tests the stream has.
    pub count: u64,
    /// The exit status.
    pub status: u8,
}

/// The report on a test file, whose filter is read from a source.
fn test_beside<F: Folder, R: Read>(
    files: &F,
    alloc: Global,
    how: TestOptions,
    before: u64,
    name: &[u8],
    file: &TestFile,
    source: &Source,
    reader: &mut R,
) -> Result<TestReport, ProgramFault>
    requires one { before + 1 < 2 ^ 64 }
    requires fits { before + length file.now.tests.items < 2 ^ 64 }
    ensures made { IfOk result (λ made. spec.TestsBeside (F.opens files.now) how before name.now (file_view file.now) source.now
        (report_of made.report) made.count (R.remaining reader.old) (R.remaining reader.new)) }
    ensures stopped { IfErr result (λ fault. spec.StopsBeside (F.opens files.now) (stream_fault fault) source.now
        (R.remaining reader.old) (R.remaining reader.new)) }
{
    match load(files, alloc, source, SOURCE_LIMIT, reader) {
        Ok(SourceText::Text(text)) => {
            let filter = NamedText {
                name: name_of(source),
                text: text.as_slice(),
            };
            Ok(test_report(alloc, how, before, name, file, &filter)?)
        }
        Ok(SourceText::Unread(line)) => {
            let line = line.as_slice();
            Ok(skipped_tests(alloc, how, before, name, line, line)?)
        }
        Err(fault) => Err(fault),
    }
}

/// The report on a test file, whose filter is in the file of this name. There is none if the name is not UTF-8.
#[tactic(auto, unfolding(crate::specs::Testing::TestsAt, crate::specs::Testing::StopsAt))]
fn test_at<F: Folder, R: Read>(
    files: &F,
    alloc: Global,
    how: TestOptions,
    before: u64,
    name: &[u8],
    file: &TestFile,
    path: &[u8],
    reader: &mut R,
) -> Result<TestReport, ProgramFault>
    requires one { before + 1 < 2 ^ 64 }
    requires fits { before + length file.now.tests.items < 2 ^ 64 }
    ensures made { IfOk result (λ made. spec.TestsAt (F.opens files.now) how before name.now (file_view file.now) path.now
        (report_of made.report) made.count (R.remaining reader.old) (R.remaining reader.new)) }
    ensures stopped { IfErr result (λ fault. spec.StopsAt (F.opens files.now) (stream_fault fault) path.now
        (R.remaining reader.old) (R.remaining reader.new)) }
{
    match str::from_utf8(path) {
        Ok(path) => match String::from_str(alloc, path) {
            Ok(path) => {
                let source = Source::File(path);
                test_beside(files, alloc, how, before, name, file, &source, reader)
            }
            Err(_) => Err(ProgramFault::MEMORY),
        },
        Err(_) => Ok(faulty_tests(alloc, how, before, name, TestFileFault::Name)?),
    }
}

/// The report on a test file, whose filter is in the file beside it that it names, if its tests can be counted.
#[tactic(auto, unfolding(crate::specs::Testing::StopsFile))]
fn test_file<F: Folder, R: Read>(
    files: &F,
    alloc: Global,
    how: TestOptions,
    before: u64,
    name: &[u8],
    file: &TestFile,
    reader: &mut R,
) -> Result<TestReport, ProgramFault>
    requires { before + 1 < 2 ^ 64 }
    ensures made { IfOk result (λ made. spec.TestsFile (F.opens files.now) how before name.now (file_view file.now)
        (report_of made.report) made.count (R.remaining reader.old) (R.remaining reader.new)) }
    ensures stopped { IfErr result (λ fault. spec.StopsFile (F.opens files.now) (stream_fault fault) before name.now (file_view file.now)
        (R.remaining reader.old) (R.remaining reader.new)) }
{
    let count = file.tests.len();
    let room = u64::MAX - before;
    if count as u64 > room {
        return Err(ProgramFault::Stream(StreamFault::TooLong));
    }
    match path_beside(alloc, name, file.filter.as_slice()) {
        Ok(path) => {
            let path = path.as_slice();
            test_at(files, alloc, how, before, name, file, path, reader)
        }
        Err(_) => Err(ProgramFault::MEMORY),
    }
}

/// The report on the tests that a text has, of a source of this name.
#[tactic(auto, unfolding(crate::specs::Testing::TestsText, crate::specs::Testing::StopsText))]
fn test_text<F: Folder, R: Read>(
    files: &F,
    alloc: Global,
    how: TestOptions,
    before: u64,
    name: &[u8],
    text: &[u8],
    reader: &mut R,
) -> Result<TestReport, ProgramFault>
    requires { before + 1 < 2 ^ 64 }
    ensures made { IfOk result (λ made. spec.TestsText (F.opens files.now) how before name.now text.now
        (report_of made.report) made.count (R.remaining reader.old) (R.remaining reader.new)) }
    ensures stopped { IfErr result (λ fault. spec.StopsText (F.opens files.now) (stream_fault fault) before name.now text.now
        (R.remaining reader.old) (R.remaining reader.new)) }
{
    match read_tests(alloc, text) {
        Ok(file) => test_file(files, alloc, how, before, name, &file, reader),
        Err(TestFileFault::Memory) => Err(ProgramFault::MEMORY),
        Err(why) => Ok(faulty_tests(alloc, how, before, name, why)?),
    }
}

/// The report on the tests of a source, before which the stream has `before` others.
#[tactic(auto, unfolding(crate::specs::Testing::StopsSource))]
fn test_source<F: Folder, R: Read>(
    files: &F,
    alloc: Global,
    how: TestOptions,
    before: u64,
    source: &Source,
    reader: &mut R,
) -> Result<TestReport, ProgramFault>
    ensures made { IfOk result (λ made. spec.TestsSource (F.opens files.now) how before source.now
        (report_of made.report) made.count (R.remaining reader.old) (R.remaining reader.new)) }
    ensures stopped { IfErr result (λ fault. spec.StopsSource (F.opens files.now) (stream_fault fault) before source.now
        (R.remaining reader.old) (R.remaining reader.new)) }
{
    if before == u64::MAX {
        return Err(ProgramFault::Stream(StreamFault::TooLong));
    }
    match load(files, alloc, source, SOURCE_LIMIT, reader) {
        Ok(SourceText::Text(text)) => {
            let (name, text) = (name_of(source), text.as_slice());
            test_text(files, alloc, how, before, name, text, reader)
        }
        Ok(SourceText::Unread(line)) => {
            let (name, line) = (name_of(source), line.as_slice());
            Ok(skipped_tests(alloc, how, before, name, line, line)?)
        }
        Err(fault) => Err(fault),
    }
}

/// Writes the report on the tests of a source behind those of others.
fn test_next<F: Folder, R: Read, W: Write, E: Write>(
    files: &F,
    alloc: Global,
    how: TestOptions,
    earlier: Tally,
    source: &Source,
    console: &mut Console<R, W, E>,
) -> Result<Tally, ProgramFault>
    ensures finished { IfOk result (spec.TestsNext (F.opens files.now) how earlier source.now console.old console.new) }
    ensures stopped { IfErr result (λ fault. spec.StopsNext (F.opens files.now) (stream_fault fault) how earlier source.now
        console.old console.new) }
{
    match test_source(
        files,
        alloc,
        how,
        earlier.count,
        source,
        &mut console.reader,
    ) {
        Ok(made) => match console.put(&made.report) {
            Ok(status) => Ok(Tally {
                count: made.count,
                status: worst_status(earlier.status, status),
            }),
            Err(fault) => Err(fault),
        },
        Err(fault) => Err(fault),
    }
}

/// Writes the reports on the tests of sources, in order.
fn test_all<F: Folder, R: Read, W: Write, E: Write>(
    files: &F,
    alloc: Global,
    how: TestOptions,
    sources: &[Source],
    console: &mut Console<R, W, E>,
) -> Result<Tally, ProgramFault>
    ensures finished { IfOk result (DoesAll spec.none_run (spec.TestsNext (F.opens files.now) how) sources.now console.old console.new) }
    ensures stopped { IfErr result (λ fault. CutsLater spec.none_run (spec.TestsNext (F.opens files.now) how)
        (spec.StopsNext (F.opens files.now) (stream_fault fault) how) sources.now console.old console.new) }
{
    let mut tally = Tally {
        count: 0,
        status: 0,
    };
    for source in sources {
        let now = test_next(files, alloc, how, tally, source, console)?;
        tally = now;
    }
    Ok(tally)
}

/// What stands behind all tests.
fn end_report(alloc: Global, how: TestOptions, tally: Tally) -> Result<Report, AllocError>
    ensures { IfOk result (λ report. report_of report ≡ spec.end_report how tally) }
{
    Ok(Report {
        out: end_in(alloc, how.format, tally.count)?,
        err: Vec::new(alloc),
        status: tally.status,
    })
}

/// Writes it, and returns the exit status.
fn put_end<R: Read, W: Write, E: Write>(
    alloc: Global,
    how: TestOptions,
    tally: Tally,
    console: &mut Console<R, W, E>,
) -> Result<u8, ProgramFault>
    ensures finished { IfOk result (spec.EndsTests how tally console.old console.new) }
    ensures stopped { IfErr result (λ fault. spec.StopsEnd (stream_fault fault) how tally console.old console.new) }
{
    match end_report(alloc, how, tally) {
        Ok(report) => console.put(&report),
        Err(_) => Err(ProgramFault::MEMORY),
    }
}

/// Runs the tests of sources, between what stands before all tests and behind them, and returns the exit status.
#[tactic(auto, unfolding(crate::specs::Testing::StopsTesting))]
pub(crate) fn test_sources<F: Folder, R: Read, W: Write, E: Write>(
    files: &F,
    alloc: Global,
    how: TestOptions,
    sources: &[Source],
    console: &mut Console<R, W, E>,
) -> Result<u8, ProgramFault>
    ensures finished { IfOk result (spec.TestsSources (F.opens files.now) how sources.now console.old console.new) }
    ensures stopped { IfErr result (λ fault. spec.StopsTesting (F.opens files.now) (stream_fault fault) how sources.now console.old console.new) }
{
    console.write(head_in(how.format))?;
    let tally = test_all(files, alloc, how, sources, console)?;
    put_end(alloc, how, tally, console)
}

//! Links over the streams of one session: one that is read, and one that is written.
//!
//! Each says in its type which stream it was given. So whoever it is lent to hands back a link over this stream, and over no other.
//!
//! **A session's links name the stream that they were given in their type.** Over a link of which only its own story is known, a body could serve
//! another stream: a sink for what is written, an invented text for what is read. So `serve_reader` says what it entered by the lines of the reader
//! that it was handed, and `serve_writer` hands the writer back, whose stream got the lines of what its Takes brought. Whoever asked for it closes
//! it.
ghost use Rattle.std.specs.Option.{option_or};
ghost use Rattle.std.specs.Prelude.{◌≡◌, ◌<◌, None, Some, false, true, IfErr, IfOk, OnErr};
ghost use Rattle.neighbour_session.specs.Links as spec;
ghost use Rattle.route_session.specs.Telling.{known};
ghost use Rattle.route_session.specs.LinkTrace.{Rose};

use crate::ends::SessionEnd;
use link_handshake::{Said, read_line};
use message_streams::{MessageReader, MessageWriter, StreamEnd};
use netchange_core::Message;
use route_session::{Got, Link, LinkFault};
use std::io::{Read, Write};
use std::marker::{Brand, Model, PhantomData};
use std::snapshot::Snapshot;
use std::sync::Wait;

/// Counts a failure.
fn fail(failures: &mut u64) -> LinkFault
    ensures rose { Rose (known failures.old) (known failures.new) }
    ensures counted { 0 < failures.new }
{
    *failures = failures.saturating_add(1);
    LinkFault
}

/// Counts a failure at a message.
fn refuse(message: Message, first_refused: &mut Option<Message>, failures: &mut u64) -> LinkFault
    ensures refused { first_refused.new ≡ option_or first_refused.old (Some message) }
    ensures rose { Rose (known failures.old) (known failures.new) }
    ensures counted { 0 < failures.new }
{
    *first_refused = first_refused.or(Some(message));
    fail(failures)
}

/// What a link answers to a message, or to an empty line.
fn got_of(told: Option<Message>) -> Got
    ensures { result ≡ spec.got_of told }
{
    match told {
        Some(message) => Got::Message(message),
        None => Got::Nothing,
    }
}

/// What a line of this number means in session: a message, or that its writer is there. Any other ends the session.
fn in_session(said: Said, line: u64) -> Result<Option<Message>, SessionEnd>
    ensures { result ≡ spec.in_session said line }
{
    match said {
        Said::Message(message) => Ok(Some(message)),
        Said::Alive => Ok(None),
        Said::Greeting(greeting) => Err(SessionEnd::Greeted(greeting)),
        Said::Nothing => Err(SessionEnd::NoMessage(line)),
    }
}

/// The message that the next line says, or nothing at an empty one; or why the session is over.
fn hear_line<I: Read>(input: &mut MessageReader<I>) -> Result<Option<Message>, SessionEnd>
    ensures told { IfOk result (λ told. (input.new.end ≡ None) × spec.ReadsTold told input.old.left input.new.left) }
    ensures over { IfErr result (λ why. input.old.end ≡ None → spec.TakesAfter (Some why) input.old.left input.new) }
{
    match input.next_line() {
        Ok(text) => in_session(read_line(text.as_slice()), input.line()),
        Err(why) => Err(SessionEnd::Read {
            why,
            line: input.line(),
        }),
    }
}

/// What a link answers whose session is over for this reason: that it has ended, where the stream ended after a whole line, and else a failure.
fn answer_of(why: SessionEnd, has_ended: &mut bool, failures: &mut u64) -> Result<Got, LinkFault>
    ensures ended { IfOk result (λ got. (got ≡ Got.Ended) × (has_ended.new ≡ true) × (failures.new ≡ failures.old)) }
    ensures failed { OnErr result ((has_ended.new ≡ has_ended.old) × Rose (known failures.old) (known failures.new)) }
{
    if let SessionEnd::Read {
        why: StreamEnd::Ended,
        ..
    } = why
    {
        *has_ended = true;
        return Ok(Got::Ended);
    }
    Err(fail(failures))
}

/// The reader that a link was given.
pub(crate) trait GivenReader {
    ghost use Rattle.message_streams.specs.Views.{ReaderView};

    ghost reader: { ReaderView };
}

impl GivenReader for Brand {
    ghost use Rattle.neighbour_session.specs.Links.{nobodys_reader};

    ghost reader = { nobodys_reader };
}

/// A link over the stream that a neighbour is read from. A contract sees it as an `InputView`.
///
/// It waits for a line, and answers that no message is there at an empty one. It has ended where the stream ended after a whole line; any
/// other line that is no message, and any other end of the stream, is a failure. It takes no messages.
#[derive(Drop)]
pub(crate) struct InputLink<I: Read, S: GivenReader> {
    input: MessageReader<I>,
    // The reader as it was after the last line that is a message or empty.
    last: Snapshot<MessageReader<I>>,
    over: Option<SessionEnd>,
    has_ended: bool,
    failures: u64,
    is_closed: bool,
    of: PhantomData<S>,
}

impl<I: Read, S: GivenReader> Model for InputLink<I, S> {
    ghost use Rattle.neighbour_session.specs.Links.{InputView, IsInput, input_view};

    ghost Value = { InputView };

    ghost view = { λ l. input_view S.reader l.last.value l.input l.over l.has_ended l.failures l.is_closed };

    ghost invariant = { λ l. IsInput S.reader l.last.value l.input l.over };
}

impl<I: Read + Drop, S: GivenReader> InputLink<I, S> {
    ghost use Rattle.neighbour_session.specs.Links.{ReadsLines, input_view};

    /// A link over this reader.
    pub(crate) fn new(input: MessageReader<I>) -> InputLink<I, S>
        requires { input ≡ S.reader }
        ensures { result ≡ input_view input input input None false 0 false }
    {
        InputLink {
            last: Snapshot::of(&input),
            input,
            over: None,
            has_ended: false,
            failures: 0,
            is_closed: false,
            of: PhantomData,
        }
    }

    /// Why the link hands out no more, once it does not.
    pub(crate) fn over(&self) -> Option<SessionEnd>
        ensures { result ≡ self.now.over }
    {
        self.over
    }

    /// The reader. What the link handed out is what the lines of its stream say.
    pub(crate) fn into_reader(self) -> MessageReader<I>
        ensures { ReadsLines S.reader self.told.handed self.over result }
    {
        let InputLink { input, .. } = self;
        input
    }
}

impl<I: Read, S: GivenReader> Link for InputLink<I, S> {
    ghost trace = { λ l. l.told };

    fn recv<R: Wait>(&mut self, _rt: &R) -> Result<Got, LinkFault> {
        if self.is_closed {
            self.has_ended = true;
            return Ok(Got::Ended);
        }
        if self.over.is_some() {
            return Err(fail(&mut self.failures));
        }
        match hear_line(&mut self.input) {
            Ok(told) => {
                self.last = Snapshot::of(&self.input);
                Ok(got_of(told))
            }
            Err(why) => {
                self.over = Some(why);
                answer_of(why, &mut self.has_ended, &mut self.failures)
            }
        }
    }

    fn send<R: Wait>(&mut self, _rt: &R, _message: Message) -> Result<(), LinkFault> {
        Err(fail(&mut self.failures))
    }

    fn close(&mut self) {
        self.is_closed = true;
    }
}

/// The writer that a link was given.
pub(crate) trait GivenWriter {
    ghost use Rattle.message_streams.specs.Views.{WriterView};

    ghost writer: { WriterView };
}

impl GivenWriter for Brand {
    ghost use Rattle.neighbour_session.specs.Links.{nobodys_writer};

    ghost writer = { nobodys_writer };
}

/// A link over the stream that a neighbour is written to. A contract sees it as an `OutputView`.
///
/// Once a line was not written it writes no more, and each message that it is given is a failure. It hands out no messages.
#[derive(Drop)]
pub(crate) struct OutputLink<O: Write, T: GivenWriter> {
    output: MessageWriter<O>,
    // The writer as it was after the message that was written last.
    last: Snapshot<MessageWriter<O>>,
    first_refused: Option<Message>,
    has_ended: bool,
    failures: u64,
    is_closed: bool,
    of: PhantomData<T>,
}

impl<O: Write, T: GivenWriter> Model for OutputLink<O, T> {
    ghost use Rattle.neighbour_session.specs.Links.{IsOutput, OutputView, output_view};

    ghost Value = { OutputView };

    ghost view = { λ l. output_view T.writer l.last.value l.output l.first_refused l.has_ended l.failures l.is_closed };

    ghost invariant = { λ l. IsOutput T.writer l.last.value l.output l.first_refused l.failures };
}

impl<O: Write + Drop, T: GivenWriter> OutputLink<O, T> {
    ghost use Rattle.neighbour_session.specs.Links.{GotLinesOf, output_view};

    /// A link over this writer.
    pub(crate) fn new(output: MessageWriter<O>) -> OutputLink<O, T>
        requires { output ≡ T.writer }
        ensures { result ≡ output_view output output output None false 0 false }
    {
        OutputLink {
            last: Snapshot::of(&output),
            output,
            first_refused: None,
            has_ended: false,
            failures: 0,
            is_closed: false,
            of: PhantomData,
        }
    }

    /// Writes an empty line. False where it was not written.
    pub(crate) fn write_empty(&mut self) -> bool
        requires { self.old.told.failures ≡ known 0 }
        ensures told { self.new.told ≡ self.old.told }
        ensures unwritten { result ≡ false → self.new.writer.over ≡ true }
    {
        let is_written = self.output.write_text(b"\n").is_ok();
        self.last = Snapshot::of(&self.output);
        is_written
    }

    /// The writer. What its stream got is what the link was given.
    pub(crate) fn into_writer(self) -> MessageWriter<O>
        ensures lines { GotLinesOf T.writer self.told result }
        ensures writer { result ≡ self.writer }
    {
        let OutputLink { output, .. } = self;
        output
    }
}

impl<O: Write + Drop, T: GivenWriter> Link for OutputLink<O, T> {
    ghost trace = { λ l. l.told };

    fn recv<R: Wait>(&mut self, _rt: &R) -> Result<Got, LinkFault> {
        if self.is_closed {
            self.has_ended = true;
            return Ok(Got::Ended);
        }
        Err(fail(&mut self.failures))
    }

    fn send<R: Wait>(&mut self, _rt: &R, message: Message) -> Result<(), LinkFault> {
        if self.is_closed || self.failures > 0 {
            return Err(refuse(message, &mut self.first_refused, &mut self.failures));
        }
        match self.output.write_message(message) {
            Ok(()) => {
                self.last = Snapshot::of(&self.output);
                Ok(())
            }
            Err(_) => Err(refuse(message, &mut self.first_refused, &mut self.failures)),
        }
    }

    fn close(&mut self) {
        self.is_closed = true;
    }
}

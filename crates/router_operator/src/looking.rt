//! Looks at a router that others call: the journal is shown, and nothing is entered.
ghost use Rattle.std.specs.Prelude.{IfOk, OnErr};
ghost use Rattle.std.specs.Io.{StartsWith};
ghost use Rattle.operator_cmds.specs.Replies.{Adds, answered};
ghost use Rattle.operator_cmds.specs.Script.{tables_of};
ghost use Rattle.route_history.specs.Long.{OfHistory};
ghost use Rattle.router_operator.specs.Questions.{status_words};
ghost use Rattle.router_status.specs.Objects.{routes_json};
ghost use Rattle.router_status.specs.Status.{status_view};

use line_protocol::LineReply;
use operator_cmds::{Look, answer_kept, answer_look};
use route_history::LongJournal;
use router_status::{Form, Status, push_routes_object, push_status, push_status_object};
use slot_lock::Observer;
use std::alloc::{AllocError, Global};

/// What is known of the router beside its history, and the form in which it is asked.
#[derive(Drop)]
pub(crate) struct StatusQuery {
    pub(crate) status: Status,
    pub(crate) form: Form,
}

/// What a look asks for.
#[derive(Drop)]
pub(crate) enum Query {
    /// A look at the tables.
    Tables(Look),
    /// The entries from a position on.
    Entries(u64),
    /// What the router is about.
    Status(StatusQuery),
    /// The routes, for a program.
    Routes,
}

/// Answers what a router is about, all of which is said now.
fn answer_status(
    alloc: Global,
    out: &mut Vec<u8>,
    status: &Status,
    form: Form,
) -> Result<LineReply, AllocError>
    ensures ok { IfOk result (Adds (answered (status_words form (status_view status.now))) out.old.items out.new.items) }
    ensures err { OnErr result (StartsWith out.new.items out.old.items) }
{
    match form {
        Form::Text => push_status(out, status)?,
        Form::Json => push_status_object(alloc, out, status)?,
    }
    Ok(LineReply::Answered)
}

impl StatusQuery {
    ghost use Rattle.std.specs.Prelude.{IfOk, OnErr};
    ghost use Rattle.std.specs.Io.{StartsWith};
    ghost use Rattle.operator_cmds.specs.Replies.{Adds};
    ghost use Rattle.route_history.specs.Long.{OfHistory};
    ghost use Rattle.router_operator.specs.Looking.{status_answer};

    /// Answers what the router is about, of which the history says the rest.
    fn answer(
        &mut self,
        alloc: Global,
        out: &mut Vec<u8>,
        journal: &LongJournal,
    ) -> Result<LineReply, AllocError>
        ensures ok { OfHistory journal.now (λ history.
            IfOk result (Adds (status_answer self.old journal.now.first history) out.old.items out.new.items)) }
        ensures err { OnErr result (StartsWith out.new.items out.old.items) }
    {
        self.status.complete(alloc, journal)?;
        answer_status(alloc, out, &self.status, self.form)
    }
}

/// Answers the routes, for a program.
fn answer_routes(
    alloc: Global,
    out: &mut Vec<u8>,
    journal: &LongJournal,
) -> Result<LineReply, AllocError>
    ensures ok { OfHistory journal.now (λ history.
        IfOk result (Adds (answered (routes_json (tables_of history))) out.old.items out.new.items)) }
    ensures err { OnErr result (StartsWith out.new.items out.old.items) }
{
    push_routes_object(alloc, out, journal.tables())?;
    Ok(LineReply::Answered)
}

/// A look, which is answered while the journal is shown.
#[derive(Drop)]
pub(crate) struct Looking {
    pub(crate) alloc: Global,
    /// The number of the line that looks.
    pub(crate) number: u32,
    pub(crate) asked: Query,
    /// What is written so far.
    pub(crate) text: Vec<u8>,
    /// What is answered. Before the look it is nothing, which is told as refused memory.
    pub(crate) reply: Result<LineReply, AllocError>,
}

impl Looking {
    ghost use Rattle.std.specs.Prelude.{IfOk, OnErr};
    ghost use Rattle.std.specs.Io.{StartsWith};
    ghost use Rattle.operator_cmds.specs.Replies.{Adds};
    ghost use Rattle.route_history.specs.Long.{OfHistory};
    ghost use Rattle.router_operator.specs.Looking.{query_answer};

    /// Answers the look, behind what is written so far.
    fn answer(&mut self, journal: &LongJournal) -> Result<LineReply, AllocError>
        ensures ok { OfHistory journal.now (λ history.
            IfOk result (Adds (query_answer self.old.asked self.old.number journal.now.first history) self.old.text.items self.new.text.items)) }
        ensures err { OnErr result (StartsWith self.new.text.items self.old.text.items) }
    {
        match &mut self.asked {
            Query::Tables(look) => {
                answer_look(&mut self.text, journal.tables(), self.number, *look)
            }
            Query::Entries(from) => answer_kept(self.alloc, &mut self.text, journal, *from),
            Query::Status(asked) => asked.answer(self.alloc, &mut self.text, journal),
            Query::Routes => answer_routes(self.alloc, &mut self.text, journal),
        }
    }
}

impl Observer for Looking {
    ghost use Rattle.router_operator.specs.Looking.{Tells};

    ghost sees = { λ before first history after. Tells before first history after };

    fn see(&mut self, journal: &LongJournal) {
        self.reply = self.answer(journal);
    }
}

/// The present session of a node, if it is up.
#[derive(Drop)]
pub(crate) struct FindingSession {
    pub(crate) node: u16,
    pub(crate) session: Option<u32>,
}

impl Observer for FindingSession {
    ghost use Rattle.router_operator.specs.Looking.{Finds};

    ghost sees = { λ before _ history after. Finds before history after };

    fn see(&mut self, journal: &LongJournal) {
        self.session = journal.tables().present_session(self.node);
    }
}

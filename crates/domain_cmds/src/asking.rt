//! Questions about a domain at rest, and the answers to them.
//!
//! **Before any `mark`, `changes` compares with the domain without links**, whose routes are computed then. So a domain that is only set up keeps
//! no table.
ghost use Rattle.std.specs.Prelude.{◌≡◌, ◌<◌, ◌&&◌, ◌++◌, ◌∷◌, [], nat_lt, IfOk, IsTrue, OnErr};
ghost use Rattle.std.specs.Io.{StartsWith};
ghost use Rattle.std.specs.Option.{option_map};
ghost use Rattle.line_protocol.specs.declared.answers.LineReply.TheVariants.{Answered};
ghost use Rattle.operator_cmds.specs.Replies.{Answers};
ghost use Rattle.domain_cmds.specs.Failures.{all_links, all_nodes};
ghost use Rattle.domain_cmds.specs.Script as spec;

use crate::command::Question;
use crate::failure_text::push_failures;
use crate::failures::{link_failures, node_failures};
use crate::fault::DomainStateFault;
use crate::felt::push_felt;
use crate::playing::Playing;
use crate::resting::RestingPlan;
use crate::routes::{Column, all_columns, make_column};
use crate::still::rests_between;
use crate::text::{
    push_changes, push_drawing, push_path, push_reach, push_route, push_settled, push_table,
};
use domain_routes::{Between, Plan};
use line_protocol::LineReply;
use operator_cmds::refuse;
use std::alloc::{AllocError, Global};
use std::sync::Arc;

/// Ends the line of an answer.
fn end_line(out: &mut Vec<u8>) -> Result<LineReply, AllocError>
    ensures ok { IfOk result (λ reply. (out.new.items ≡ out.old.items ++ 10 ∷ []) × (reply ≡ Answered)) }
    ensures err { OnErr result (StartsWith out.new.items out.old.items) }
{
    out.push(b'\n')?;
    Ok(LineReply::Answered)
}

/// Whether both are nodes of the domain.
fn are_nodes(plan: &Plan, u: u16, v: u16) -> bool
    ensures value { result ≡ (nat_lt u plan.now.size && nat_lt v plan.now.size) }
    ensures members { IsTrue result → (u < plan.now.size) × (v < plan.now.size) }
{
    u < plan.size() && v < plan.size()
}

/// Answers `route`: a node's route at rest.
fn answer_route(
    alloc: Global,
    plan: &Plan,
    number: u32,
    u: u16,
    v: u16,
    out: &mut Vec<u8>,
) -> Result<LineReply, AllocError>
    ensures ok { IfOk result (Answers (spec.IsRouteAnswer plan.now number u v) out.old.items out.new.items) }
    ensures err { OnErr result (StartsWith out.new.items out.old.items) }
{
    if !are_nodes(plan, u, v) {
        return refuse(out, DomainStateFault::BadNode.code(), u64::from(number));
    }
    let routes = make_column(alloc, plan, v)?;
    push_route(out, routes.at(plan.size(), u))?;
    end_line(out)
}

/// Answers `path`: the nodes on the way at rest.
fn answer_path(
    alloc: Global,
    plan: &Plan,
    number: u32,
    u: u16,
    v: u16,
    out: &mut Vec<u8>,
) -> Result<LineReply, AllocError>
    ensures ok { IfOk result (Answers (spec.IsPathAnswer plan.now number u v) out.old.items out.new.items) }
    ensures err { OnErr result (StartsWith out.new.items out.old.items) }
{
    if !are_nodes(plan, u, v) {
        return refuse(out, DomainStateFault::BadNode.code(), u64::from(number));
    }
    let routes = make_column(alloc, plan, v)?;
    push_path(out, plan, &routes, u, v)?;
    end_line(out)
}

/// Answers `table`: all routes of a node at rest.
fn answer_table(
    alloc: Global,
    domain: &mut RestingPlan,
    number: u32,
    u: u16,
    out: &mut Vec<u8>,
) -> Result<LineReply, AllocError>
    ensures ok { IfOk result (Answers (spec.IsTableAnswer domain.old number u) out.old.items out.new.items) }
    ensures err { OnErr result (StartsWith out.new.items out.old.items) }
    ensures same { domain.new ≡ domain.old }
{
    let size = domain.size();
    if u >= size {
        return refuse(out, DomainStateFault::BadNode.code(), u64::from(number));
    }
    let all = domain.all_routes(alloc)?;
    push_table(out, size, all.as_slice(), u)?;
    end_line(out)
}

/// Answers `draw`: a picture of the routes to a node at rest.
fn answer_draw(
    alloc: Global,
    plan: &Plan,
    number: u32,
    v: u16,
    out: &mut Vec<u8>,
) -> Result<LineReply, AllocError>
    ensures ok { IfOk result (Answers (spec.IsDrawingAnswer plan.now number v) out.old.items out.new.items) }
    ensures err { OnErr result (StartsWith out.new.items out.old.items) }
{
    if v >= plan.size() {
        return refuse(out, DomainStateFault::BadNode.code(), u64::from(number));
    }
    let routes = make_column(alloc, plan, v)?;
    push_drawing(out, plan, &routes)?;
    end_line(out)
}

/// Answers `reach`: how far the routes at rest go, and after how many phases all of them are right.
fn answer_reach(
    alloc: Global,
    domain: &mut RestingPlan,
    out: &mut Vec<u8>,
) -> Result<LineReply, AllocError>
    ensures ok { IfOk result (Answers (spec.IsReachAnswer domain.old) out.old.items out.new.items) }
    ensures err { OnErr result (StartsWith out.new.items out.old.items) }
    ensures same { domain.new ≡ domain.old }
{
    let size = domain.size();
    let all = domain.all_routes(alloc)?;
    push_reach(out, size, all.as_slice())?;
    end_line(out)
}

/// The routes at rest at the last `mark`. Before any, those of the domain without links.
fn marks(
    alloc: Global,
    plan: &Plan,
    marked: &Option<Arc<Vec<Column>>>,
) -> Result<Arc<Vec<Column>>, AllocError>
    ensures { IfOk result (λ all. spec.AreMarks plan.now (option_map (λ m. m.value.items) marked.now) all.value.items) }
{
    match marked {
        Some(marked) => Ok(Arc::try_clone(marked)?),
        None => {
            // For the proof alone, which needs what its contract says.
            let _nodes = plan.size();
            let prefixes = Vec::from_slice(alloc, plan.prefixes())?;
            let unlinked = Plan::new(alloc, prefixes)?.unwrap();
            Ok(Arc::new(alloc, all_columns(alloc, &unlinked)?)?)
        }
    }
}

/// Answers `changes`: the routes at rest that are not what they were at the last `mark`, and how near distances stand still meanwhile.
fn answer_changes(
    alloc: Global,
    domain: &mut RestingPlan,
    marked: &Option<Arc<Vec<Column>>>,
    since: &Option<Between>,
    out: &mut Vec<u8>,
) -> Result<LineReply, AllocError>
    ensures ok { IfOk result (Answers (spec.IsChangesAnswer domain.old (option_map (λ m. m.value.items) marked.now) since.now) out.old.items out.new.items) }
    ensures err { OnErr result (StartsWith out.new.items out.old.items) }
    ensures same { domain.new ≡ domain.old }
{
    let before = marks(alloc, domain.plan(), marked)?;
    let now = domain.all_routes(alloc)?;
    let rests = rests_between(alloc, since)?;
    push_changes(
        out,
        domain.size(),
        &rests,
        before.as_slice(),
        now.as_slice(),
    )?;
    end_line(out)
}

/// Answers `draw V changes`: a picture of the routes to a node, and of who may feel what was done since the last `mark`.
fn answer_felt(
    alloc: Global,
    domain: &mut RestingPlan,
    since: &Option<Between>,
    number: u32,
    v: u16,
    out: &mut Vec<u8>,
) -> Result<LineReply, AllocError>
    ensures ok { IfOk result (Answers (spec.IsFeltAnswer domain.old since.now number v) out.old.items out.new.items) }
    ensures err { OnErr result (StartsWith out.new.items out.old.items) }
    ensures same { domain.new ≡ domain.old }
{
    if v >= domain.size() {
        return refuse(out, DomainStateFault::BadNode.code(), u64::from(number));
    }
    let now = domain.all_routes(alloc)?;
    let rests = rests_between(alloc, since)?;
    let routes = make_column(alloc, domain.plan(), v)?;
    push_felt(out, domain.plan(), &rests, now.as_slice(), v, &routes)?;
    end_line(out)
}

/// Answers `failures`: what the failure of each link changes, by itself.
fn answer_failures(
    alloc: Global,
    domain: &mut RestingPlan,
    out: &mut Vec<u8>,
) -> Result<LineReply, AllocError>
    ensures ok { IfOk result (Answers (spec.IsFailuresAnswer domain.old (all_links domain.old)) out.old.items out.new.items) }
    ensures err { OnErr result (StartsWith out.new.items out.old.items) }
    ensures same { domain.new ≡ domain.old }
{
    let before = domain.all_routes(alloc)?;
    let found = link_failures(alloc, domain, before.as_slice())?;
    push_failures(out, found.as_slice())?;
    end_line(out)
}

/// Answers `failures nodes`: what the failure of each node changes, by itself.
fn answer_node_failures(
    alloc: Global,
    domain: &mut RestingPlan,
    out: &mut Vec<u8>,
) -> Result<LineReply, AllocError>
    ensures ok { IfOk result (Answers (spec.IsFailuresAnswer domain.old (all_nodes domain.old)) out.old.items out.new.items) }
    ensures err { OnErr result (StartsWith out.new.items out.old.items) }
    ensures same { domain.new ≡ domain.old }
{
    let before = domain.all_routes(alloc)?;
    let found = node_failures(alloc, domain, before.as_slice())?;
    push_failures(out, found.as_slice())?;
    end_line(out)
}

/// Answers `settle`: the routers are played until quiet.
fn answer_settle(
    alloc: Global,
    plan: &Plan,
    playing: &mut Playing,
    number: u32,
    out: &mut Vec<u8>,
) -> Result<LineReply, AllocError>
    ensures ok { IfOk result (Answers (spec.IsSettledAnswer number) out.old.items out.new.items) }
    ensures err { OnErr result (StartsWith out.new.items out.old.items) }
{
    match playing.settle(alloc, plan)? {
        Some(settled) => {
            push_settled(out, settled.rounds, settled.messages)?;
            end_line(out)
        }
        None => refuse(out, DomainStateFault::Unplayable.code(), u64::from(number)),
    }
}

/// Answers a question.
pub(crate) fn answer_question(
    alloc: Global,
    question: Question,
    domain: &mut RestingPlan,
    marked: &Option<Arc<Vec<Column>>>,
    since: &Option<Between>,
    playing: &mut Playing,
    number: u32,
    out: &mut Vec<u8>,
) -> Result<LineReply, AllocError>
    ensures ok { IfOk result (Answers (spec.AnswersQuestion question domain.old (option_map (λ m. m.value.items) marked.now) since.now number) out.old.items out.new.items) }
    ensures err { OnErr result (StartsWith out.new.items out.old.items) }
    ensures same { domain.new ≡ domain.old }
{
    match question {
        Question::Route(u, v) => answer_route(alloc, domain.plan(), number, u, v, out),
        Question::Path(u, v) => answer_path(alloc, domain.plan(), number, u, v, out),
        Question::Table(u) => answer_table(alloc, domain, number, u, out),
        Question::Draw(v) => answer_draw(alloc, domain.plan(), number, v, out),
        Question::DrawChanges(v) => answer_felt(alloc, domain, since, number, v, out),
        Question::Reach => answer_reach(alloc, domain, out),
        Question::Changes => answer_changes(alloc, domain, marked, since, out),
        Question::Failures => answer_failures(alloc, domain, out),
        Question::NodeFailures => answer_node_failures(alloc, domain, out),
        Question::Settle => answer_settle(alloc, domain.plan(), playing, number, out),
    }
}

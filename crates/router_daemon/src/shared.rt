//! What all threads of a router share.
ghost use Rattle.std.specs.Prelude.{◌≡◌, IfOk, map};
ghost use Rattle.router_daemon.specs.Sets.{RouterView-set};
ghost use Rattle.router_daemon.specs.Spares as spec;

use crate::logging::Log;
use crate::signals::{Beginning, Signals};
use crate::spares::push_spares;
use crate::telling::{Event, is_for_people, reason_words, tell_event};
use netchange_core::Opening;
use router_operator::Naming;
use router_options::{DomainMark, LinkFiles};
use slot_lock::Router;
use std::alloc::{AllocError, Global};
use std::io::Write;
use std::marker::PhantomData;
use std::rt::Clock;
use std::sync::{Mutex, Wait};

/// What all threads of a router share: the router, what they know together, and where people are told things.
#[derive(Drop)]
pub(crate) struct Shared<J: Naming, E: Write> {
    /// The router.
    pub(crate) router: Router,
    /// The nodes that have links or may get some, in the order of the links.
    pub(crate) nodes: Vec<u16>,
    /// How threads wake one another.
    pub(crate) signals: Signals,
    /// Where people are told things, one line after another.
    pub(crate) errors: Mutex<E>,
    of: PhantomData<J>,
    pub(crate) ghost is_named: { router ≡ J.router } by { RouterView-set router J.router },
}

impl<J: Naming, E: Write> Shared<J, E> {
    /// Tells people of an event, if it is for them, and the log, if there is one; and notes why a link is closed.
    pub(crate) fn tell<R: Wait + Clock>(&self, rt: &R, alloc: Global, event: Event<'_>) {
        if is_for_people(event) {
            let mut errors = self.errors.lock(rt);
            tell_event(alloc, &mut *errors, event);
        }
        self.signals.log(rt, event);
        if let Event::Closed { node, why } = event {
            self.signals
                .note_ended(rt, node, reason_words(alloc, why).ok());
        }
    }
}

/// The nodes of links.
fn nodes_of(alloc: Global, links: &[LinkFiles]) -> Result<Vec<u16>, AllocError>
    ensures { IfOk result (λ nodes. nodes.items ≡ map (λ link. link.node) links.now) }
{
    let mut nodes = Vec::with_capacity(alloc, links.len())?;
    for link in links {
        nodes.push(link.node)?;
    }
    Ok(nodes)
}

/// The nodes of links, and those that may get some in a domain that a file sets up, if one does.
fn nodes_with(
    alloc: Global,
    opening: &Opening,
    links: &[LinkFiles],
    domain: Option<DomainMark>,
) -> Result<Vec<u16>, AllocError>
    ensures { IfOk result (λ nodes. nodes.items ≡ spec.nodes_with opening.now links.now domain) }
{
    let mut nodes = nodes_of(alloc, links)?;
    if domain.is_some() {
        push_spares(&mut nodes, opening.size(), opening.me(), links)?;
    }
    Ok(nodes)
}

/// What the threads of a router with these links share, when no thread is started.
pub(crate) fn shared_of<J: Naming, E: Write + Drop>(
    alloc: Global,
    router: Router,
    opening: &Opening,
    links: &[LinkFiles],
    domain: Option<DomainMark>,
    beginning: Beginning,
    log: Option<Log>,
    errors: E,
) -> Result<Shared<J, E>, AllocError>
    requires { router ≡ J.router }
    ensures { IfOk result (λ shared. shared.nodes.items ≡ spec.nodes_with opening.now links.now domain) }
{
    let nodes = nodes_with(alloc, opening, links, domain)?;
    let signals = Signals::new(alloc, links, nodes.as_slice(), beginning, log)?;
    Ok(Shared {
        router,
        nodes,
        signals,
        errors: Mutex::new(errors),
        of: PhantomData,
    })
}

//! What is told of a router is read.
ghost use Rattle.std.specs.Prelude.{◌≡◌, IfOk};
ghost use Rattle.route_feed.specs.Looks.{AreRoutes, IsRead};

use netchange_core::{BestRoute, Tables};
use route_history::LongJournal;
use slot_lock::Observer;
use std::alloc::{AllocError, Global};

/// What is read of a router at once, while its callers wait: as little as tells the table.
#[derive(Drop)]
pub(crate) struct FeedSnapshot {
    /// How many entries its history has.
    pub(crate) end: u64,
    /// The best route to each node.
    pub(crate) routes: Vec<BestRoute>,
}

/// The best route to each node.
fn read_routes(alloc: Global, tables: &Tables) -> Result<Vec<BestRoute>, AllocError>
    ensures { IfOk result (λ routes. AreRoutes tables.now routes.items) }
{
    let size = tables.opening().size();
    let mut routes = Vec::with_capacity(alloc, usize::from(size))?;
    for v in 0..size {
        routes.push(tables.route(v))?;
    }
    Ok(routes)
}

/// What is told of a router, as its journal stands.
fn read_look(alloc: Global, journal: &LongJournal) -> Result<FeedSnapshot, AllocError>
    ensures { IfOk result (IsRead journal.now) }
{
    // No history has more entries than a position can tell.
    let Some(end) = journal.first().checked_add(u64::from(journal.kept())) else {
        return Err(AllocError);
    };
    let routes = read_routes(alloc, journal.tables())?;
    Ok(FeedSnapshot { end, routes })
}

/// Who looks.
#[derive(Drop)]
pub(crate) struct FeedReader {
    pub(crate) alloc: Global,
    /// What was read, unless memory was refused.
    pub(crate) look: Option<FeedSnapshot>,
}

impl FeedReader {
    /// What was read, unless memory was refused.
    pub(crate) fn look(self) -> Option<FeedSnapshot>
        ensures { result ≡ self.look }
    {
        let FeedReader { look, .. } = self;
        look
    }
}

impl Observer for FeedReader {
    ghost use Rattle.std.specs.Prelude.{IfSome};
    ghost use Rattle.route_feed.specs.Looks.{IsLook};

    ghost sees = { λ _ _ j after. IfSome after.look (IsLook j) };

    fn see(&mut self, journal: &LongJournal) {
        self.look = None;
        if let Ok(look) = read_look(self.alloc, journal) {
            self.look = Some(look);
        }
    }
}

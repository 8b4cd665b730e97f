//! Laws of batches: what a link may leave out of what it hands over at once.

ghost use Rattle.std.specs.Prelude.{◌≡◌, ℕ, suc, ◌<◌, List, length, take};
ghost use Rattle.netchange_core.specs.declared.message.Message.{Message};
ghost use Rattle.routing_domain.specs.Batches.{newest, sends_newest};
ghost use Rattle.routing_domain.specs.Domain.{Domain, last_told, neighbour};
ghost use Rattle.routing_domain.specs.Runs.{Runs};

/// A node that sends a batch, and leaves out of it each message that a later one of it about the same node follows, makes steps of a run: it
/// sends, and then the link leaves out one message after another. So all that is said of runs holds of such links: a domain stays in order, comes
/// to its one rest, and near routes are right first. And after such a batch each node is known at the distance that the whole batch says.
pub fn batches_are_runs()
    ensures runs { (d : Domain) → (u w max : ℕ) → u < d.size → w < d.size → 0 < length (take max (neighbour d u w).queue) →
        (k : ℕ) × (Runs (suc k) d (sends_newest d u w max)) }
    ensures told { (v before : ℕ) → (batch : List Message) → last_told v before (newest batch) ≡ last_told v before batch }
{}

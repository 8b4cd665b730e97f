//! Who looks at a journal while nobody else can change it.
//!
//! **An observer is shown the journal, and says what it does of each history that the journal may have the end of.** So its clause is one over a
//! whole history, though it sees the end; how many entries are forgotten it is told beside.

use route_history::LongJournal;

/// Somebody who is shown a journal. They have it for the time of the call alone, and cannot change it.
pub trait Observer {
    ghost use Rattle.std.specs.Prelude.{ℕ};
    ghost use Rattle.route_history.specs.JournalView.{JournalView};
    ghost use Rattle.route_history.specs.Long.{OfHistory};

    // The observer may be the later one after it was shown a journal with this history, of which so many entries are forgotten.
    ghost sees: { Self → ℕ → JournalView → Self → Type 0 };

    /// Is shown a journal. Meanwhile no other caller of the router has it.
    fn see(&mut self, journal: &LongJournal)
        ensures { OfHistory journal.now (λ history. sees self.old journal.now.first history self.new) };
}

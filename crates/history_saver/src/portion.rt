//! What is not read of a journal that goes on is read.
ghost use Rattle.std.specs.Prelude.{◌≡◌, ◌+◌, ◌≤◌, IfOk, IfSome};
ghost use Rattle.route_history.specs.Long.{OfHistory};
ghost use Rattle.history_saver.specs.Portions.{IsEndState, IsLeftOut, IsPortion};

use crate::reading::push_entries;
use history_file::write_state;
use route_history::{LARGEST_LIMIT, LongJournal};
use slot_lock::Observer;
use std::alloc::{AllocError, Global};

/// What is read at once.
#[derive(Drop)]
pub(crate) struct Portion {
    /// The lines of the entries.
    pub(crate) lines: Vec<u8>,
    /// How many entries are read with these.
    pub(crate) to: u64,
    /// The state after them, if there are no more and a new segment is due.
    pub(crate) state: Option<Vec<u8>>,
}

/// When a new segment is due.
#[derive(Clone, Copy)]
pub(crate) struct Due {
    /// Where the newest segment begins.
    pub(crate) begun: u64,
    /// How many entries it has then, at least.
    pub(crate) every: u64,
}

/// The state of a journal's tables after so many entries, if there are no more and a new segment is due.
fn read_state(
    alloc: Global,
    journal: &LongJournal,
    to: u64,
    due: Due,
) -> Result<Option<Vec<u8>>, AllocError>
    requires none_missed { journal.now.first ≤ to }
    ensures ended { IfOk result (λ state. OfHistory journal.now (λ h. IfSome state (λ bytes. IsEndState h to bytes.items))) }
    ensures due { IfOk result (λ state. IfSome state (λ _. due.begun + due.every ≤ to)) }
    ensures left_out { IfOk result (λ state. OfHistory journal.now (λ h. IsLeftOut h due.begun due.every to state)) }
{
    let limit = journal.bounds().limit;
    if to < due.begun || to - due.begun < due.every {
        return Ok(None);
    }
    if to - journal.first() != u64::from(journal.kept()) {
        return Ok(None);
    }
    // No router is opened with another limit.
    if limit == 0 || limit > LARGEST_LIMIT {
        return Ok(None);
    }
    let mut bytes = Vec::new(alloc);
    write_state(alloc, &mut bytes, limit, to, journal.tables())?;
    Ok(Some(bytes))
}

/// The next portion of a journal, of which so many entries are read.
fn read_portion(
    alloc: Global,
    journal: &LongJournal,
    read: u64,
    due: Due,
) -> Result<Portion, AllocError>
    requires none_missed { journal.now.first ≤ read }
    ensures { IfOk result (λ p. OfHistory journal.now (λ h. IsPortion h read due.begun due.every p)) }
{
    let mut lines = Vec::new(alloc);
    let to = push_entries(alloc, &mut lines, journal, read)?;
    let state = read_state(alloc, journal, to, due)?;
    Ok(Portion { lines, to, state })
}

/// Who reads a portion.
#[derive(Drop)]
pub(crate) struct PortionReader {
    pub(crate) alloc: Global,
    /// How many entries are read.
    pub(crate) read: u64,
    /// When a new segment is due.
    pub(crate) due: Due,
    /// What was read, unless memory was refused.
    pub(crate) portion: Option<Portion>,
}

impl PortionReader {
    /// What was read, unless memory was refused.
    pub(crate) fn portion(self) -> Option<Portion>
        ensures { result ≡ self.portion }
    {
        let PortionReader { portion, .. } = self;
        portion
    }
}

impl Observer for PortionReader {
    ghost use Rattle.std.specs.Prelude.{◌≤◌, IfSome};
    ghost use Rattle.history_saver.specs.Portions.{IsPortion};

    // Nothing is said where an entry is forgotten that is not read.
    ghost sees = { λ before first j after. first ≤ before.read → IfSome after.portion (IsPortion j before.read before.due.begun before.due.every) };

    fn see(&mut self, journal: &LongJournal) {
        self.portion = None;
        // Who has the right to forget, and forgets what is read alone, does not come to this.
        if journal.first() > self.read {
            return;
        }
        if let Ok(portion) = read_portion(self.alloc, journal, self.read, self.due) {
            self.portion = Some(portion);
        }
    }
}

//! What the files of a folder are worth.
ghost use Rattle.std.specs.Prelude.{◌≡◌, Some};
ghost use Rattle.history_saver.specs.Folders.{FolderView};
ghost use Rattle.history_saver.specs.Segments.{HasSegments, SegmentsView};
ghost use Rattle.history_saver.specs.Steps.{IsAllSaved};
ghost use Rattle.history_saver.specs.Told.{TellHistory, TellUpTo};
ghost use Rattle.route_history.specs.History.{IsLegal};
ghost use Rattle.route_history.specs.JournalView.{JournalView};

/// What a saver has in its folder is what a replay takes: of a legal history the segments are a chain, of which the oldest begins at 0 unless
/// the oldest are removed, and whose entries are those of the history, each once and in order, up to what is saved. A part of a line comes at
/// most behind the last whole line of the newest; once all that is read is saved, there is none.
pub fn segments_tell_the_history()
    ensures up_to { (s : SegmentsView) (j : JournalView) (v : FolderView) → s.folder ≡ Some v → IsLegal j.opening j.entries →
        (has : HasSegments s j) → TellUpTo s.keep j s.saved has.cut v.segments }
    ensures whole { (s : SegmentsView) (j : JournalView) (v : FolderView) → s.folder ≡ Some v → IsLegal j.opening j.entries →
        IsAllSaved s → HasSegments s j → TellHistory s.keep j s.saved v.segments }
{}

//! What a disk in memory was told to do, which only clauses read.
ghost use Rattle.std.specs.Prelude.{◌≡◌, [], ◌∷◌, ◌++◌, length};
ghost use Rattle.sia_edge.specs.Event.{Wrote, Cut, Synced};
ghost use Rattle.sia_edge.specs.EventLog.{start_of, events_of};

use std::snapshot::Snapshot;

/// What a disk held when it was made, and what it was told to do since. None of it is kept at run time, since a snapshot has
/// no bytes.
#[derive(Drop)]
pub(crate) enum EventLog {
    Made {
        bytes: Snapshot<Vec<u8>>,
    },
    Wrote {
        before: Snapshot<EventLog>,
        at: Snapshot<u64>,
        count: Snapshot<u64>,
    },
    Cut {
        before: Snapshot<EventLog>,
        len: Snapshot<u64>,
    },
    Synced {
        before: Snapshot<EventLog>,
        bytes: Snapshot<Vec<u8>>,
    },
}

impl EventLog {
    /// That of a disk that was made with these bytes.
    pub(crate) fn new(bytes: &Vec<u8>) -> EventLog
        ensures start { start_of result ≡ bytes.now.items }
        ensures events { events_of result ≡ [] }
    {
        EventLog::Made {
            bytes: Snapshot::of(bytes),
        }
    }

    /// Notes that so many bytes are written at a place.
    pub(crate) fn note_write(&mut self, at: u64, count: u64)
        ensures start { start_of self.new ≡ start_of self.old }
        ensures events { events_of self.new ≡ events_of self.old ++ Wrote at count ∷ [] }
    {
        *self = EventLog::Wrote {
            before: Snapshot::of(self),
            at: Snapshot::of(&at),
            count: Snapshot::of(&count),
        };
    }

    /// Notes a cut to so many bytes.
    pub(crate) fn note_cut(&mut self, len: u64)
        ensures start { start_of self.new ≡ start_of self.old }
        ensures events { events_of self.new ≡ events_of self.old ++ Cut len ∷ [] }
    {
        *self = EventLog::Cut {
            before: Snapshot::of(self),
            len: Snapshot::of(&len),
        };
    }

    /// Notes a sync, and what it settled.
    pub(crate) fn note_sync(&mut self, bytes: &Vec<u8>)
        ensures start { start_of self.new ≡ start_of self.old }
        ensures events { events_of self.new ≡ events_of self.old ++ Synced bytes.now.items ∷ [] }
    {
        *self = EventLog::Synced {
            before: Snapshot::of(self),
            bytes: Snapshot::of(bytes),
        };
    }
}

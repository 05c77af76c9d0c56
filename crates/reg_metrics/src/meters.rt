// Numbers of what processes have beside connections.
use crate::adapter::AdapterReply;
use reg_meters::{Counter, Gauge, Mark, Seconds};

/// How long a store counts as away after it declined a check, in microseconds, unless it answers
/// before.
const AWAY: u64 = 30_000_000;

/// How long a request may have no answer before the store counts as away, in microseconds.
const PATIENCE: u64 = 30_000_000;

/// How long an answer of the store shows that it can be reached beyond the time to the next check,
/// in microseconds.
const FRESH: u64 = 28_000_000;

/// The results of the batches that a log was asked to keep.
#[derive(Drop)]
pub struct BatchMeters {
    pub kept: Counter,
    /// Nothing of the batch was kept.
    pub declined: Counter,
    /// It isn't known whether the batch is kept, and nothing more is taken.
    pub lost: Counter,
    /// It isn't known now whether the batch is in the log. If it is, it comes later like a batch of
    /// another process.
    pub unknown: Counter,
    /// A batch of another process came first.
    pub overtaken: Counter,
    /// How long it took to keep a batch.
    pub seconds: Seconds,
}

impl BatchMeters {
    /// Makes meters that have counted nothing.
    pub const fn new() -> BatchMeters {
        BatchMeters {
            kept: Counter::new(),
            declined: Counter::new(),
            lost: Counter::new(),
            unknown: Counter::new(),
            overtaken: Counter::new(),
            seconds: Seconds::new(),
        }
    }
}

/// The numbers of a log's file.
#[derive(Drop)]
pub struct FileMeters {
    /// How many records were kept.
    pub records: Counter,
    /// How many lines the file has, and how many bytes.
    pub lines: Gauge,
    pub bytes: Gauge,
    /// The offset of the next record.
    pub next: Gauge,
    /// How many compacted files replaced the old file, how many failed to, and how long writing
    /// them took, in microseconds.
    pub renewed: Counter,
    pub not_renewed: Counter,
    pub renewal: Counter,
    /// Whether the last compaction of the file failed.
    pub is_uncompacted: Mark,
}

impl FileMeters {
    /// Makes meters that have counted nothing.
    pub const fn new() -> FileMeters {
        FileMeters {
            records: Counter::new(),
            lines: Gauge::new(),
            bytes: Gauge::new(),
            next: Gauge::new(),
            renewed: Counter::new(),
            not_renewed: Counter::new(),
            renewal: Counter::new(),
            is_uncompacted: Mark::new(),
        }
    }
}

/// The numbers of a followed log's lines.
#[derive(Drop)]
pub struct LineMeters {
    /// How many lines came.
    pub lines: Counter,
    /// When the last one came, in microseconds since 1970.
    pub last: Gauge,
}

impl LineMeters {
    /// Makes meters that have counted nothing.
    pub const fn new() -> LineMeters {
        LineMeters {
            lines: Counter::new(),
            last: Gauge::new(),
        }
    }
}

/// The numbers of a log that other processes write too, as its adapter reports it.
#[derive(Drop)]
pub struct AdapterMeters {
    /// The checks, by the adapter's reply.
    pub kept: Counter,
    pub behind: Counter,
    pub declined: Counter,
    /// When the store last answered a check, in microseconds since 1970.
    pub last: Gauge,
    /// Whether a request waits for an answer, since when, and whether it is a check.
    is_open: Mark,
    asked: Gauge,
    is_check: Mark,
    /// Whether a check was declined and nothing came from the store since, and when.
    is_declined: Mark,
    refused: Gauge,
    /// Whether nodes listen and checks are made by themselves; when the store last answered since
    /// then, and for how long that shows that it can be reached.
    is_joined: Mark,
    answered: Gauge,
    fresh: Gauge,
}

impl AdapterMeters {
    /// Makes meters that have counted nothing.
    pub const fn new() -> AdapterMeters {
        AdapterMeters {
            kept: Counter::new(),
            behind: Counter::new(),
            declined: Counter::new(),
            last: Gauge::new(),
            is_open: Mark::new(),
            asked: Gauge::new(),
            is_check: Mark::new(),
            is_declined: Mark::new(),
            refused: Gauge::new(),
            is_joined: Mark::new(),
            answered: Gauge::new(),
            fresh: Gauge::new(),
        }
    }

    /// Notes that everything that the store had is taken in, and that a check is made if none was
    /// for `every`; for 0 none is made by itself, and the last answer has no age. Both are
    /// microseconds, `now` of one clock.
    pub fn join(&self, now: u64, every: u64) {
        self.answered.set(now);
        self.fresh.set(every.saturating_add(FRESH));
        self.is_joined.set(every > 0);
    }

    /// Notes that a request is made: a check, or one for a batch. `now` is microseconds of one
    /// clock.
    pub fn ask(&self, is_check: bool, now: u64) {
        self.is_check.set(is_check);
        self.asked.set(now);
        self.is_open.set(true);
    }

    /// Notes that a batch of another process came, so the store can be reached.
    pub fn hear_batch(&self) {
        self.is_declined.set(false);
    }

    /// Notes the reply of the adapter. Results of batches are counted in `batches`. `now` is
    /// microseconds of one clock, `date` is microseconds since 1970.
    pub fn hear_reply(&self, batches: &BatchMeters, reply: AdapterReply, now: u64, date: u64) {
        let took = now.saturating_sub(self.asked.value());
        self.is_open.set(false);
        if self.is_check.is_set() {
            self.end_check(reply, now, date);
        } else {
            self.end_batch(batches, reply, took, now);
        }
    }

    fn end_check(&self, reply: AdapterReply, now: u64, date: u64) {
        match reply {
            AdapterReply::Kept => self.kept.add(1),
            AdapterReply::Behind => self.behind.add(1),
            AdapterReply::Declined | AdapterReply::Lost => {
                self.declined.add(1);
                self.refused.set(now);
                self.is_declined.set(true);
                return;
            }
        }
        self.last.set(date);
        self.answer(now);
    }

    /// Notes that the store answered.
    fn answer(&self, now: u64) {
        self.answered.set(now);
        self.is_declined.set(false);
    }

    fn end_batch(&self, batches: &BatchMeters, reply: AdapterReply, took: u64, now: u64) {
        match reply {
            AdapterReply::Kept => batches.kept.add(1),
            AdapterReply::Behind => batches.overtaken.add(1),
            AdapterReply::Declined => {
                batches.declined.add(1);
                return;
            }
            AdapterReply::Lost => {
                batches.unknown.add(1);
                return;
            }
        }
        batches.seconds.count(took);
        self.answer(now);
    }

    /// Returns whether the store counts as away: a request has had no answer for 30 s, or a check
    /// was declined less than 30 s ago and nothing came from the store since, or its last answer is
    /// 28 s older than the next check was to be.
    pub fn is_away(&self, now: u64) -> bool {
        let is_late = self.is_open.is_set() && now.saturating_sub(self.asked.value()) >= PATIENCE;
        let is_refused = self.is_declined.is_set()
            && now.saturating_sub(self.refused.value()) < AWAY;
        let is_stale = self.is_joined.is_set()
            && now.saturating_sub(self.answered.value()) >= self.fresh.value();
        is_late || is_refused || is_stale
    }
}

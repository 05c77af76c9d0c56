// What an adapter replies, and how that is counted.
use crate::form::{Came, Form, try_lines};
use reg_metrics::{AdapterMeters, AdapterReply, BatchMeters};
use std::alloc::Global;
use test_tools::{CaseError, Made, Said, Tally, cut, number_of, paragraphs_of};

fn reply_in(word: &str) -> Said<AdapterReply> {
    match word {
        "kept" => Ok(AdapterReply::Kept),
        "behind" => Ok(AdapterReply::Behind),
        "declined" => Ok(AdapterReply::Declined),
        "lost" => Ok(AdapterReply::Lost),
        _ => Err(CaseError::NotUnderstood),
    }
}

/// So many seconds, in microseconds.
fn moment_in(text: &str) -> Said<u64> {
    Ok(number_of(text)?.saturating_mul(1_000_000))
}

/// The numbers of an adapter, and those of batches.
#[derive(Drop)]
struct Replies {
    adapter: AdapterMeters,
    batches: BatchMeters,
}

impl Replies {
    /// Asks for a check or for a batch, and hears an answer 100 microseconds later.
    fn exchange(&self, is_check: bool, told: &str) -> Said<()> {
        let (second, word) = cut(told);
        let (now, reply) = (moment_in(second)?, reply_in(word)?);
        self.adapter.ask(is_check, now);
        self.adapter
            .hear_reply(&self.batches, reply, now.saturating_add(100), 7);
        Ok(())
    }

    /// Hears an answer at a second, which is so many microseconds since 1970.
    fn hear(&self, told: &str) -> Said<()> {
        let (second, rest) = cut(told);
        let (date, word) = cut(rest);
        let (now, date, reply) = (moment_in(second)?, number_of(date)?, reply_in(word)?);
        self.adapter.hear_reply(&self.batches, reply, now, date);
        Ok(())
    }

    fn batch_counts(&self, alloc: Global) -> Made<String> {
        let it = &self.batches;
        let (kept, overtaken) = (it.kept.count(), it.overtaken.count());
        let (declined, lost) = (it.declined.count(), it.lost.count());
        let (unknown, took) = (it.unknown.count(), it.seconds.sum());
        format!(in alloc;
            "kept {kept}, overtaken {overtaken}, declined {declined}, lost {lost}, unknown {unknown}, took {took}"
        )
    }

    fn check_counts(&self, alloc: Global) -> Made<String> {
        let it = &self.adapter;
        let (kept, behind, declined) = (it.kept.count(), it.behind.count(), it.declined.count());
        format!(in alloc; "kept {kept}, behind {behind}, declined {declined}")
    }
}

impl Form for Replies {
    fn came(&mut self, alloc: Global, asked: &str) -> Came {
        let (command, rest) = cut(asked);
        match command {
            "batch" => self.exchange(false, rest)?,
            "check" => self.exchange(true, rest)?,
            "ask" => self.adapter.ask(false, moment_in(rest)?),
            "hear" => self.hear(rest)?,
            "told" => self.adapter.hear_batch(),
            "join" => {
                let (second, every) = cut(rest);
                self.adapter.join(moment_in(second)?, moment_in(every)?);
            }
            "batches" => return Ok(self.batch_counts(alloc)?),
            "checks" => return Ok(self.check_counts(alloc)?),
            "last" => return Ok(format!(in alloc; "{}", self.adapter.last.value())?),
            "away" => return Ok(format!(in alloc; "{}", self.adapter.is_away(moment_in(rest)?))?),
            _ => return Err(CaseError::NotUnderstood),
        }
        Ok(String::new(alloc))
    }
}

/// Tries each paragraph, from new numbers on.
pub(crate) fn try_replies(tally: &mut Tally, text: &str) -> Made<()> {
    for paragraph in &paragraphs_of(tally.alloc, text)? {
        tally.begin(paragraph)?;
        let mut replies = Replies {
            adapter: AdapterMeters::new(),
            batches: BatchMeters::new(),
        };
        try_lines(tally, paragraph, &mut replies)?;
    }
    Ok(())
}

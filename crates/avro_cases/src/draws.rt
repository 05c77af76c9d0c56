// Pairs of schemas that are drawn, of which both searches must say the same.
use crate::draft::Draft;
use crate::pairs::pair_answer;
use crate::{Answer, Done};
use std::alloc::Global;

fn number_of(digits: &str) -> usize {
    digits.parse::<usize>().unwrap_or(0)
}

/// What the searches say of the next pair of that kind and of those sizes.
fn verdict(alloc: Global, draft: &mut Draft, kind: &str, sizes: (usize, usize)) -> Answer {
    draft.next(kind, sizes, false)?;
    let writer = String::from_str(alloc, draft.as_str())?;
    draft.next(kind, sizes, true)?;
    pair_answer(alloc, "pairs", (draft.as_str(), writer.as_str()), "")
}

/// How many pairs there were of which both searches say the same, and what is said of the others.
#[derive(Drop)]
struct Count {
    alike: u64,
    others: String,
}

impl Count {
    /// Tries the pairs `COUNT of SIZE` or `COUNT of SIZE and SIZE`.
    fn add(&mut self, alloc: Global, draft: &mut Draft, kind: &str, pairs: &str) -> Done {
        let (count, sizes) = pairs.split_once(" of ").unwrap_or((pairs, ""));
        let (size, other) = sizes.split_once(" and ").unwrap_or((sizes, "0"));
        for _ in 0..number_of(count) {
            let verdict = verdict(alloc, draft, kind, (number_of(size), number_of(other)))?;
            if verdict.as_str() == "compatible" || verdict.as_str().starts_with("/") {
                self.alike = self.alike.saturating_add(1);
            } else {
                write!(self.others, ", {}", verdict.as_str())?;
            }
        }
        Ok(())
    }
}

/// Of how many pairs `KIND SEED: COUNT of SIZES, COUNT of SIZES` both searches say the same.
pub(crate) fn draws_answer(alloc: Global, asked: &str) -> Answer {
    let (head, all) = asked.split_once(": ").unwrap_or((asked, ""));
    let (kind, seed) = head.split_once(' ').unwrap_or((head, ""));
    let Ok(seed) = seed.parse::<u64>() else {
        return String::from_str(alloc, "no seed");
    };
    let mut draft = Draft::new(alloc, seed);
    let mut count = Count {
        alike: 0,
        others: String::new(alloc),
    };
    for pairs in all.split(", ") {
        count.add(alloc, &mut draft, kind, pairs)?;
    }
    format!(in alloc; "{} alike{}", count.alike, count.others.as_str())
}

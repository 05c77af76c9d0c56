// What a log holds, and what keeps it from being served.
ghost use Rattle.std.specs.Prelude.{◌≡◌, ◌==◌, ◌++◌, ℕ, List, Ok, IfErr, IfOk, OnOk, length, string_bytes};
ghost use Rattle.std.specs.List.{flat_map};
ghost use Rattle.reg_fold.specs.reg_records.Log.{IsLogOf, LogText, log_of};
ghost use Rattle.reg_fold.specs.reg_records.declared.record.Read.{Read};
ghost use Rattle.reg_journal.specs.Found.{HasFault};
ghost use Rattle.reg_inspection.specs.Inspection.{IsInspectionOf};
ghost use Rattle.reg_inspection.specs.Foreign.{foreign_tally};
ghost use Rattle.reg_inspection.specs.Report.{counts_text, due_line, foreign_line, keytype_line, lines_text, obstacle_line, report_text, versions_text};

use crate::counts::{Counts, counts_of, mark_due};
use crate::foreign::foreign_in;
use crate::ids::ids_of;
use crate::obstacle::{Obstacle, lasts_of, obstacles_in};
use reg_compaction::unmarked_id;
use reg_fold::base_text::Text;
use reg_fold::reg_records::{Device, Log, LogError, quoted, read_log};
use std::alloc::{AllocError, Global};
use std::collections::BTreeMap;

/// The inspection of a log: what it holds, and what keeps it from being served.
#[derive(Debug, Drop)]
pub struct Inspection {
    pub counts: Counts,
    /// The id of the mark of ids (a record of the highest id ever given) that is due; `None` if
    /// none is.
    pub due: Option<u32>,
    /// The number of foreign lines (of kinds unknown here) of each keytype; `None` is the key of
    /// those without one.
    pub foreign: BTreeMap<Option<Text>, u64>,
    pub obstacles: Vec<Obstacle>,
}

impl Inspection {
    /// Returns its text, a line for each fact: the counts as `NAME: NUMBER`, the mark of ids that
    /// is due, the foreign lines by keytype, and the obstacles, those of versions with their
    /// causes. The only error is out of memory.
    pub fn report(&self, alloc: Global) -> Result<String, AllocError>
        ensures { IfOk result (λ text. string_bytes text ≡ report_text self.now.counts self.now.due self.now.foreign.entries self.now.obstacles.items) }
    {
        let mut text = counts_text(alloc, &self.counts)?;
        text.push_str(due_line(alloc, self.due)?.as_str())?;
        push_foreign(alloc, &mut text, &self.foreign)?;
        push_lines(alloc, &mut text, &self.obstacles)?;
        Ok(text)
    }

    /// Returns whether nothing keeps the log from being served.
    pub fn is_servable(&self) -> bool
        ensures { result ≡ (length self.now.obstacles.items == 0) }
    {
        self.obstacles.is_empty()
    }
}

/// Inspects a log: reads it, and returns what it holds and what keeps it from being served. What
/// follows the log's empty line is left out. Errors: the first line with a fault, or out of memory.
pub fn inspected(alloc: Global, text: &[u8]) -> Result<Inspection, LogError>
    ensures inspected { IfOk result (λ found. (log : LogText) × (log_of text.now ≡ Ok log) × IsInspectionOf text.now log.floor log.reads found) }
    ensures fault { IfErr result (HasFault text.now) }
{
    let log = read_log(alloc, &mut Device::new(text))?;
    let foreign = foreign_in(alloc, text, &log)?;
    Ok(inspection_of(alloc, &log, foreign)?)
}

/// Inspects a log that was read and has those foreign lines.
fn inspection_of(
    alloc: Global,
    log: &Log,
    foreign: BTreeMap<Option<Text>, u64>,
) -> Result<Inspection, AllocError>
    ensures { (text : List ℕ) (floor : ℕ) (read : List Read) → IsLogOf floor read log.now → foreign.entries ≡ foreign_tally text
        → IfOk result (IsInspectionOf text floor read) }
{
    let (last, registry) = lasts_of(alloc, &log.records)?;
    let entries = registry.entries()?;
    let ids = ids_of(alloc, &entries)?;
    let unmarked = unmarked_id(alloc, &log.records)?;
    Ok(Inspection {
        counts: counts_of(log, &registry, &entries, &ids)?,
        due: mark_due(unmarked, &registry),
        foreign,
        obstacles: obstacles_in(alloc, &last, &registry, &ids, log.next)?,
    })
}

fn counts_text(alloc: Global, counts: &Counts) -> Result<String, AllocError>
    ensures { IfOk result (λ text. string_bytes text ≡ counts_text counts.now) }
{
    let mut text = lines_text(
        alloc,
        counts.records,
        counts.foreign,
        counts.floor,
        counts.next,
    )?;
    let versions = versions_text(
        alloc,
        counts.subjects,
        counts.live,
        counts.deleted,
        counts.ids,
    )?;
    text.push_str(versions.as_str())?;
    Ok(text)
}

fn lines_text(
    alloc: Global,
    records: u64,
    foreign: u64,
    floor: u64,
    next: u64,
) -> Result<String, AllocError>
    ensures { IfOk result (λ text. string_bytes text ≡ lines_text records foreign floor next) }
{
    format!(in alloc;
        "records: {records}\nforeign lines: {foreign}\nfloor: {floor}\nnext offset: {next}\n"
    )
}

fn versions_text(
    alloc: Global,
    subjects: u64,
    live: u64,
    deleted: u64,
    ids: u64,
) -> Result<String, AllocError>
    ensures { IfOk result (λ text. string_bytes text ≡ versions_text subjects live deleted ids) }
{
    format!(in alloc;
        "subjects: {subjects}\nlive versions: {live}\nsoft-deleted versions: {deleted}\nids: {ids}\n"
    )
}

fn due_line(alloc: Global, due: Option<u32>) -> Result<String, AllocError>
    ensures { IfOk result (λ text. string_bytes text ≡ due_line due) }
{
    match due {
        Some(id) => format!(in alloc; "mark of ids due: {id}\n"),
        None => Ok(String::new(alloc)),
    }
}

fn push_foreign(
    alloc: Global,
    text: &mut String,
    foreign: &BTreeMap<Option<Text>, u64>,
) -> Result<(), AllocError>
    ensures { OnOk result (string_bytes text.new ≡ string_bytes text.old ++ flat_map foreign_line foreign.now.entries) }
{
    for (keytype, count) in foreign {
        let line = keytype_line(alloc, keytype, *count)?;
        text.push_str(line.as_str())?;
    }
    Ok(())
}

fn keytype_line(alloc: Global, keytype: &Option<Text>, count: u64) -> Result<String, AllocError>
    ensures { IfOk result (λ line. string_bytes line ≡ keytype_line keytype.now count) }
{
    match keytype {
        Some(keytype) => {
            let keytype = quoted(alloc, keytype.as_str())?;
            format!(in alloc; "foreign lines of keytype {keytype}: {count}\n")
        }
        None => format!(in alloc; "foreign lines without a keytype: {count}\n"),
    }
}

fn push_lines(alloc: Global, text: &mut String, obstacles: &[Obstacle]) -> Result<(), AllocError>
    ensures { OnOk result (string_bytes text.new ≡ string_bytes text.old ++ flat_map obstacle_line obstacles.now) }
{
    for obstacle in obstacles {
        let line = obstacle_line(alloc, obstacle)?;
        text.push_str(line.as_str())?;
    }
    Ok(())
}

fn obstacle_line(alloc: Global, obstacle: &Obstacle) -> Result<String, AllocError>
    ensures { IfOk result (λ line. string_bytes line ≡ obstacle_line obstacle.now) }
{
    let text = obstacle.text(alloc)?;
    let text = text.as_str();
    match obstacle {
        Obstacle::Opaque { cause, .. } => format!(in alloc; "{text}: {cause}\n"),
        Obstacle::TwoSchemas(_) | Obstacle::NumbersUsedUp => format!(in alloc; "{text}\n"),
    }
}

// Cases in lines, some of them below the schemas that they ask about.
use crate::draws::draws_answer;
use crate::lists::find_answer;
use crate::nodes::nodes_answer;
use crate::pairs::pair_answer;
use crate::schemas::{default_answer, normal_answer, schema_answer};
use crate::values::{fit_answer, hash_answer, sample_answer, value_answer};
use crate::{Answer, Done};
use std::alloc::Global;
use test_tools::{Tally, numbered_text, paragraphs_of, rows_of};

/// How many schemas stand above the cases of a paragraph.
fn schemas_above(kind: &str) -> usize {
    match kind {
        "trails" | "matches" => 2,
        "pairs" | "counts" | "fits" => 1,
        _ => 0,
    }
}

/// What is said of a text, below those of the schemas above it.
fn answer(alloc: Global, kind: &str, above: (&str, &str), asked: &str) -> Answer {
    match kind {
        "schemas" => schema_answer(alloc, asked),
        "defaults" => default_answer(alloc, asked),
        "normals" => normal_answer(alloc, asked),
        "nodes" => nodes_answer(alloc, asked),
        "samples" => sample_answer(alloc, asked, true),
        "sizes" => sample_answer(alloc, asked, false),
        "hashes" => hash_answer(alloc, asked),
        "values" => value_answer(alloc, asked),
        "fits" => fit_answer(alloc, above.0, asked),
        "finds" => find_answer(alloc, asked),
        "draws" => draws_answer(alloc, asked),
        "pairs" | "counts" => pair_answer(alloc, kind, (above.0, asked), asked),
        _ => pair_answer(alloc, kind, above, asked),
    }
}

/// Tries a case below its schemas.
fn try_case(tally: &mut Tally, kind: &str, above: &[&str], case: &str) -> Done {
    let alloc = tally.alloc;
    let Some((asked, wanted)) = case.split_once(" => ") else {
        return tally.refuse(case);
    };
    let mut shown = String::new(alloc);
    for schema in above {
        writeln!(shown, "{schema}")?;
    }
    shown.push_str(case)?;
    let first = numbered_text(alloc, above.first().copied().unwrap_or(""))?;
    let second = numbered_text(alloc, above.get(1).copied().unwrap_or(""))?;
    let above = (first.as_str(), second.as_str());
    let came = answer(alloc, kind, above, numbered_text(alloc, asked)?.as_str())?;
    let wanted = numbered_text(alloc, wanted)?;
    tally.tell(shown.as_str(), wanted.as_str(), Ok(came))
}

/// Tries the cases of a file of that kind.
pub(crate) fn try_cases(tally: &mut Tally, kind: &str, text: &str) -> Done {
    for paragraph in &paragraphs_of(tally.alloc, text)? {
        tally.begin(paragraph)?;
        let rows = rows_of(tally.alloc, paragraph)?;
        let (above, cases) = rows.split_at(schemas_above(kind).min(rows.len()));
        if cases.is_empty() {
            tally.refuse(paragraph)?;
        }
        for case in cases {
            try_case(tally, kind, above, case)?;
        }
    }
    Ok(())
}

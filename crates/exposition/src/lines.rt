// The lines of a page.
ghost use Rattle.std.specs.Prelude.{◌≡◌, ◌+◌, ◌*◌, ◌<◌, ◌++◌, [], ◌∷◌, IsTrue, OnOk, codes, flat_map, true};
ghost use Rattle.exposition.specs.Lawful.{IsShort, have_names};
ghost use Rattle.exposition.specs.Lines.{label_text, labels_text, line_text, help_of, type_of, sample_of};
ghost use Rattle.exposition.specs.Names.{is_label_name};
ghost use Rattle.exposition.specs.Numbers.{number_text, whole};
ghost use Rattle.exposition.specs.Page.{bound_label, bucket_line};
ghost use Rattle.exposition.specs.Bounds.{bound_text};
ghost use Rattle.exposition.specs.Escapes.{escaped};

use crate::escaping::{push, push_escaped};
use crate::label::LabelPair;
use crate::number::{Number, push_number};
use std::alloc::AllocError;

/// Appends the `# HELP` line of a metric.
pub(crate) fn push_help(out: &mut Vec<u8>, name: &str, help: &str) -> Result<(), AllocError>
    ensures { OnOk result (out.new.items ≡ out.old.items ++ (line_text (help_of name.now help.now) ++ codes "\n")) }
{
    push(out, "# HELP ")?;
    push(out, name)?;
    push(out, " ")?;
    push_escaped(out, false, help)?;
    push(out, "\n")
}

/// Appends the line of a sample. The name is `name` and `suffix` together.
pub(crate) fn push_sample(
    out: &mut Vec<u8>,
    name: &str,
    suffix: &str,
    labels: &[LabelPair],
    number: &Number,
) -> Result<(), AllocError>
    ensures text { OnOk result (out.new.items
        ≡ out.old.items ++ (line_text (sample_of (name.now ++ suffix.now) labels.now number.now) ++ codes "\n")) }
    ensures lawful { OnOk result (IsTrue (have_names labels.now) × IsShort number.now) }
{
    let (units, millionths) = number.parts();
    push(out, name)?;
    push(out, suffix)?;
    push_labels(out, labels)?;
    push_end(out, u128::from(units), millionths)
}

/// Appends the line of a histogram's count.
pub(crate) fn push_count(
    out: &mut Vec<u8>,
    name: &str,
    labels: &[LabelPair],
    count: u128,
) -> Result<(), AllocError>
    ensures { OnOk result (out.new.items
        ≡ out.old.items ++ (line_text (sample_of (name.now ++ codes "_count") labels.now (whole count)) ++ codes "\n")) }
{
    push(out, name)?;
    push(out, "_count")?;
    push_labels(out, labels)?;
    push_end(out, count, 0)
}

/// Appends the line of a bucket with that bound in microseconds; `None` is `+Inf`.
pub(crate) fn push_bucket(
    out: &mut Vec<u8>,
    name: &str,
    labels: &[LabelPair],
    bound: Option<u64>,
    count: u128,
) -> Result<(), AllocError>
    ensures { OnOk result (out.new.items
        ≡ out.old.items ++ (line_text (bucket_line name.now labels.now (bound_text bound) count) ++ codes "\n")) }
{
    push(out, name)?;
    push(out, "_bucket")?;
    push_bucket_labels(out, labels, bound)?;
    push_end(out, count, 0)
}

/// Appends a space, a number and the end of the line.
fn push_end(out: &mut Vec<u8>, units: u128, millionths: u32) -> Result<(), AllocError>
    requires { millionths < 1000000 }
    ensures { OnOk result (out.new.items
        ≡ out.old.items ++ (codes " " ++ (number_text (units * 1000000 + millionths) ++ codes "\n"))) }
{
    push(out, " ")?;
    push_number(out, units, millionths)?;
    push(out, "\n")
}

fn push_labels(out: &mut Vec<u8>, labels: &[LabelPair]) -> Result<(), AllocError>
    ensures text { OnOk result (out.new.items ≡ out.old.items ++ labels_text labels.now) }
    ensures names { OnOk result (IsTrue (have_names labels.now)) }
{
    match labels {
        [] => Ok(()),
        [first, rest @ ..] => {
            push(out, "{")?;
            push_label(out, first)?;
            push_more(out, rest)?;
            push(out, "}")
        }
    }
}

fn push_more(out: &mut Vec<u8>, labels: &[LabelPair]) -> Result<(), AllocError>
    ensures text { OnOk result (out.new.items ≡ out.old.items ++ flat_map (λ l. 44 ∷ label_text l) labels.now) }
    ensures names { OnOk result (IsTrue (have_names labels.now)) }
{
    for label in labels {
        push_after_comma(out, label)?;
    }
    Ok(())
}

fn push_after_comma(out: &mut Vec<u8>, label: &LabelPair) -> Result<(), AllocError>
    ensures text { OnOk result (out.new.items ≡ out.old.items ++ (44 ∷ label_text label.now)) }
    ensures name { OnOk result (IsTrue (is_label_name label.now.name)) }
{
    push(out, ",")?;
    push_label(out, label)
}

fn push_label(out: &mut Vec<u8>, label: &LabelPair) -> Result<(), AllocError>
    ensures text { OnOk result (out.new.items ≡ out.old.items ++ label_text label.now) }
    ensures name { OnOk result (IsTrue (is_label_name label.now.name)) }
{
    push(out, label.name.as_str())?;
    push(out, "=\"")?;
    push_escaped(out, true, label.value.as_str())?;
    push(out, "\"")
}

/// Appends the labels of a bucket; its bound (`le`) is the last.
fn push_bucket_labels(
    out: &mut Vec<u8>,
    labels: &[LabelPair],
    bound: Option<u64>,
) -> Result<(), AllocError>
    ensures { OnOk result (out.new.items ≡ out.old.items ++ labels_text (labels.now ++ (bound_label (bound_text bound) ∷ []))) }
{
    push(out, "{")?;
    push_before_commas(out, labels)?;
    push(out, "le=\"")?;
    push_bound(out, bound)?;
    push(out, "\"}")
}

fn push_before_commas(out: &mut Vec<u8>, labels: &[LabelPair]) -> Result<(), AllocError>
    ensures { OnOk result (out.new.items ≡ out.old.items ++ flat_map (λ l. label_text l ++ (44 ∷ [])) labels.now) }
{
    for label in labels {
        push_before_comma(out, label)?;
    }
    Ok(())
}

fn push_before_comma(out: &mut Vec<u8>, label: &LabelPair) -> Result<(), AllocError>
    ensures { OnOk result (out.new.items ≡ out.old.items ++ (label_text label.now ++ (44 ∷ []))) }
{
    push_label(out, label)?;
    push(out, ",")
}

/// Appends a bound in quotes, in seconds. Nothing in it has to be escaped.
#[tactic(auto, using(crate::proofs::Numbers::number_divided, crate::proofs::Numbers::escaped_number))]
fn push_bound(out: &mut Vec<u8>, bound: Option<u64>) -> Result<(), AllocError>
    ensures { OnOk result (out.new.items ≡ out.old.items ++ escaped true (bound_text bound)) }
{
    match bound {
        Some(bound) => push_number(
            out,
            u128::from(bound / 1_000_000),
            (bound % 1_000_000) as u32,
        ),
        None => push(out, "+Inf"),
    }
}

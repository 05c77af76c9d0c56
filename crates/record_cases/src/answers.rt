// What is asked of a registry, and its answers.
use reg_fold::{Entry, Registry};
use test_tools::Made;

fn push_number(told: &mut String, number: Option<u64>) -> Made<()> {
    match number {
        Some(number) => write!(told, "{number}"),
        None => told.push_str("none"),
    }
}

fn push_small(told: &mut String, number: Option<u32>) -> Made<()> {
    push_number(told, number.map(u64::from))
}

fn push_versions(told: &mut String, entries: &[&Entry]) -> Made<()> {
    if entries.is_empty() {
        return told.push_str("none");
    }
    let mut space = "";
    for entry in entries {
        write!(told, "{space}{}", entry.version)?;
        space = " ";
    }
    Ok(())
}

/// Adds the offset and the text of what an id names, and whether it is soft.
fn push_named(told: &mut String, entry: Option<&Entry>) -> Made<()> {
    let Some(entry) = entry else {
        return told.push_str("none");
    };
    let mark = if entry.soft { " soft" } else { "" };
    write!(told, "{} {}{mark}", entry.offset, entry.text.as_str())
}

/// Adds the answer to a question that names nothing.
fn push_plain(told: &mut String, registry: &Registry, asked: &str) -> Made<()> {
    match asked {
        "versions" => push_versions(told, &registry.entries()?),
        "greatest-id" => push_small(told, registry.greatest_id()),
        "mark" => push_small(told, Some(registry.mark())),
        "last-id" => push_small(told, Some(registry.last_id())),
        "two-schemas" => push_small(told, registry.two_schemas()),
        "opaque" => push_number(told, registry.opaque()),
        "closed" => write!(told, "{}", registry.is_closed()),
        "level" => told.push_str(registry.level(None).as_str()),
        _ => told.push_str("not understood"),
    }
}

/// Adds the answer to a question.
pub(crate) fn push_answer(told: &mut String, registry: &Registry, asked: &str) -> Made<()> {
    let Some((word, name)) = asked.split_once(' ') else {
        return push_plain(told, registry, asked);
    };
    match (word, name.parse::<u32>()) {
        ("named", Ok(id)) => push_named(told, registry.by_id(id)),
        ("live", _) => push_versions(told, &registry.live(name)?),
        ("greatest-version", _) => push_small(told, registry.greatest_version(name)),
        ("id-of", _) => push_small(told, registry.id_of(name)?),
        ("level", _) => told.push_str(registry.level(Some(name)).as_str()),
        _ => told.push_str("not understood"),
    }
}

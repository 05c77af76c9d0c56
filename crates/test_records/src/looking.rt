// What is fetched of a subject's live versions, beside plain programs, which go through all of them.
use reg_fold::{Entry, Registry};
use reg_level_names::Level;
use reg_levels::looked_at;
use reg_records::{Device, read_log};
use reg_rules::{live_import, live_looked_at, live_schema};
use std::alloc::Global;
use std::test::Fail;
use test_tools::{Made, log_text, parted};

// Of s the versions 3 and 4 are live, and of t both.
const LOG: &str =
    "S 1 s 1 1 string; S 2 s 2 2 int; D 3 s 2; S 4 s 3 1 string; S 5 s 4 3 long; X 6 s 5 4 bytes; S 7 t 1 5 float; S 8 t 2 6 string";

static LEVELS: [Level; 7] = [
    Level::None,
    Level::Backward,
    Level::BackwardTransitive,
    Level::Forward,
    Level::ForwardTransitive,
    Level::Full,
    Level::FullTransitive,
];

static NORMALS: [&str; 6] = [
    r#""string""#,
    r#""int""#,
    r#""long""#,
    r#""bytes""#,
    r#""float""#,
    r#""double""#,
];

/// Whether these are the same entries.
fn are_same(plain: &[&Entry], found: &[&Entry]) -> bool {
    let mut pairs = plain.iter().zip(found);
    plain.len() == found.len() && pairs.all(|(one, other)| **one == **other)
}

/// Of entries that stand by version the last with that normal text, and, if one is given, that id.
fn last_with(entries: &[&Entry], normal: &str, id: Option<u32>) -> Option<u32> {
    let mut found = None;
    for entry in entries {
        if entry.normal.as_str() == normal && id.unwrap_or(entry.id) == entry.id {
            found = Some(entry.version);
        }
    }
    found
}

/// Whether each level looks at the versions of a subject that the plain program finds.
fn levels_agree(alloc: Global, registry: &Registry, subject: &str) -> Made<bool> {
    let live = registry.live(subject)?;
    for level in &LEVELS {
        let found = live_looked_at(alloc, registry, subject, *level)?;
        if !are_same(looked_at(*level, &live), &found) {
            return Ok(false);
        }
    }
    Ok(true)
}

/// Whether each schema is found live in a subject, with the id 1 too, where the plain program finds it.
fn schemas_agree(registry: &Registry, subject: &str) -> Made<bool> {
    let live = registry.live(subject)?;
    for normal in &NORMALS {
        let schema = live_schema(registry, subject, normal)?.map(|entry| entry.version);
        let import = live_import(registry, subject, 1, normal)?.map(|entry| entry.version);
        let plain = (
            last_with(&live, normal, None),
            last_with(&live, normal, Some(1)),
        );
        if (schema, import) != plain {
            return Ok(false);
        }
    }
    Ok(true)
}

#[test]
fn what_is_fetched_is_what_is_looked_at(rt: HostRuntime) -> Result<(), Fail> {
    let alloc = rt.alloc();
    let text = log_text(alloc, &parted(alloc, LOG)?)?;
    let log = read_log(alloc, &mut Device::new(text.as_bytes()))?;
    let mut registry = Registry::empty(alloc);
    registry.apply_all(&log.records)?;
    for subject in ["s", "t", "u"] {
        assert!(rt; levels_agree(alloc, &registry, subject)?, "{subject}");
        assert!(rt; schemas_agree(&registry, subject)?, "{subject}");
    }
    Ok(())
}

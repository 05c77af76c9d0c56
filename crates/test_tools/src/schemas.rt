// Schemas that are large or deep.
use crate::tally::Made;
use std::alloc::Global;

/// A record without fields, inside as many records as that, each of which has two fields of the
/// one inside it: 2^(count+1)-1 parts.
pub fn doubling(alloc: Global, count: usize) -> Made<String> {
    let mut text = String::from_str(alloc, r#"{"type":"record","name":"R0","fields":[]}"#)?;
    for k in 0..count {
        let outside = format!(in alloc; "{}", k + 1)?;
        text = format!(in alloc;
            r#"{{"type":"record","name":"R{}","fields":[{{"name":"a","type":{}}},{{"name":"b","type":"R{k}"}}]}}"#,
            outside.as_str(),
            text.as_str()
        )?;
    }
    Ok(text)
}

/// A record whose last field is of the last of as many records as that, each with a field of the
/// one before it and the first with an int: count + 2 levels. The records are defined in arrays,
/// which are empty in a sample.
pub fn chain(alloc: Global, count: usize) -> Made<String> {
    let mut text = String::from_str(
        alloc,
        r#"{"type":"record","name":"R","fields":[{"name":"f","type":{"type":"array","items":{"type":"record","name":"R0","fields":[{"name":"a","type":"int"}]}}}"#,
    )?;
    let mut last = String::from_str(alloc, "R0")?;
    for k in 1..count {
        let name = format!(in alloc; "R{k}")?;
        let field = format!(in alloc;
            r#",{{"name":"f{k}","type":{{"type":"array","items":{{"type":"record","name":"{}","fields":[{{"name":"a","type":"{}"}}]}}}}}}"#,
            name.as_str(),
            last.as_str()
        )?;
        text.push_str(field.as_str())?;
        last = name;
    }
    let end = format!(in alloc; r#",{{"name":"last","type":"{}"}}]}}"#, last.as_str())?;
    text.push_str(end.as_str())?;
    Ok(text)
}

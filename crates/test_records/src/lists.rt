// Texts and lists that contracts see as plain ones, and the limits of samples.
use avro_data::{LEVELS_LIMIT, PARTS_LIMIT, SampleError};
use base_text::{Listed, Text};
use named_list::NamedList;
use std::test::Fail;

#[test]
fn a_list_gives_its_vector_back(rt: HostRuntime) -> Result<(), Fail> {
    let listed = Listed::from(vec![in rt.alloc(); 3, 1, 2]?);
    assert_eq!(rt; listed.as_slice(), [3, 1, 2].as_slice());
    assert_eq!(rt; listed.clone()?.as_slice(), [3, 1, 2].as_slice());
    assert_eq!(rt; Vec::from(listed).as_slice(), [3, 1, 2].as_slice());
    Ok(())
}

#[test]
fn a_text_is_compared_by_its_bytes(rt: HostRuntime) -> Result<(), Fail> {
    let small = Text::copy_of(rt.alloc(), "Z")?;
    let large = Text::of_string(String::from_str(rt.alloc(), "a")?)?;
    assert!(rt; small < large);
    let again = large.clone()?;
    assert!(rt; again == large);
    assert_eq!(rt; again.as_str(), "a");
    Ok(())
}

#[test]
fn a_named_list_gives_its_items_back(rt: HostRuntime) -> Result<(), Fail> {
    let names = vec![in rt.alloc();
        Text::copy_of(rt.alloc(), "b")?,
        Text::copy_of(rt.alloc(), "a")?,
    ]?;
    let list = NamedList::of(rt.alloc(), names)?.ok_or("two of one name")?;
    let items = Vec::from(list);
    assert_eq!(rt; items.len(), 2);
    assert_eq!(rt; items[0].as_str(), "b");
    Ok(())
}

#[test]
fn samples_have_these_limits(rt: HostRuntime) -> Result<(), Fail> {
    assert_eq!(rt; (PARTS_LIMIT, LEVELS_LIMIT), (1_048_576, 1_000));
    let alloc = rt.alloc();
    let names = format!(in alloc; "{}, {}", SampleError::TooLarge, SampleError::OutOfMemory)?;
    assert_eq!(rt; names.as_str(), "TooLarge, out of memory");
    Ok(())
}

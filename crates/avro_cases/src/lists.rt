// Lists of either length, whose items are found by name, at texts and at a struct with a name.
use crate::Answer;
use base_text::Text;
use named_list::{Named, NamedList};
use std::alloc::{AllocError, Global};

#[derive(Drop)]
struct Member {
    name: Text,
}

impl Named for Member {
    ghost name = { λ member. member.name };

    fn name(&self) -> &Text {
        &self.name
    }
}

/// The texts of names in quotes, with a comma between two.
fn texts_of(alloc: Global, names: &str) -> Result<Vec<Text>, AllocError> {
    let mut texts = Vec::new(alloc);
    if !names.is_empty() {
        for name in names.split(',') {
            texts.push(Text::copy_of(alloc, name.trim_matches('"'))?)?;
        }
    }
    Ok(texts)
}

fn members_of(alloc: Global, names: &str) -> Result<Vec<Member>, AllocError> {
    texts_of(alloc, names)?
        .into_iter()
        .map(|name| Member { name })
        .collect(alloc)
}

/// The place and the name of the item that is found, or that there is none, or no list.
fn found<T: Named + Drop>(alloc: Global, items: Vec<T>, name: &Text) -> Answer {
    let Some(list) = NamedList::of(alloc, items)? else {
        return String::from_str(alloc, "no list");
    };
    let count = list.as_slice().len();
    match (list.place(name), list.get(name)) {
        (Some(place), Some(item)) => {
            format!(in alloc; "{} at {place} of {count}", item.name().as_str())
        }
        (None, None) => format!(in alloc; "none of {count}"),
        _ => String::from_str(alloc, "a place with no item"),
    }
}

/// What is found of a name in a list of texts, and of members.
pub(crate) fn find_answer(alloc: Global, asked: &str) -> Answer {
    let (name, list) = asked.split_once(" in ").unwrap_or((asked, ""));
    let names = list.trim_start_matches('[').trim_end_matches(']');
    let name = Text::copy_of(alloc, name.trim_matches('"'))?;
    let at_texts = found(alloc, texts_of(alloc, names)?, &name)?;
    let at_members = found(alloc, members_of(alloc, names)?, &name)?;
    if at_texts.as_str() == at_members.as_str() {
        Ok(at_texts)
    } else {
        format!(in alloc; "{at_texts}, and of members {at_members}")
    }
}

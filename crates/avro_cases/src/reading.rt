// Values as the cases write them.
use crate::Done;
use avro_data::Data;
use base_text::Text;
use std::alloc::{AllocError, Global};

/// A list, a map or a record that isn't closed yet.
#[derive(Drop)]
struct Open {
    bracket: char,
    names: Vec<Text>,
    values: Vec<Data>,
    /// The branches round the next value, the outermost first.
    branches: Vec<usize>,
}

/// A value that is being read, and the word that was read last of it.
#[derive(Drop)]
struct Reading {
    alloc: Global,
    open: Vec<Open>,
    word: String,
}

fn closed(alloc: Global, open: Open) -> Result<Data, AllocError> {
    let (names, values) = (open.names, open.values);
    match open.bracket {
        '[' => Ok(Data::List(values)),
        '{' => Ok(Data::Map(names.into_iter().zip(values).collect(alloc)?)),
        _ => Ok(Data::Fields(names.into_iter().zip(values).collect(alloc)?)),
    }
}

/// The value in those branches, of which none is left.
fn wrapped(alloc: Global, branches: &mut Vec<usize>, value: Data) -> Result<Data, AllocError> {
    let mut value = value;
    for _ in 0..branches.len() {
        if let Some(branch) = branches.pop() {
            value = Data::Branch(branch, Box::new(alloc, value)?);
        }
    }
    Ok(value)
}

impl Reading {
    fn begin(&mut self, bracket: char) -> Done {
        self.open.push(Open {
            bracket,
            names: Vec::new(self.alloc),
            values: Vec::new(self.alloc),
            branches: Vec::new(self.alloc),
        })?;
        Ok(())
    }

    fn put(&mut self, value: Data) -> Done {
        if let Some(top) = self.open.last_mut() {
            let value = wrapped(self.alloc, &mut top.branches, value)?;
            top.values.push(value)?;
        }
        Ok(())
    }

    /// Ends a word that is a value of its own, if there is one.
    fn end_word(&mut self) -> Done {
        let value = match self.word.as_str() {
            "" => return Ok(()),
            "leaf" => Data::Leaf,
            "default" => Data::Default,
            symbol => Data::Symbol(Text::copy_of(self.alloc, symbol)?),
        };
        self.word.clear();
        self.put(value)
    }

    fn end_name(&mut self) -> Done {
        let name = Text::copy_of(self.alloc, self.word.as_str())?;
        self.word.clear();
        if let Some(top) = self.open.last_mut() {
            top.names.push(name)?;
        }
        Ok(())
    }

    /// Ends a word that is `#` and the number of a branch.
    fn end_branch(&mut self) -> Done {
        let digits = self.word.as_str().trim_start_matches('#');
        let branch = digits.parse::<usize>().unwrap_or(usize::MAX);
        self.word.clear();
        if let Some(top) = self.open.last_mut() {
            top.branches.push(branch)?;
        }
        Ok(())
    }

    fn end(&mut self) -> Done {
        self.end_word()?;
        match self.open.pop() {
            Some(open) => {
                let value = closed(self.alloc, open)?;
                self.put(value)
            }
            None => Ok(()),
        }
    }

    fn take(&mut self, letter: char) -> Done {
        match letter {
            '[' | '{' | '(' => self.begin(letter),
            ']' | '}' | ')' => self.end(),
            '=' => self.end_name(),
            ' ' => self.end_branch(),
            ',' => self.end_word(),
            _ => self.word.push(letter),
        }
    }

    /// The last of the values that were read.
    fn last(&mut self) -> Option<Data> {
        self.open.last_mut()?.values.pop()
    }
}

/// The value that a text writes. It is that value if its own text is the same.
pub(crate) fn value_of(alloc: Global, text: &str) -> Result<Option<Data>, AllocError> {
    let mut reading = Reading {
        alloc,
        open: Vec::new(alloc),
        word: String::new(alloc),
    };
    reading.begin(' ')?;
    for letter in text.chars() {
        reading.take(letter)?;
    }
    reading.end_word()?;
    Ok(reading.last())
}

// The files of the folder in which a runner stands.
use crate::tally::{Made, Tally};
use std::fs::{self, Files};
use std::io::{self, Print};

/// The names of the files of the folder, in order.
fn file_names<R: Files + AllocGlobal + Clone + Drop>(rt: &R) -> io::Result<Vec<String>> {
    let mut names = Vec::new(rt.alloc());
    for entry in fs::read_dir(rt, ".")? {
        let entry = entry?;
        names.push(String::from_str(rt.alloc(), entry.file_name())?)?;
    }
    names.sort()?;
    Ok(names)
}

/// The kind of the cases of a file: what follows the first full stop of its name, where it is one of the kinds.
fn kind_of<'n>(name: &'n str, kinds: &[&str]) -> Option<&'n str> {
    let (_stem, ending) = name.split_once('.')?;
    for kind in kinds {
        if *kind == ending {
            return Some(ending);
        }
    }
    None
}

/// Tries the files of the folder whose names end in one of the kinds, in order, and prints of each how many cases it holds, and those
/// of them that went otherwise. A file's cases are tried by `try_file`, from its kind and its text.
pub fn print_cases<R, F>(rt: &R, kinds: &[&str], try_file: F) -> io::Result<()>
where
    R: Files + AllocGlobal + Print + Clone + Drop,
    F: Fn(&mut Tally, &str, &str) -> Made<()>,
    requires { F.IsAlwaysCallable try_file }
{
    for name in &file_names(rt)? {
        if let Some(kind) = kind_of(name.as_str(), kinds) {
            let text = fs::read_to_string(rt, name.as_str())?;
            let mut tally = Tally::new(rt.alloc());
            try_file(&mut tally, kind, text.as_str())?;
            let (cases, others) = (tally.cases(), tally.others());
            println!(rt; "{name}: {cases} cases{others}")?;
        }
    }
    Ok(())
}

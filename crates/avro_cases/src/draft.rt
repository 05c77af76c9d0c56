// Schemas that are drawn, whose fields and types often agree.
use crate::Done;
use std::alloc::Global;
use test_tools::Draws;

static TYPES: &str = r#"
    "int" "long" "double" "string" "bytes" ["null","int"] ["null","long"] ["string","int"] ["null","R"] "R" "E" ["F","E","null"]
    {"type":"array","items":"R"} {"type":"array","items":["null","long"]} {"type":"map","values":{"type":"array","items":"int"}}
    [{"type":"map","values":"R"},{"type":"array","items":"int"}]"#;

static SYMBOLS: &str = r#"["A","B","C"] ["C","B","A"] ["A","C"],"default":"A""#;

/// What stands in a union beside its named types.
static UNNAMED: &str = r#"
    ,"long",{"type":"array","items":"double"},"bytes"
    ,"bytes",{"type":"map","values":"long"},"double",{"type":"array","items":"long"}
    ,{"type":"array","items":"int"},"int"
    ,"int","string",{"type":"map","values":"int"}"#;

/// What a record in a union has in its field.
static VALUES: &str = r#""int" "long" ["int","null"] "double""#;

/// What a reader's field of many aliases is of, mostly what reads all that a writer's is of.
static READS: &str = r#""double" "double" "float" "long""#;

static DEFAULTS: &str =
    r#","default":0 ,"default":0 ,"default":1 ,"default":0 ,"default":0 ,"default":2 ,"default":0"#;

const DEFAULT: &str = r#","default":0"#;

/// The text of a schema, as far as it is drawn.
#[derive(Drop)]
pub(crate) struct Draft {
    draws: Draws,
    text: String,
}

/// The text of that place among those between spaces, or an empty one behind them.
fn text_at(texts: &'static str, place: usize) -> &'static str {
    texts.split_whitespace().nth(place).unwrap_or("")
}

impl Draft {
    pub(crate) fn new(alloc: Global, seed: u64) -> Draft {
        Draft {
            draws: Draws::new(seed),
            text: String::new(alloc),
        }
    }

    fn below(&mut self, many: usize) -> usize {
        self.draws.place(many.max(1))
    }

    /// One of so many texts.
    fn one_of(&mut self, texts: &'static str, many: usize) -> &'static str {
        text_at(texts, self.below(many))
    }

    fn put(&mut self, part: &str) -> Done {
        self.text.push_str(part)
    }

    /// A comma, but for the first part of a list.
    fn comma(&mut self) -> Done {
        let is_first = self.text.as_str().ends_with("[");
        self.put(if is_first { "" } else { "," })
    }

    /// A field: the letter and the number of its name, its type, and its other members.
    fn field(&mut self, letter: char, number: usize, of: &str, rest: &str) -> Done {
        self.comma()?;
        self.put(r#"{"name":""#)?;
        write!(self.text, r#"{letter}{number}","type":{of}{rest}}}"#)
    }

    /// A field of which a writer's field is an alias, and not the first.
    fn renamed(&mut self, number: usize, of: &str, rest: &str) -> Done {
        self.field('g', number, of, rest)?;
        self.text.pop();
        write!(self.text, r#","aliases":["z","f{number}"]}}"#)
    }

    /// The front of a record, with its first two fields.
    fn head(&mut self) -> Done {
        let symbols = self.one_of(SYMBOLS, 3);
        let size = if self.below(60) == 0 { "5" } else { "4" };
        self.put(r#"{"type":"record","name":"R","fields":[{"name":"e","type":"#)?;
        self.put(r#"{"type":"enum","name":"E","symbols":"#)?;
        self.put(symbols)?;
        self.put(r#"}},{"name":"x","type":{"type":"fixed","name":"F","size":"#)?;
        self.put(size)?;
        self.put("}}")
    }

    /// A type, mostly the same for the same number.
    fn type_at(&mut self, number: usize) -> &'static str {
        if self.below(150) == 0 {
            return self.one_of(TYPES, 16);
        }
        text_at(TYPES, number % 16)
    }

    /// A record of so many fields.
    fn written(&mut self, fields: usize) -> Done {
        self.head()?;
        for number in 0..fields {
            let of = self.type_at(number);
            self.field('f', number, of, "")?;
        }
        self.put("]}")
    }

    /// A record that reads one of so many fields, a prime number of them: most are there, in some
    /// order, some by an alias, and some others with a default.
    fn reading(&mut self, fields: usize) -> Done {
        self.head()?;
        let many = fields.max(2);
        let step = self.below(many - 1).saturating_add(1);
        let mut number = self.below(many);
        for _ in 0..many {
            let of = self.type_at(number);
            match self.below(40) {
                0..=3 => self.field('f', number, of, DEFAULT)?,
                4..=7 => self.renamed(number, of, "")?,
                8..=11 => self.field('h', number, of, DEFAULT)?,
                12..=13 => {}
                _ => self.field('f', number, of, "")?,
            }
            number = number.saturating_add(step) % many;
        }
        self.put("]}")
    }

    /// Some type without a name of its own, always of the same kind for the same number.
    fn plain_type_at(&mut self, number: usize) -> &'static str {
        if self.below(200) == 0 {
            return r#""boolean""#;
        }
        text_at(TYPES, number % 9)
    }

    /// A record that reads many fields, most of them with a default, and some by an alias.
    fn long(&mut self, fields: usize) -> Done {
        self.put(r#"{"type":"record","name":"R","fields":["#)?;
        for number in 0..fields {
            let of = self.plain_type_at(number);
            match self.below(2000) {
                0 => self.field('f', number, of, "")?,
                1..=200 => self.renamed(number, of, DEFAULT)?,
                _ => self.field('f', number, of, DEFAULT)?,
            }
        }
        self.put("]}")
    }

    /// A union of so many records of a few of so many fields: of those that a long record reads, or
    /// of those that a record of many aliases may know.
    fn union_of(&mut self, many: usize, fields: usize, is_long: bool) -> Done {
        let aliased = fields.saturating_mul(3).saturating_add(7);
        let most = if is_long { fields.max(4) } else { aliased };
        self.put("[")?;
        for number in 0..many {
            self.comma()?;
            self.put(r#"{"type":"record","name":"k"#)?;
            write!(self.text, r#"{number}.R","fields":["#)?;
            let mut place = self.below(most);
            for _ in 0..self.below(if is_long { 4 } else { 7 }) {
                if is_long {
                    let of = self.plain_type_at(place);
                    self.field('f', place, of, "")?;
                    place = place.saturating_add(1).checked_rem(most).unwrap_or(0);
                } else {
                    let is_double = self.below(400) == 0;
                    let of = if is_double { r#""double""# } else { r#""int""# };
                    self.field('f', place, of, "")?;
                    place = place.saturating_add(1).saturating_add(self.below(3));
                }
            }
            self.put("]}")?;
        }
        self.put("]")
    }

    /// A record of so many fields, each with aliases up to so many, some of them twice.
    fn aliased(&mut self, fields: usize, aliases: usize) -> Done {
        self.put(r#"{"type":"record","name":"R","fields":["#)?;
        for number in 0..fields {
            self.comma()?;
            let of = self.one_of(READS, 4);
            let default = self.one_of(DEFAULTS, 8);
            self.put(r#"{"name":"f"#)?;
            write!(self.text, r#"{number}","type":{of}{default},"aliases":["#)?;
            for _ in 0..self.below(aliases) {
                self.comma()?;
                let number = self.below(fields.saturating_mul(3));
                write!(self.text, r#""f{number}""#)?;
            }
            self.put("]}")?;
        }
        self.put("]}")
    }

    /// A record of two unions of so many named types, in namespaces that begin with a letter.
    fn unions(&mut self, letter: char, many: usize) -> Done {
        self.put(r#"{"type":"record","name":"R","fields":[{"name":"u","type":"#)?;
        self.union(letter, 'u', many)?;
        self.put(r#"},{"name":"v","type":"#)?;
        self.union(letter, 'v', many)?;
        self.put("}]}")
    }

    fn union(&mut self, letter: char, field: char, many: usize) -> Done {
        let lasts = (many / 4).saturating_add(1);
        let unnamed = self.below(many);
        self.put(r#"["null""#)?;
        for number in 0..many {
            if number == unnamed {
                let part = self.one_of(UNNAMED, 5);
                self.put(part)?;
            }
            let last = self.below(lasts);
            write!(self.text, r#",{{"name":"{letter}{field}{number}.T{last}""#)?;
            self.shape(last)?;
            if self.below(3) != 0 {
                let number = self.below(many);
                let (last, other) = (self.below(lasts), self.below(lasts));
                write!(
                    self.text,
                    r#","aliases":["T{other}","w{field}{number}.T{last}"]"#
                )?;
            }
            self.put("}")?;
        }
        self.put("]")
    }

    /// The kind of a type, mostly the same for the same number.
    fn shape(&mut self, number: usize) -> Done {
        let noise = if self.below(300) == 0 { 1 } else { 0 };
        match number.saturating_add(noise) % 4 {
            0 => {
                self.put(r#","type":"record","fields":[{"name":"v","type":"#)?;
                let value = self.one_of(VALUES, 4);
                write!(self.text, "{value}}}]")
            }
            1 => self.put(r#","type":"enum","symbols":["A"]"#),
            size => write!(self.text, r#","type":"fixed","size":{size}"#),
        }
    }

    /// Draws the next schema of that kind and of those sizes; of no other kind there is one.
    pub(crate) fn next(&mut self, kind: &str, sizes: (usize, usize), is_reader: bool) -> Done {
        self.text.clear();
        match kind {
            "records" if is_reader => self.reading(sizes.0),
            "records" => self.written(sizes.0),
            "long" if is_reader => self.long(sizes.0),
            "long" => self.union_of(sizes.1, sizes.0, true),
            "unions" => self.unions(if is_reader { 'r' } else { 'w' }, sizes.0),
            "aliases" if is_reader => self.aliased(sizes.0, sizes.1),
            "aliases" => self.union_of(6, sizes.0, false),
            _ => Ok(()),
        }
    }

    /// The schema that was drawn last.
    pub(crate) fn as_str(&self) -> &str {
        self.text.as_str()
    }
}

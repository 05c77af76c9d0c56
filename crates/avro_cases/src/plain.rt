// The plain search for a clash: a list of pairs and an ordered set of them, the way to each as a
// text, and each name looked for one by one.
use crate::nodes::{heading, is_same, kind_of};
use crate::{Answer, Done};
use avro_data::node_at;
use avro_schema::{Field, Node, NodeId, Primitive, Schema};
use base_text::Text;
use std::alloc::{AllocError, Global};
use std::collections::BTreeSet;

/// The pairs of types that were reached, in their order, each with the text of the hops to it.
#[derive(Drop)]
struct Search<'a> {
    alloc: Global,
    r: &'a Schema,
    w: &'a Schema,
    seen: BTreeSet<(usize, usize)>,
    reached: Vec<(String, NodeId, NodeId)>,
}

/// What is wrong with a pair.
type Clash = Result<Option<String>, AllocError>;

/// The text of the verdict, and of the trail where there is one.
pub(crate) fn plain_verdict(alloc: Global, r: &Schema, w: &Schema) -> Answer {
    let mut search = Search {
        alloc,
        r,
        w,
        seen: BTreeSet::new(alloc),
        reached: Vec::new(alloc),
    };
    search.reach(String::new(alloc), r.root(), w.root())?;
    for head in 0..r.node_count().saturating_mul(w.node_count()) {
        if head >= search.reached.len() {
            break;
        }
        if let Some(clash) = search.step(head)? {
            return Ok(clash);
        }
    }
    String::from_str(alloc, "compatible")
}

fn clash(alloc: Global, kind: &str) -> Clash {
    Ok(Some(String::from_str(alloc, kind)?))
}

fn clash_of(alloc: Global, kind: &str, name: &Text) -> Clash {
    Ok(Some(format!(in alloc; "{kind} {}", name.as_str())?))
}

impl Search<'_> {
    /// Adds a pair if it wasn't reached before.
    fn reach(&mut self, way: String, reader: NodeId, writer: NodeId) -> Done {
        if self.seen.insert((reader.index, writer.index))? {
            self.reached.push((way, reader, writer))?;
        }
        Ok(())
    }

    /// The text of the clash of the pair of that number, if it is one; else what it owes is reached.
    fn step(&mut self, head: usize) -> Clash {
        let Some((way, reader, writer)) = self.reached.get(head) else {
            return Ok(None);
        };
        let (way, reader, writer) = (way.clone()?, *reader, *writer);
        let Some(kind) = self.look_up(way.as_str(), reader, writer)? else {
            return Ok(None);
        };
        let hops = if way.is_empty() { "/" } else { way.as_str() };
        Ok(Some(format!(in self.alloc; "{hops}: {kind}")?))
    }

    fn look_up(&mut self, way: &str, i: NodeId, j: NodeId) -> Clash {
        let (r, w) = (self.r, self.w);
        let (Some(reader), Some(writer)) = (node_at(r, i), node_at(w, j)) else {
            return clash(self.alloc, "no such type");
        };
        if let Node::Union(branches) = writer {
            return self.reach_all(way, i, branches.as_slice());
        }
        match reader {
            Node::Union(branches) => self.reach_first(way, branches.as_slice(), j),
            _ => self.look_inside(way, reader, writer),
        }
    }

    /// Reaches each branch of the writer's.
    fn reach_all(&mut self, way: &str, reader: NodeId, branches: &[NodeId]) -> Clash {
        for (k, branch) in branches.iter().enumerate() {
            let way = format!(in self.alloc; "{way}/writer:{k}")?;
            self.reach(way, reader, *branch)?;
        }
        Ok(None)
    }

    /// Reaches the reader's first branch that matches.
    fn reach_first(&mut self, way: &str, branches: &[NodeId], writer: NodeId) -> Clash {
        for (k, branch) in branches.iter().enumerate() {
            if is_match(self.r, *branch, self.w, writer) {
                let way = format!(in self.alloc; "{way}/reader:{k}")?;
                self.reach(way, *branch, writer)?;
                return Ok(None);
            }
        }
        clash(self.alloc, "MISSING_UNION_BRANCH")
    }

    /// Looks up two types that are no unions.
    fn look_inside(&mut self, way: &str, reader: &Node, writer: &Node) -> Clash {
        if let Some((hop, i, j)) = parts(reader, writer) {
            let way = format!(in self.alloc; "{way}/{hop}")?;
            self.reach(way, i, j)?;
            return Ok(None);
        }
        if let Some(kind) = mismatch(reader, writer) {
            return clash(self.alloc, kind);
        }
        match reader {
            Node::Record { fields, .. } => self.reach_fields(way, fields.as_slice(), writer),
            Node::Enum {
                symbols,
                default,
                ..
            } if default.is_none() => { self.symbol_clash(symbols.as_slice(), writer) }
            _ => Ok(None),
        }
    }

    fn reach_fields(&mut self, way: &str, reader: &[Field], writer: &Node) -> Clash {
        let Node::Record { fields: others, .. } = writer else {
            return Ok(None);
        };
        for field in reader {
            let name = field.name.as_str();
            if let Some(other) = partner(field, others.as_slice()) {
                let way = format!(in self.alloc; "{way}/field:{name}")?;
                self.reach(way, field.node, other.node)?;
            } else if field.default.is_none() {
                return clash_of(
                    self.alloc,
                    "READER_FIELD_MISSING_DEFAULT_VALUE",
                    &field.name,
                );
            }
        }
        Ok(None)
    }

    fn symbol_clash(&self, reader: &[Text], writer: &Node) -> Clash {
        let Node::Enum { symbols, .. } = writer else {
            return Ok(None);
        };
        for symbol in symbols.as_slice() {
            if !reader.iter().any(|known| *known == *symbol) {
                return clash_of(self.alloc, "MISSING_ENUM_SYMBOLS", symbol);
            }
        }
        Ok(None)
    }
}

fn partner<'a>(field: &Field, writer: &'a [Field]) -> Option<&'a Field> {
    for other in writer {
        if other.name == field.name {
            return Some(other);
        }
    }
    for alias in field.aliases.as_slice() {
        for other in writer {
            if other.name == *alias {
                return Some(other);
            }
        }
    }
    None
}

/// Whether the reader's type matches the writer's.
fn is_match(r: &Schema, i: NodeId, w: &Schema, j: NodeId) -> bool {
    let mut pair = (i, j);
    for _ in 0..r.node_count().saturating_add(1) {
        let (Some(reader), Some(writer)) = (node_at(r, pair.0), node_at(w, pair.1)) else {
            return false;
        };
        let Some((_hop, a, b)) = parts(reader, writer) else {
            return is_union(reader) || is_union(writer) || mismatch(reader, writer).is_none();
        };
        pair = (a, b);
    }
    false
}

/// What two arrays or two maps are of, and the hop to it.
fn parts(reader: &Node, writer: &Node) -> Option<(&'static str, NodeId, NodeId)> {
    match (reader, writer) {
        (Node::Array(a), Node::Array(b)) => Some(("items", *a, *b)),
        (Node::Map(a), Node::Map(b)) => Some(("values", *a, *b)),
        _ => None,
    }
}

fn is_union(node: &Node) -> bool {
    matches!(node, Node::Union(_))
}

/// Why two types don't match that are no unions, and not both arrays or both maps.
fn mismatch(reader: &Node, writer: &Node) -> Option<&'static str> {
    if !is_one_kind(reader, writer) {
        Some("TYPE_MISMATCH")
    } else if !have_one_name(reader, writer) {
        Some("NAME_MISMATCH")
    } else if !have_one_size(reader, writer) {
        Some("FIXED_SIZE_MISMATCH")
    } else {
        None
    }
}

/// Whether two types are of one kind, or primitives that match.
fn is_one_kind(reader: &Node, writer: &Node) -> bool {
    match (reader, writer) {
        (Node::Primitive(p), Node::Primitive(q)) => is_read_as(*q, *p),
        _ => kind_of(reader) == kind_of(writer),
    }
}

/// Whether the names of two types of one kind match, or they have none.
fn have_one_name(reader: &Node, writer: &Node) -> bool {
    let (Some((name, aliases)), Some((other, _))) = (heading(reader), heading(writer)) else {
        return true;
    };
    name.name == other.name || aliases.iter().any(|alias| is_same(alias, other))
}

fn have_one_size(reader: &Node, writer: &Node) -> bool {
    match (reader, writer) {
        (Node::Fixed { size, .. }, Node::Fixed { size: written, .. }) => *size == *written,
        _ => true,
    }
}

/// Whether a written primitive can be read as another.
fn is_read_as(written: Primitive, read: Primitive) -> bool {
    written == read
        || match written {
            Primitive::Int => matches!(
                read,
                Primitive::Long | Primitive::Float | Primitive::Double
            ),
            Primitive::Long => matches!(read, Primitive::Float | Primitive::Double),
            Primitive::Float => read == Primitive::Double,
            Primitive::Bytes => read == Primitive::String,
            Primitive::String => read == Primitive::Bytes,
            _ => false,
        }
}

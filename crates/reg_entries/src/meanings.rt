// What ids mean: which normal texts the entries of an id have, and which ids have two.
ghost use Rattle.std.specs.Prelude.{◌≡◌, ◌↔◌, ◌+◌, [], ℕ, true, false, cond, OnOk, OnErr};
ghost use Rattle.std.specs.BTreeSet as tree_set;
ghost use Rattle.std.specs.BTreeSet.{contains, keys_between};
ghost use Rattle.std.specs.Ordering.{eq_by_cmp, nat_cmp};
ghost use Rattle.reg_entries.specs.Meanings.{Meaning, meaning_of, meaning_cmp, IsMeant, IsMeaningOf, HasTwo, AreDoubled, RefreshesDoubled, RefreshesMeaning};
ghost use Rattle.reg_entries.specs.Schemas.{Schema};
ghost use Rattle.reg_entries.specs.declared.entry.Entry.{Entry};

use crate::schemas::Schema;
use crate::stored_entry::StoredEntry;
use base_text::Text;
use std::alloc::AllocError;
use std::collections::BTreeSet;
use std::collections::btree_set::Range;
use std::ops::Bound;

/// An id and a normal text of its entries.
pub(crate) type Meaning = (u64, Text);

/// Adds the id and the normal text of an entry. The only error is out of memory; the meanings are
/// then as they were.
pub(crate) fn mean(
    meanings: &mut BTreeSet<Meaning>,
    doubled: &mut BTreeSet<u32>,
    entry: &StoredEntry,
) -> Result<(), AllocError>
    requires { AreDoubled meanings.old doubled.old }
    ensures meant { OnOk result ((k : Meaning) → contains meaning_cmp meanings.new k ≡ cond (eq_by_cmp meaning_cmp (entry.now.id, entry.now.normal) k) true (contains meaning_cmp meanings.old k)) }
    ensures refused { OnErr result ((k : Meaning) → contains meaning_cmp meanings.new k ≡ contains meaning_cmp meanings.old k) }
    ensures doubled { AreDoubled meanings.new doubled.new }
{
    let own = entry.own();
    let id = own.id;
    let meaning = (u64::from(id), own.normal.clone()?);
    doubled.insert(id)?;
    let added = meanings.insert(meaning);
    refresh_doubled(meanings, doubled, id);
    added?;
    Ok(())
}

/// Removes an id with a normal text unless some schema has both.
pub(crate) fn refresh_meaning(
    meanings: &mut BTreeSet<Meaning>,
    doubled: &mut BTreeSet<u32>,
    schemas: &BTreeSet<Schema>,
    normal: Text,
    id: u32,
)
    requires { AreDoubled meanings.old doubled.old }
    ensures refreshed { RefreshesMeaning schemas.now (id, normal) meanings.old meanings.new }
    ensures doubled { AreDoubled meanings.new doubled.new }
{
    let first = (normal, id, (Text::empty(), 0));
    if !is_meant(schemas, &first) {
        let meaning = (u64::from(id), first.0);
        forget_meaning(meanings, doubled, &meaning, id);
    }
}

/// Removes the id and the normal text of a schema, and of another if there is one, unless some
/// schema has both.
pub(crate) fn refresh_both(
    meanings: &mut BTreeSet<Meaning>,
    doubled: &mut BTreeSet<u32>,
    schemas: &BTreeSet<Schema>,
    one: Schema,
    other: Option<Schema>,
)
    requires { AreDoubled meanings.old doubled.old }
    ensures refreshed { (k : Meaning) → (contains meaning_cmp meanings.new k ≡ true) ↔ ((contains meaning_cmp meanings.old k ≡ true) × (IsMeaningOf one other k → IsMeant schemas.now k)) }
    ensures doubled { AreDoubled meanings.new doubled.new }
{
    let (normal, id, _) = one;
    refresh_meaning(meanings, doubled, schemas, normal, id);
    if let Some((normal, id, _)) = other {
        refresh_meaning(meanings, doubled, schemas, normal, id);
    }
}

/// Returns whether some schema has the normal text and the id of `first`, which has the least
/// place.
fn is_meant(schemas: &BTreeSet<Schema>, first: &Schema) -> bool
    requires { first.now.2 ≡ ([], 0) }
    ensures { (result ≡ true) ↔ IsMeant schemas.now (meaning_of first.now) }
{
    match schemas.range(first..).next() {
        Some(found) => found.0 == first.0 && found.1 == first.1,
        None => false,
    }
}

/// Removes an id with a normal text.
fn forget_meaning(
    meanings: &mut BTreeSet<Meaning>,
    doubled: &mut BTreeSet<u32>,
    meaning: &Meaning,
    id: u32,
)
    requires id { meaning.now.0 ≡ id }
    requires doubled { AreDoubled meanings.old doubled.old }
    ensures gone { (k : Meaning) → contains meaning_cmp meanings.new k ≡ cond (eq_by_cmp meaning_cmp meaning.now k) false (contains meaning_cmp meanings.old k) }
    ensures doubled { AreDoubled meanings.new doubled.new }
{
    meanings.remove(meaning);
    refresh_doubled(meanings, doubled, id);
}

/// Removes an id from those with two texts unless it has two.
fn refresh_doubled(meanings: &BTreeSet<Meaning>, doubled: &mut BTreeSet<u32>, id: u32)
    ensures { RefreshesDoubled meanings.now id doubled.old doubled.new }
{
    if !has_two(meanings, id) {
        doubled.remove(&id);
    }
}

/// Returns whether an id has two normal texts.
fn has_two(meanings: &BTreeSet<Meaning>, id: u32) -> bool
    ensures { (result ≡ true) ↔ HasTwo meanings.now id }
{
    let mut texts = texts_of(meanings, id);
    let Some(_) = texts.next() else {
        return false;
    };
    let Some(_) = texts.next() else {
        return false;
    };
    true
}

/// The meanings of an id, in their order.
fn texts_of<'a>(meanings: &'a BTreeSet<Meaning>, id: u32) -> Range<'a, Meaning>
    ensures texts { result ≡ keys_between meaning_cmp (Bound.Included (id, [])) (Bound.Excluded (id + 1, [])) meanings.now }
    ensures ordered { tree_set.IsOrdered meaning_cmp meanings.now }
{
    let id = u64::from(id);
    let first = first_meaning(id);
    let above = first_meaning(id + 1);
    meanings.range((Bound::Included(&first), Bound::Excluded(&above)))
}

/// The least meaning of an id.
fn first_meaning(id: u64) -> Meaning
    ensures { result ≡ (id, []) }
{
    (id, Text::empty())
}

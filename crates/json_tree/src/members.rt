// The members of an object while it is read: in byte order of their names, each name once.
ghost use Rattle.std.specs.Prelude.{◌≡◌, ◌-◌, ◌<◌, ◌≤◌, OnOk, IfOk, length, true, false, MatchOption, slice_get, slice_index_or};
ghost use Rattle.std.specs.Cmp.Lexicographic.{slice_cmp};
ghost use Rattle.std.specs.Ordering.{nat_cmp, is_lt};
ghost use Rattle.std.specs.declared.cmp.Ordering.TheVariants.{Less};
ghost use Rattle.serde_json.specs.Data.{put as with_member};
ghost use Rattle.json_tree.specs.Members.{IsInOrder};
ghost use Rattle.json_tree.specs.View.{Entry, view, members_view};

use crate::tree::Json;
use std::alloc::{AllocError, Global};
use std::collections::BTreeMap;

/// Puts a member in its place by name, usually the last. A member of the same name is replaced.
pub(crate) fn put<'a>(
    members: &mut Vec<(&'a str, Json<'a>)>,
    name: &'a str,
    value: Json<'a>,
) -> Result<(), AllocError>
    requires { IsInOrder (members_view members.old.items) }
    ensures order { OnOk result (IsInOrder (members_view members.new.items)) }
    ensures value { OnOk result (members_view members.new.items
        ≡ with_member name.now (view value.entry) (members_view members.old.items)) }
{
    if is_last(members, name) {
        members.push((name, value))?;
        return Ok(());
    }
    put_in_place(members, name, value)
}

/// Puts a member in its place by name, at any position.
fn put_in_place<'a>(
    members: &mut Vec<(&'a str, Json<'a>)>,
    name: &'a str,
    value: Json<'a>,
) -> Result<(), AllocError>
    requires { IsInOrder (members_view members.old.items) }
    ensures order { OnOk result (IsInOrder (members_view members.new.items)) }
    ensures value { OnOk result (members_view members.new.items
        ≡ with_member name.now (view value.entry) (members_view members.old.items)) }
{
    let place = place_of(members, name);
    if place > 0 && name == members[place - 1].0 {
        members[place - 1] = (name, value);
    } else {
        members.insert(place, (name, value))?;
    }
    Ok(())
}

/// Returns whether the name is greater than the last member's; `true` if there is no member.
pub(crate) fn is_last(members: &[(&str, Json<'_>)], name: &str) -> bool
    ensures { MatchOption (slice_get members.now (length members.now - 1)) (result ≡ true)
        (λ m. result ≡ is_lt (slice_cmp nat_cmp m.0.now name.now)) }
{
    match members.last() {
        Some(member) => member.0 < name,
        None => true,
    }
}

/// Returns the number of members before the first name that is greater than this one. The search
/// starts at the end, since names are often in ascending order.
fn place_of(members: &[(&str, Json<'_>)], name: &str) -> usize
    ensures within { result ≤ length members.now }
    ensures before { (d : Entry) → 0 < result
        → is_lt (slice_cmp nat_cmp name.now (slice_index_or members.now (result - 1) d).0.now) ≡ false }
    ensures after { (d : Entry) → result < length members.now
        → slice_cmp nat_cmp name.now (slice_index_or members.now result d).0.now ≡ Less }
{
    let mut place = members.len();
    while place > 0 && name < members[place - 1].0 {
        place -= 1;
    }
    place
}

/// Collects the members and one more into a map, where inserting doesn't move the others.
pub(crate) fn to_map<'a>(
    alloc: Global,
    members: Vec<(&'a str, Json<'a>)>,
    name: &'a str,
    value: Json<'a>,
) -> Result<BTreeMap<&'a str, Json<'a>>, AllocError>
    requires { IsInOrder (members_view members.items) }
    ensures { IfOk result (λ m. members_view m.entries
        ≡ with_member name.now (view value.entry) (members_view members.entry.items)) }
{
    let mut map = same_map(alloc, members)?;
    drop(map.insert(name, value)?);
    Ok(map)
}

fn same_map<'a>(
    alloc: Global,
    members: Vec<(&'a str, Json<'a>)>,
) -> Result<BTreeMap<&'a str, Json<'a>>, AllocError>
    requires { IsInOrder (members_view members.items) }
    ensures { IfOk result (λ m. members_view m.entries ≡ members_view members.entry.items) }
{
    let mut map = BTreeMap::new(alloc);
    for (name, value) in members {
        drop(map.insert(name, value)?);
    }
    Ok(map)
}

/// Collects the members of a map in their order.
pub(crate) fn to_vec<'a>(
    alloc: Global,
    members: BTreeMap<&'a str, Json<'a>>,
) -> Result<Vec<(&'a str, Json<'a>)>, AllocError>
    ensures { IfOk result (λ v. v.items ≡ members.entry.entries) }
{
    members.into_iter().collect(alloc)
}

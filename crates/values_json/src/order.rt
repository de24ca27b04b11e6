//! The members of the object of a SEQUENCE in the order of their names.

ghost use Rattle.std.specs.Prelude.{◌≡◌, ℕ, length, IfOk, MatchOption, option_map};
ghost use Rattle.serde_json.specs.Data.{Data, Items};
ghost use Rattle.aper_values.specs.Views.{options_view};
ghost use Rattle.json_defs.specs.Named.{Named};
ghost use Rattle.json_defs.specs.shown_defs.Printed.{components_shown};
ghost use Rattle.json_defs.specs.type_defs.Types.{parts_with};
ghost use Rattle.values_json.specs.order.Names.{object_names, AreAscending};
ghost use Rattle.values_json.specs.order.Listed.{by_name, with_dots, AreComponents, AreWithin};
ghost use Rattle.values_json.specs.order.After.{first_name, IsAfter};

use aper_values::value::Value;
use asn1_syntax::types::Component;
use gnb_types::octets::Memory;
use std::alloc::Global;
use std::collections::BTreeMap;

/// What a member of the object of a SEQUENCE is: the component at a place, or the list of additions.
#[derive(Clone, Copy)]
pub enum Member {
    Component(usize),
    Additions,
}

/// Whether a name comes after the last one, if there is one.
fn is_after(last: Option<&[u8]>, name: &[u8]) -> bool
    ensures { IsAfter (option_map (λ n. n.now) last.entry) name.now result }
{
    match last {
        Some(last) => last.cmp(name).is_lt(),
        None => true,
    }
}

fn first_name(has_additions: bool) -> Option<&'static [u8]>
    ensures { option_map (λ n. n.now) result ≡ first_name has_additions }
{
    if has_additions { Some(b"...") } else { None }
}

/// How many members the object has, if their names ascend as they come, with the additions first.
pub fn count_in_order(
    parts: &[Component],
    values: &[Option<Value>],
    has_additions: bool,
) -> Option<usize>
    ensures { MatchOption result
        (AreAscending (object_names has_additions parts.now values.now) → ⊥)
        (λ n. AreAscending (object_names has_additions parts.now values.now)
        × (n ≡ length (object_names has_additions parts.now values.now))) }
{
    let mut last = first_name(has_additions);
    let mut count = usize::from(has_additions);
    for i in 0..parts.len().min(values.len()) {
        if values[i].is_none() {
            continue;
        }
        let name = parts[i].name.as_slice();
        if !is_after(last, name) {
            return None;
        }
        last = Some(name);
        count += 1;
    }
    Some(count)
}

/// The members of the object by their names, put from the last one on.
pub fn members_by_name<'a>(
    alloc: Global,
    parts: &'a [Component],
    values: &[Option<Value>],
    has_additions: bool,
) -> Result<BTreeMap<&'a [u8], Member>, Memory>
    ensures order { (of : ℕ → Named) (ds : Items) (at : ℕ → Data) → AreComponents of parts.now values.now at
        → IfOk result (λ members. by_name at ds members.entries ≡ with_dots has_additions ds
        (components_shown (parts_with of parts.now) (options_view values.now))) }
    ensures within { IfOk result (λ members. AreWithin (length values.now) members.entries) }
{
    let mut members: BTreeMap<&'a [u8], Member> = BTreeMap::new(alloc);
    let mut i = parts.len().min(values.len());
    while i > 0 {
        i -= 1;
        if values[i].is_some() {
            members.insert(parts[i].name.as_slice(), Member::Component(i))?;
        }
    }
    if has_additions {
        members.insert(b"...", Member::Additions)?;
    }
    Ok(members)
}

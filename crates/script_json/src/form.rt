// The parts of the format's forms: members, arrays, numbers and texts.
ghost use Rattle.std.specs.Prelude.{◌≡◌, ◌<◌, ◌≤◌, ◌^◌, [], IfOk, bytes_eq, length, map, not};
ghost use Rattle.std.specs.Prelude.{string_bytes};
ghost use Rattle.std.specs.List.{list_any};
ghost use Rattle.serde_json.specs.Data.{Data};
ghost use Rattle.serde_json.specs.View.{items_view, members_view, view};
ghost use Rattle.script_json.specs.Forms.{Gives, Shows, array_of, each, has_other_key, is_listed};
ghost use Rattle.script_json.specs.Forms.{items_of, object_of, optional, or_refuse, required};
ghost use Rattle.script_json.specs.Forms.{under, whole};
ghost use Rattle.script_json.specs.declared.refusal.PathStep.TheVariants.{At, Key};
ghost use Rattle.script_json.specs.declared.refusal.ScriptRefusal.{ScriptRefusal};

use crate::refusal::{PathStep, ScriptRefusal};
use col_table::{ListOf, Text};
use serde_json::{Map, Value};
use std::alloc::Global;

/// What may stand at a place of a script, and what it is read as.
pub(crate) trait Form {
    type Made: Drop;

    ghost use Rattle.std.specs.Prelude.{Result};

    // What each value stands for, or the first refusal in it.
    ghost reading: { Self → Data → Result Self.Made ScriptRefusal };

    fn read(&self, alloc: Global, value: &Value) -> Result<Self::Made, ScriptRefusal>
        ensures { Gives (reading self.now (view value.now)) result };
}

// The outcome of reading the value under a key, seen from its object.
fn under_key<T: Drop>(
    alloc: Global,
    key: &str,
    outcome: Result<T, ScriptRefusal>,
) -> Result<T, ScriptRefusal>
    ensures { Gives (under (Key key.now) outcome) result }
{
    match outcome {
        Ok(made) => Ok(made),
        Err(refusal) => {
            let key = Text::of(String::from_str(alloc, key)?);
            Err(refusal.below(PathStep::Key(key))?)
        }
    }
}

// The outcome of reading an item, seen from its array.
pub(crate) fn under_index<T: Drop>(
    index: u32,
    outcome: Result<T, ScriptRefusal>,
) -> Result<T, ScriptRefusal>
    ensures { Gives (under (At index) outcome) result }
{
    match outcome {
        Ok(made) => Ok(made),
        Err(refusal) => Err(refusal.below(PathStep::At(index))?),
    }
}

/// Reads the member that an object must have under a key.
pub(crate) fn read_required<F: Form>(
    alloc: Global,
    value: &Value,
    key: &str,
    form: &F,
) -> Result<F::Made, ScriptRefusal>
    ensures { Gives (required key.now (F.reading form.now) (view value.now)) result }
{
    let outcome = match value.get(key) {
        Some(found) => form.read(alloc, found),
        None => Err(ScriptRefusal::wrong_shape(alloc)),
    };
    under_key(alloc, key, outcome)
}

/// Reads the member that an object may have under a key, or gives the default if it has none.
pub(crate) fn read_optional<F: Form>(
    alloc: Global,
    value: &Value,
    key: &str,
    default: F::Made,
    form: &F,
) -> Result<F::Made, ScriptRefusal>
    ensures { Gives (optional key.now default (F.reading form.now) (view value.now)) result }
{
    match value.get(key) {
        Some(found) => under_key(alloc, key, form.read(alloc, found)),
        None => Ok(default),
    }
}

/// Refuses a value that is not an object, or has a key other than these.
pub(crate) fn check_keys(alloc: Global, value: &Value, keys: &[&str]) -> Result<(), ScriptRefusal>
    ensures { Gives (object_of (map (λ key. key.now) keys.now) (view value.now)) result }
{
    let Some(members) = value.as_object() else {
        return Err(ScriptRefusal::wrong_shape(alloc));
    };
    if has_another_key(members, keys) {
        return Err(ScriptRefusal::unknown_key(alloc));
    }
    Ok(())
}

fn has_another_key(members: &Map<String, Value>, keys: &[&str]) -> bool
    ensures { result
        ≡ has_other_key (map (λ key. key.now) keys.now) (members_view members.now.entries) }
{
    members.keys().any(|key| is_other(key, keys))
}

fn is_other(key: &String, keys: &[&str]) -> bool
    ensures { result ≡ not (is_listed (map (λ key. key.now) keys.now) (string_bytes key.now)) }
{
    !is_among(key.as_str(), keys)
}

fn is_among(key: &str, keys: &[&str]) -> bool
    ensures { result ≡ list_any (λ listed. bytes_eq listed.now key.now) keys.now }
{
    keys.iter().any(|listed| *listed == key)
}

/// The items of an array of `least` to `most` items.
pub(crate) fn items_within(
    alloc: Global,
    value: &Value,
    least: u32,
    most: u32,
) -> Result<&[Value], ScriptRefusal>
    ensures items { Shows (λ items. items_view items.now)
        (items_of least most (view value.now)) result }
    ensures few { IfOk result (λ items. length items.now ≤ most) }
{
    let Some(items) = value.as_array() else {
        return Err(ScriptRefusal::wrong_shape(alloc));
    };
    let items = items.as_slice();
    if items.len() > most as usize {
        return Err(ScriptRefusal::too_many(alloc));
    }
    if items.len() < least as usize {
        return Err(ScriptRefusal::wrong_shape(alloc));
    }
    Ok(items)
}

/// An array of `least` to `most` items of one form.
#[derive(Drop)]
pub(crate) struct ArrayForm<F> {
    pub least: u32,
    pub most: u32,
    pub item: F,
}

impl<F: Form> Form for ArrayForm<F> {
    type Made = ListOf<F::Made>;

    ghost reading = { λ form. array_of form.least form.most (λ _. F.reading form.item) };

    fn read(&self, alloc: Global, value: &Value) -> Result<ListOf<F::Made>, ScriptRefusal> {
        let items = items_within(alloc, value, self.least, self.most)?;
        read_each(alloc, items, &self.item)
    }
}

fn read_each<F: Form>(
    alloc: Global,
    items: &[Value],
    form: &F,
) -> Result<ListOf<F::Made>, ScriptRefusal>
    requires { length items.now < 2 ^ 32 }
    ensures { Gives (each (λ _. F.reading form.now) [] (items_view items.now)) result }
{
    let mut made = Vec::new(alloc);
    for (index, item) in items.iter().enumerate() {
        made.push(read_item(alloc, index as u32, item, form)?)?;
    }
    Ok(ListOf::of(made))
}

// Reads the item of an array at a place.
fn read_item<F: Form>(
    alloc: Global,
    index: u32,
    item: &Value,
    form: &F,
) -> Result<F::Made, ScriptRefusal>
    ensures { Gives (under (At index) (F.reading form.now (view item.now))) result }
{
    under_index(index, form.read(alloc, item))
}

/// A whole number from `least` to `most`.
#[derive(Drop)]
pub(crate) struct WholeForm {
    pub least: u32,
    pub most: u32,
}

impl Form for WholeForm {
    type Made = u32;

    ghost reading = { λ form. whole form.least form.most };

    fn read(&self, alloc: Global, value: &Value) -> Result<u32, ScriptRefusal> {
        let Some(written) = value.as_number() else {
            return Err(ScriptRefusal::wrong_shape(alloc));
        };
        let Some(number) = written.as_u64() else {
            return Err(ScriptRefusal::wrong_number(alloc));
        };
        if number < u64::from(self.least) || u64::from(self.most) < number {
            return Err(ScriptRefusal::wrong_number(alloc));
        }
        Ok(number as u32)
    }
}

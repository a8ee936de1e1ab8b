//! Reads fields and items of a definition.
use crate::place::List;
use serde_json::Value;

/// The items of a list, or none if the field isn't a list.
pub(crate) fn items(definition: &Value, list: List) -> &[Value] {
    match definition.get(list.field()).and_then(Value::as_array) {
        Some(items) => items.as_slice(),
        None => &[],
    }
}

/// The text in a field, if there is one.
pub(crate) fn text<'v>(object: &'v Value, key: &str) -> Option<&'v str> {
    object.get(key).and_then(Value::as_str)
}

/// The whole number in a field, if there is one.
pub(crate) fn number(object: &Value, key: &str) -> Option<u64> {
    object.get(key).and_then(Value::as_u64)
}

/// Whether a node is a licence: it has units.
pub(crate) fn is_licence(node: &Value) -> bool {
    node.get("units").is_some()
}

/// Whether a field holds this text.
pub(crate) fn has_text(object: &Value, key: &str, wanted: &str) -> bool {
    match text(object, key) {
        Some(found) => found == wanted,
        None => false,
    }
}

/// The place of the first item with a name.
pub(crate) fn place_named(items: &[Value], name: &str) -> Option<usize> {
    items.iter().position(|item| has_text(item, "name", name))
}

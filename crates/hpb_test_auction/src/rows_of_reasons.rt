//! Reasons for a refusal that a text of a definition doesn't deserve: none is found.

use crate::definitions::definition_line;
use hpb_reasons::{NOTHING_FOUND, reason};
use hpb_rules::Refusal;
use hpb_rules::Refusal::{
    Children, Duplicate, Empty, Field, Json, Leaf, Limits, Line, Memory, Name, Number, Parent,
    Terms,
};
use std::alloc::Global;
use std::process::Abort;
use std::test::Fail;

/// The refusals that a text may be asked for.
const REFUSALS: [Refusal; 13] = [
    Json, Field, Number, Empty, Name, Duplicate, Parent, Children, Leaf, Limits, Terms, Memory,
    Line,
];

/// A definition with the most levels, 8.
const EIGHT_LEVELS: &str =
    r#"{"step":10,"percent":10,"stages":[80],"nodes":[{"name":"p1","parent":null},{"name":"p2","parent":"p1"},{"name":"p3","parent":"p2"},{"name":"p4","parent":"p3"},{"name":"p5","parent":"p4"},{"name":"p6","parent":"p5"},{"name":"p7","parent":"p6"},{"name":"l","parent":"p7","units":1,"opening":10},{"name":"m","parent":"p7","units":1,"opening":10},{"name":"n1","parent":"p1","units":1,"opening":10},{"name":"n2","parent":"p2","units":1,"opening":10},{"name":"n3","parent":"p3","units":1,"opening":10},{"name":"n4","parent":"p4","units":1,"opening":10},{"name":"n5","parent":"p5","units":1,"opening":10},{"name":"n6","parent":"p6","units":1,"opening":10}],"bidders":[{"name":"x","units":1}]}"#;

/// Checks that no reason is found for a refusal.
fn find_nothing(rt: &impl Abort, alloc: Global, text: &str, refusal: Refusal) -> Result<(), Fail> {
    let said = reason(alloc, text.as_bytes(), refusal)?;
    assert_eq!(rt; said.text.as_str(), NOTHING_FOUND, "{refusal:?}");
    assert!(rt; !said.ends_early);
    Ok(())
}

#[test]
fn nothing_is_found_in_a_definition_that_is_right(rt: HostRuntime) -> Result<(), Fail> {
    let alloc = rt.alloc();
    let none = definition_line(alloc, 0)?;
    let twenty = definition_line(alloc, 20)?;
    for text in [none.as_str(), twenty.as_str(), EIGHT_LEVELS] {
        for refusal in REFUSALS {
            find_nothing(&rt, alloc, text, refusal)?;
        }
    }
    // A text that is no JSON has none of the faults of a definition.
    find_nothing(&rt, alloc, "{\"step\":10,", Field)
}

//! Facts that no clause states: how names of files are shown, and which refusal reports each fault.
//! `examples/check-streams` compares the texts of help and of refusals.

use crate::*;
use hpb_codec::{JournalLayout, JournalShape};
use hpb_rules::Refusal;
use std::test::Fail;

#[test]
fn jobs_are_read(rt: HostRuntime) -> Result<(), Fail> {
    let words = [
        "hpb",
        "format",
        "--layout=002",
        "--file=b c",
        "--journal=16",
    ];
    assert_eq!(rt;
        read_words(rt.alloc(), &words)?,
        Job::Format {
            file: "b c",
            journal: JournalShape {
                layout: JournalLayout::Cells,
                frames: 16
            }
        }
    );
    Ok(())
}

#[test]
fn names_are_cut_where_they_are_long(rt: HostRuntime) -> Result<(), Fail> {
    let alloc = rt.alloc();
    for (count, shown, is_pasted) in [
        (100, 100, true),
        (101, 100, true),
        (400, 100, true),
        (401, 100, false),
    ] {
        let name = "n".repeat(alloc, count)?;
        let front = "n".repeat(alloc, shown)?;
        let rest = if count > shown { ".." } else { "" };
        let wanted = format!(in alloc; "{front}{rest}")?;
        assert_eq!(rt; Escaped(name.as_str()).to_string(alloc)?, wanted);
        let pasted = Pasted(name.as_str()).to_string(alloc)?;
        assert_eq!(rt;
            pasted.as_str(),
            if is_pasted { name.as_str() } else { "F" }
        );
    }
    Ok(())
}

#[test]
fn names_are_escaped_and_quoted(rt: HostRuntime) -> Result<(), Fail> {
    let alloc = rt.alloc();
    assert_eq!(rt;
        Escaped("no\u{202e}file").to_string(alloc)?.as_str(),
        "no\\u{202e}file"
    );
    for letter in " $&;|<>()`\"\\*?[]{}~#!^".chars() {
        let name = format!(in alloc; "a{letter}b")?;
        let wanted = format!(in alloc; "'a{letter}b'")?;
        assert_eq!(rt; Pasted(name.as_str()).to_string(alloc)?, wanted);
    }
    Ok(())
}

#[test]
fn faults_are_told(rt: HostRuntime) -> Result<(), Fail> {
    let alloc = rt.alloc();
    let text = WordsFault::Memory.to_string(alloc)?;
    assert_eq!(rt; text.as_str(), Refusal::Memory.word());
    let refused = WordsFault::Refused {
        text: String::from_str(alloc, "error: no such word")?,
        status: 2,
    };
    assert_eq!(rt; refused.to_string(alloc)?.as_str(), "error: no such word");
    Ok(())
}

use super::*;
use std::alloc::{AllocError, Global};
use std::test::*;

// The words of a line, with one blank between two.
fn words_of(alloc: Global, line: &str) -> Result<Vec<String>, AllocError> {
    let mut words = Vec::new(alloc);
    for word in line.split(' ') {
        words.push(String::from_str(alloc, word)?)?;
    }
    Ok(words)
}

#[test]
fn commands(rt: HostRuntime) -> Result<(), Fail> {
    let alloc = rt.alloc();
    for (line, command) in [
        ("check f", r#"Check(Name { text: "f" }, 1)"#),
        ("check ", r#"Check(Name { text: "" }, 1)"#),
        ("check --jobs 64 f", r#"Check(Name { text: "f" }, 64)"#),
        (
            "emit f -o c",
            r#"Emit(Name { text: "f" }, Name { text: "c" })"#,
        ),
        (
            "prove -o d f",
            r#"Prove(Name { text: "f" }, Name { text: "d" })"#,
        ),
        (
            "verify f d",
            r#"Verify(Name { text: "f" }, Name { text: "d" })"#,
        ),
        ("fmt f", r#"Fmt(Name { text: "f" })"#),
        ("ghost f", r#"Ghost(Name { text: "f" })"#),
        (
            "run c",
            r#"Run(Name { text: "c" }, RunOpts { steps: 1000000, workers: 2, history: None })"#,
        ),
        (
            "run --steps 4000000 c --history h --workers 64",
            r#"Run(Name { text: "c" }, RunOpts { steps: 4000000, workers: 64, history: Some(Name { text: "h" }) })"#,
        ),
        (
            "replay c h",
            r#"Replay(Name { text: "c" }, Name { text: "h" })"#,
        ),
        (
            "go f -o c --workers 1 --steps 1",
            r#"Go(Name { text: "f" }, Name { text: "c" }, RunOpts { steps: 1, workers: 1, history: None })"#,
        ),
        ("bench 1000", "Bench(1000)"),
        (
            "races c h",
            r#"Races(Name { text: "c" }, Name { text: "h" })"#,
        ),
    ] {
        let words = words_of(alloc, line)?;
        let read = read_words(alloc, words.as_slice())?;
        assert_eq!(rt; format!(in alloc; "{read:?}")?.as_str(), command);
    }
    Ok(())
}

#[test]
fn refusals(rt: HostRuntime) -> Result<(), Fail> {
    let alloc = rt.alloc();
    for (line, kind, place) in [
        ("", UsageKind::UnknownCommand, 0),
        ("-o", UsageKind::UnknownCommand, 0),
        ("check --steps 5", UsageKind::UnknownOption, 1),
        ("run c --steps=5", UsageKind::UnknownOption, 2),
        ("fmt f -h", UsageKind::UnknownOption, 2),
        ("emit f --", UsageKind::UnknownOption, 2),
        ("emit f -o", UsageKind::MissingValue, 2),
        ("emit -o -f", UsageKind::MissingValue, 1),
        ("run c --steps 1 --steps", UsageKind::MissingValue, 4),
        ("run c --steps 1 --steps 0", UsageKind::Repeated, 4),
        ("emit -o c f -o c", UsageKind::Repeated, 4),
        ("run c --steps 0", UsageKind::BadNumber, 3),
        ("run c --steps 4000001", UsageKind::BadNumber, 3),
        ("run c --workers 65", UsageKind::BadNumber, 3),
        ("run c --workers ", UsageKind::BadNumber, 3),
        ("check f --jobs 01", UsageKind::BadNumber, 3),
        ("check f --jobs +1", UsageKind::BadNumber, 3),
        ("bench 1001 x", UsageKind::BadNumber, 1),
        ("bench ", UsageKind::BadNumber, 1),
        ("bench 5 x", UsageKind::ExtraWord, 2),
        ("run c d --steps", UsageKind::ExtraWord, 2),
        ("races c h h", UsageKind::ExtraWord, 3),
        ("check", UsageKind::MissingWord, 1),
        ("check --jobs 3", UsageKind::MissingWord, 3),
        ("go f", UsageKind::MissingWord, 2),
        ("prove -o d", UsageKind::MissingWord, 3),
        ("verify f", UsageKind::MissingWord, 2),
        ("bench", UsageKind::MissingWord, 1),
    ] {
        let words = words_of(alloc, line)?;
        let refusal = read_words(alloc, words.as_slice()).err();
        assert_eq!(rt; refusal, Some(WordError::Usage(kind, place)), "{line}");
    }
    let refusal = read_words(alloc, &[]).err();
    assert_eq!(rt; refusal, Some(WordError::Usage(UsageKind::NoCommand, 0)));
    Ok(())
}

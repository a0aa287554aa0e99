ghost use Rattle.pl_report.specs.Lines.{IsLine};

use super::*;
use pl_base::{Items, Memory, Name, Pos};
use pl_resource::{Cell, Fault};
use pl_words::UsageKind;
use std::alloc::Global;
use std::process::Abort;
use std::test::*;

fn at(line: u32, col: u32) -> Pos {
    Pos { line, col, byte: 0 }
}

fn text(alloc: Global, text: &str) -> Result<Items<u8>, Memory> {
    Ok(Items::of(Vec::from_slice(alloc, text.as_bytes())?))
}

fn nodes(alloc: Global, list: &[(&str, i128)]) -> Result<Items<At>, Memory> {
    let mut nodes = Vec::new(alloc);
    for (node, value) in list {
        nodes.push(At {
            node: text(alloc, node)?,
            value: *value,
        })?;
    }
    Ok(Items::of(nodes))
}

// The line of a refusal is this one.
fn says(rt: &impl Abort, alloc: Global, refusal: Refusal, line: &str) -> Result<(), Memory>
    requires { IsLine refusal }
{
    let said = line_of(alloc, &refusal)?;
    assert_eq!(rt; said.as_slice(), line.as_bytes());
    Ok(())
}

#[test]
fn files_and_words(rt: HostRuntime) -> Result<(), Fail> {
    let alloc = rt.alloc();
    let usage = Refusal::Usage(UsageKind::BadNumber, 3);
    says(&rt, alloc, usage, "usage: BadNumber at 3\n")?;
    says(&rt, alloc, Refusal::NoMain, "no main\n")?;
    says(&rt, alloc, Refusal::BadUtf8(7), "bad UTF-8 at 7\n")?;
    says(
        &rt,
        alloc,
        Refusal::BadChar(at(1, 7)),
        "1:7: bad character\n",
    )?;
    says(
        &rt,
        alloc,
        Refusal::LongNumber(at(1, 19)),
        "1:19: long number\n",
    )?;
    says(&rt, alloc, Refusal::LongName(at(1, 7)), "1:7: long name\n")?;
    says(&rt, alloc, Refusal::Syntax(at(2, 1)), "2:1: syntax\n")?;
    says(&rt, alloc, Refusal::Deep(at(1, 40)), "1:40: deep\n")?;
    says(
        &rt,
        alloc,
        Refusal::Unknown(at(1, 13)),
        "1:13: unknown name\n",
    )?;
    says(&rt, alloc, Refusal::Twice(at(1, 15)), "1:15: name twice\n")?;
    says(
        &rt,
        alloc,
        Refusal::IllTyped(at(1, 25)),
        "1:25: ill typed\n",
    )?;
    says(
        &rt,
        alloc,
        Refusal::GhostFlow(at(3, 3)),
        "3:3: ghost flow\n",
    )?;
    says(&rt, alloc, Refusal::Opening(at(4, 5)), "4:5: opening\n")?;
    says(&rt, alloc, Refusal::Measure(at(5, 5)), "5:5: measure\n")?;
    Ok(())
}

#[test]
fn duties(rt: HostRuntime) -> Result<(), Fail> {
    let alloc = rt.alloc();
    let missing = Refusal::Missing(at(4, 3), text(alloc, "r |-> _")?);
    says(&rt, alloc, missing, "4:3: missing r |-> _\n")?;
    let left = text(alloc, "p.f |-> null ** p.g |-> true ** block(p, 1)")?;
    says(
        &rt,
        alloc,
        Refusal::Leftover(at(1, 80), left),
        "1:80: leftover p.f |-> null ** p.g |-> true ** block(p, 1)\n",
    )?;
    let undecided = Refusal::Undecided(at(1, 84), text(alloc, "r == null")?);
    says(&rt, alloc, undecided, "1:84: undecided r == null\n")?;
    let unsolved = Refusal::Unsolved(at(1, 33), Name::of(alloc, "n")?);
    says(&rt, alloc, unsolved, "1:33: unsolved n\n")?;
    let permission = Refusal::Permission(at(2, 9), Name::of(alloc, "q")?);
    says(&rt, alloc, permission, "2:9: permission q\n")?;
    for (words, list, line) in [
        ("r != s", [].as_slice(), "1:51: undone r != s\n"),
        ("b", [("b", 0)].as_slice(), "1:51: undone b at b = 0\n"),
        (
            "x <= y",
            [("x", 0), ("y", -1)].as_slice(),
            "1:51: undone x <= y at x = 0, y = -1\n",
        ),
        (
            "-9223372036854775808 <= n + 1",
            [("n", -9223372036854775810)].as_slice(),
            "1:51: undone -9223372036854775808 <= n + 1 at n = -9223372036854775810\n",
        ),
    ] {
        let undone = Refusal::Undone(at(1, 51), text(alloc, words)?, nodes(alloc, list)?);
        says(&rt, alloc, undone, line)?;
    }
    Ok(())
}

#[test]
fn limits_and_texts(rt: HostRuntime) -> Result<(), Fail> {
    let alloc = rt.alloc();
    for (kind, size, line) in [
        ("declarations", 4097, "8:9: limit declarations 4097\n"),
        (
            "number",
            170141183460469231731687303715884105727,
            "8:9: limit number 170141183460469231731687303715884105727\n",
        ),
    ] {
        let limit = Refusal::Limit(at(8, 9), text(alloc, kind)?, size);
        says(&rt, alloc, limit, line)?;
    }
    says(
        &rt,
        alloc,
        Refusal::LimitFile(268435457),
        "limit file 268435457\n",
    )?;
    says(
        &rt,
        alloc,
        Refusal::LimitInput(1048577),
        "limit input 1048577\n",
    )?;
    says(&rt, alloc, Refusal::LimitThreads, "limit threads 1024\n")?;
    says(&rt, alloc, Refusal::LimitGhost, "limit ghost number\n")?;
    says(&rt, alloc, Refusal::CByte(1740), "C byte 1740\n")?;
    says(&rt, alloc, Refusal::ProofByte(16), "proof byte 16\n")?;
    says(&rt, alloc, Refusal::HistoryLine(3), "history line 3\n")?;
    says(&rt, alloc, Refusal::InputLine(1), "input line 1\n")?;
    let node = Refusal::ProofNode(12, text(alloc, "fold")?);
    says(&rt, alloc, node, "proof node 12 breaks fold\n")?;
    Ok(())
}

#[test]
fn runs_and_replays(rt: HostRuntime) -> Result<(), Fail> {
    let alloc = rt.alloc();
    let found = text(alloc, "0 load b0.0.0 6")?;
    let expected = Some(text(alloc, "0 load b0.0.0 5")?);
    says(
        &rt,
        alloc,
        Refusal::Differs(1, expected, found),
        "differs at 1: expected 0 load b0.0.0 5, found 0 load b0.0.0 6\n",
    )?;
    let found = text(alloc, "1 return")?;
    says(
        &rt,
        alloc,
        Refusal::Differs(0, None, found),
        "differs at 0: expected nothing, found 1 return\n",
    )?;
    says(
        &rt,
        alloc,
        Refusal::Deadlock(2),
        "deadlock after 2 events\n",
    )?;
    says(&rt, alloc, Refusal::Bound(1), "bound after 1 events\n")?;
    let cell = Cell {
        block: 0,
        index: 0,
        field: 2,
    };
    says(
        &rt,
        alloc,
        Refusal::Race(0, 1, cell, 4),
        "race of 0 and 1 at b0.0.2 after 4 events\n",
    )?;
    for (fault, line) in [
        (Fault::Dead, "fault of 3: dead block after 2 events\n"),
        (Fault::Outside, "fault of 3: outside after 2 events\n"),
        (Fault::Kind, "fault of 3: wrong kind after 2 events\n"),
        (Fault::Null, "fault of 3: null after 2 events\n"),
        (Fault::Overflow, "fault of 3: overflow after 2 events\n"),
        (
            Fault::ZeroDivisor,
            "fault of 3: zero divisor after 2 events\n",
        ),
        (Fault::LockFreed, "fault of 3: freed lock after 2 events\n"),
        (Fault::LockFree, "fault of 3: free lock after 2 events\n"),
    ] {
        assert!(rt; fault != Fault::GhostMissing);
        says(&rt, alloc, Refusal::Faulted(3, fault, 2), line)?;
    }
    Ok(())
}

use super::*;
use pl_base::{
    Host, HostError, HostFailed, HostFile, Items, Memory, MemoryHost, Name, NullGate, SteadyHost,
    TakeError,
};
use std::alloc::{AllocError, Global};
use std::process::Abort;
use std::sync::Wait;
use std::test::*;
use std::thread::Threads;

const FIRST: &[u8] =
    b"fn main() {\n  let r = alloc(5);\n  let v = !r;\n  print(v);\n  free(r);\n}\n";

const HISTORY: &[u8] =
    b"pulse-history 1\n0 alloc b0 1\n0 load b0.0.0 5\n0 print 5\n0 free b0\n0 return\nend 5\n";

// The lines of the first file's C behind the prelude.
const C_LINES: &[u8] =
    b"static void f_main(void);\nstatic void f_main(void) {\n  int64_t *v_r_1 = p_new_i64(INT64_C(5));\n  int64_t v_v_2 = *v_r_1;\n  p_print(v_v_2);\n  free(v_r_1);\n}\nint main(void) {\n  f_main();\n  return 0;\n}\n";

fn words_of(alloc: Global, list: &[&str]) -> Result<Vec<String>, AllocError> {
    let mut words = Vec::new(alloc);
    for word in list {
        words.push(String::from_str(alloc, *word)?)?;
    }
    Ok(words)
}

fn check_words(alloc: Global) -> Result<Vec<String>, AllocError> {
    words_of(alloc, &["check", "f"])
}

fn go_words(alloc: Global, workers: &str) -> Result<Vec<String>, AllocError> {
    words_of(
        alloc,
        &["go", "f", "-o", "c", "--history", "h", "--workers", workers],
    )
}

fn one_file(alloc: Global, bytes: &[u8]) -> Result<Vec<HostFile>, Memory> {
    let mut files = Vec::new(alloc);
    files.push(HostFile {
        name: Name::of(alloc, "f")?,
        bytes: Items::of(Vec::from_slice(alloc, bytes)?),
    })?;
    Ok(files)
}

#[test]
fn a_file_is_checked(rt: HostRuntime) -> Result<(), Fail> {
    let alloc = rt.alloc();
    let words = check_words(alloc)?;
    for (bytes, status, line) in [
        (FIRST, 0, "accepted\n"),
        (
            b"fn main() {\n  let r = alloc(5);\n}\n".as_slice(),
            1,
            "3:1: leftover r |-> 5 ** block(r, 1)\n",
        ),
        (
            b"fn main() {\n  let r = alloc(5);\n  free(r);\n  free(r);\n}\n".as_slice(),
            1,
            "4:3: missing r |-> _\n",
        ),
        (b"".as_slice(), 3, "no main\n"),
        (b"\xff".as_slice(), 3, "bad UTF-8 at 0\n"),
        (b"fn fn $".as_slice(), 3, "1:7: bad character\n"),
        (
            b"fn main() { print(170141183460469231731687303715884105728); }".as_slice(),
            3,
            "1:19: long number\n",
        ),
        (
            b"fn fn __________________________() { }".as_slice(),
            3,
            "1:7: long name\n",
        ),
        (b"fn main() {\n".as_slice(), 3, "2:1: syntax\n"),
        (
            b"fn main() { let x = !r; }".as_slice(),
            3,
            "1:13: unknown name\n",
        ),
        (
            b"fn f() { } fn f() { } fn main() { }".as_slice(),
            3,
            "1:15: name twice\n",
        ),
        (
            b"fn main() { let x = 1 + true; }".as_slice(),
            3,
            "1:25: ill typed\n",
        ),
        (
            b"fn main() {\n  // 1 + 1\n  let x = 1 + 1;\n}\n".as_slice(),
            3,
            "3:3: not built\n",
        ),
    ] {
        let mut host = SteadyHost::new(alloc, one_file(alloc, bytes)?, Vec::new(alloc));
        assert_eq!(rt;
            pulse_main(&rt, alloc, words.as_slice(), &mut host, &NullGate),
            status
        );
        assert_eq!(rt; host.out(), line.as_bytes());
    }
    Ok(())
}

#[test]
fn a_file_is_formatted(rt: HostRuntime) -> Result<(), Fail> {
    let alloc = rt.alloc();
    let words = words_of(alloc, &["fmt", "f"])?;
    for (bytes, status, line) in [
        (
            b"fn main(){print(1);}".as_slice(),
            0,
            "fn main() {\n  print(1);\n}\n",
        ),
        (
            b"fn f(){print(- x);}//".as_slice(),
            0,
            "fn f() {\n  print(-x);\n}\n",
        ),
        (b"".as_slice(), 0, ""),
        (
            b"fn main() { print(12ab); }".as_slice(),
            3,
            "1:21: syntax\n",
        ),
    ] {
        let mut host = SteadyHost::new(alloc, one_file(alloc, bytes)?, Vec::new(alloc));
        assert_eq!(rt;
            pulse_main(&rt, alloc, words.as_slice(), &mut host, &NullGate),
            status
        );
        assert_eq!(rt; host.out(), line.as_bytes());
    }
    Ok(())
}

// An empty text is printed by no write.
#[test]
fn each_call_of_a_format_fails_once(rt: HostRuntime) -> Result<(), Fail> {
    let alloc = rt.alloc();
    let words = words_of(alloc, &["fmt", "f"])?;
    for (bytes, k, status) in [
        (FIRST, 0, 4),
        (FIRST, 1, 5),
        (FIRST, 2, 0),
        (b"".as_slice(), 0, 4),
        (b"".as_slice(), 1, 0),
    ] {
        let mut fails = Vec::new(alloc);
        fails.push(k)?;
        let mut host = MemoryHost::new(alloc, one_file(alloc, bytes)?, Vec::new(alloc), fails);
        assert_eq!(rt;
            pulse_main(&rt, alloc, words.as_slice(), &mut host, &NullGate),
            status
        );
    }
    Ok(())
}

#[test]
fn each_call_fails_once(rt: HostRuntime) -> Result<(), Fail> {
    let alloc = rt.alloc();
    let words = check_words(alloc)?;
    for (k, status) in [(0, 4), (1, 5), (2, 0)] {
        let mut fails = Vec::new(alloc);
        fails.push(k)?;
        let mut host = MemoryHost::new(alloc, one_file(alloc, FIRST)?, Vec::new(alloc), fails);
        assert_eq!(rt;
            pulse_main(&rt, alloc, words.as_slice(), &mut host, &NullGate),
            status
        );
        assert_eq!(rt; host.out().is_empty(), status != 0);
    }
    Ok(())
}

// A host that writes one byte at a time.
#[derive(Drop)]
struct Trickle {
    taken: Vec<u8>,
    out: Vec<u8>,
}

impl Host for Trickle {
    ghost use Rattle.std.specs.Prelude.{None, Some};

    ghost files = { λ h. None };

    ghost input = { λ h. None };

    ghost out = { λ h. Some h.out.items };

    ghost in_faults = { λ h. 0 };

    ghost out_faults = { λ h. 0 };

    fn take(&mut self, _name: &str, most: u64) -> Result<Vec<u8>, TakeError> {
        if self.taken.len() as u64 > most {
            return Err(TakeError::TooLong);
        }
        match self.taken.clone() {
            Ok(bytes) => Ok(bytes),
            Err(AllocError) => Err(TakeError::Memory),
        }
    }

    fn put(&mut self, _name: &str, _bytes: &[u8]) -> Result<(), HostError> {
        Err(HostError::Memory)
    }

    fn read_in(&mut self, _buf: &mut [u8]) -> Result<usize, HostFailed> {
        Ok(0)
    }

    fn write_out(&mut self, bytes: &[u8]) -> Result<usize, HostError> {
        match self.out.push(bytes[0]) {
            Ok(()) => Ok(1),
            Err(_) => Err(HostError::Memory),
        }
    }
}

#[test]
fn a_write_that_takes_a_part_goes_on(rt: HostRuntime) -> Result<(), Fail> {
    let alloc = rt.alloc();
    let words = check_words(alloc)?;
    let mut host = Trickle {
        taken: Vec::from_slice(alloc, FIRST)?,
        out: Vec::new(alloc),
    };
    let status = pulse_main(&rt, alloc, words.as_slice(), &mut host, &NullGate);
    assert_eq!(rt; status, 0);
    assert_eq!(rt; host.out.as_slice(), b"accepted\n".as_slice());
    Ok(())
}

fn ends_with(bytes: Option<&[u8]>, end: &[u8]) -> bool {
    match bytes {
        Some(bytes) => bytes.ends_with(end),
        None => false,
    }
}

#[test]
fn words_are_read(rt: HostRuntime) -> Result<(), Fail> {
    let alloc = rt.alloc();
    for (list, line) in [
        (&[] as &[&str], "usage: NoCommand at 0\n"),
        (
            &["prove", "f", "-o", "d"] as &[&str],
            "usage: UnknownCommand at 0\n",
        ),
        (
            &["races", "c", "h"] as &[&str],
            "usage: UnknownCommand at 0\n",
        ),
        (&["replay", "c"] as &[&str], "usage: MissingWord at 2\n"),
        (
            &["run", "c", "--workers", "0"] as &[&str],
            "usage: BadNumber at 3\n",
        ),
        (&["go", "f"] as &[&str], "usage: MissingWord at 2\n"),
        (
            &["go", "f", "-o", "c", "--workers", "65"] as &[&str],
            "usage: BadNumber at 5\n",
        ),
        (
            &["emit", "f", "-o", "c", "-o", "d"] as &[&str],
            "usage: Repeated at 4\n",
        ),
        (
            &["check", "f", "--steps", "5"] as &[&str],
            "usage: UnknownOption at 2\n",
        ),
    ] {
        let words = words_of(alloc, list)?;
        let mut host = SteadyHost::new(alloc, one_file(alloc, FIRST)?, Vec::new(alloc));
        assert_eq!(rt;
            pulse_main(&rt, alloc, words.as_slice(), &mut host, &NullGate),
            2
        );
        assert_eq!(rt; host.out(), line.as_bytes());
    }
    Ok(())
}

#[test]
fn a_file_is_emitted(rt: HostRuntime) -> Result<(), Fail> {
    let alloc = rt.alloc();
    let words = words_of(alloc, &["emit", "f", "-o", "c"])?;
    for (bytes, status, line) in [
        (FIRST, 0, "accepted\n"),
        (
            b"fn main() {\n  let r = alloc(5);\n}\n".as_slice(),
            1,
            "3:1: leftover r |-> 5 ** block(r, 1)\n",
        ),
        (b"".as_slice(), 3, "no main\n"),
    ] {
        let mut host = SteadyHost::new(alloc, one_file(alloc, bytes)?, Vec::new(alloc));
        assert_eq!(rt;
            pulse_main(&rt, alloc, words.as_slice(), &mut host, &NullGate),
            status
        );
        assert_eq!(rt; host.out(), line.as_bytes());
        assert_eq!(rt; ends_with(host.file("c"), C_LINES), status == 0);
        assert_eq!(rt; host.file("c").is_some(), status == 0);
    }
    Ok(())
}

#[test]
fn a_file_goes(rt: HostRuntime) -> Result<(), Fail> {
    let alloc = rt.alloc();
    for workers in ["1", "2", "4", "64"] {
        let words = go_words(alloc, workers)?;
        let mut host = SteadyHost::new(alloc, one_file(alloc, FIRST)?, Vec::new(alloc));
        assert_eq!(rt;
            pulse_main(&rt, alloc, words.as_slice(), &mut host, &NullGate),
            0
        );
        assert_eq!(rt; host.out(), b"5\n".as_slice());
        assert!(rt; ends_with(host.file("c"), C_LINES));
        assert!(rt; host.file("h") == Some(HISTORY));
    }
    Ok(())
}

#[test]
fn a_run_ends_at_its_bound(rt: HostRuntime) -> Result<(), Fail> {
    let alloc = rt.alloc();
    let words = words_of(alloc, &["go", "f", "-o", "c", "--steps", "3"])?;
    let mut host = SteadyHost::new(alloc, one_file(alloc, FIRST)?, Vec::new(alloc));
    assert_eq!(rt;
        pulse_main(&rt, alloc, words.as_slice(), &mut host, &NullGate),
        8
    );
    assert_eq!(rt; host.out(), b"5\nbound after 3 events\n".as_slice());
    Ok(())
}

#[test]
fn an_input_is_read(rt: HostRuntime) -> Result<(), Fail> {
    let alloc = rt.alloc();
    let words = words_of(alloc, &["go", "f", "-o", "c"])?;
    for (input, status, line) in [
        (b"12a".as_slice(), 3, "input line 1\n"),
        (b"9223372036854775808".as_slice(), 3, "input line 1\n"),
        (b"\n".as_slice(), 3, "input line 1\n"),
        (b"1\n\n".as_slice(), 3, "input line 2\n"),
        (b"1\n+2\n3\n".as_slice(), 3, "input line 2\n"),
        (b"1\r\n".as_slice(), 3, "input line 1\n"),
        (b"-".as_slice(), 3, "input line 1\n"),
        (b"00000000000000000001".as_slice(), 3, "input line 1\n"),
        (
            b"-9223372036854775808\n-0\n0000000000000000007".as_slice(),
            0,
            "5\n",
        ),
    ] {
        let mut host = SteadyHost::new(
            alloc,
            one_file(alloc, FIRST)?,
            Vec::from_slice(alloc, input)?,
        );
        assert_eq!(rt;
            pulse_main(&rt, alloc, words.as_slice(), &mut host, &NullGate),
            status
        );
        assert_eq!(rt; host.out(), line.as_bytes());
        assert_eq!(rt; host.file("c").is_some(), status == 0);
    }
    Ok(())
}

// Which of the files stand whole where call k fails.
#[test]
fn each_call_of_a_run_fails_once(rt: HostRuntime) -> Result<(), Fail> {
    let alloc = rt.alloc();
    let words = go_words(alloc, "2")?;
    for (k, status, text, history) in [
        (0, 4, false, false),
        (1, 4, false, false),
        (2, 5, false, false),
        (3, 5, true, false),
        (4, 5, true, true),
        (5, 0, true, true),
    ] {
        let mut fails = Vec::new(alloc);
        fails.push(k)?;
        let mut host = MemoryHost::new(alloc, one_file(alloc, FIRST)?, Vec::new(alloc), fails);
        assert_eq!(rt;
            pulse_main(&rt, alloc, words.as_slice(), &mut host, &NullGate),
            status
        );
        assert_eq!(rt; ends_with(host.file("c"), C_LINES), text);
        assert_eq!(rt; host.file("h") == Some(HISTORY), history);
        assert_eq!(rt; host.out().is_empty(), status != 0);
    }
    Ok(())
}

#[test]
fn each_call_of_an_emission_fails_once(rt: HostRuntime) -> Result<(), Fail> {
    let alloc = rt.alloc();
    let words = words_of(alloc, &["emit", "f", "-o", "c"])?;
    for (k, status, text) in [(0, 4, false), (1, 5, false), (2, 5, true), (3, 0, true)] {
        let mut fails = Vec::new(alloc);
        fails.push(k)?;
        let mut host = MemoryHost::new(alloc, one_file(alloc, FIRST)?, Vec::new(alloc), fails);
        assert_eq!(rt;
            pulse_main(&rt, alloc, words.as_slice(), &mut host, &NullGate),
            status
        );
        assert_eq!(rt; ends_with(host.file("c"), C_LINES), text);
        assert_eq!(rt; host.out().is_empty(), status != 0);
    }
    Ok(())
}

// ---- texts of C

// Two threads that store to one cell.
const RACE: &[u8] =
    b"static void f_a(int64_t *v_r_1);\nstatic void f_b(int64_t *v_r_1);\nstatic void f_main(void);\nstruct a_a {\n  char a_0;\n  int64_t *a_1;\n};\nstatic int t_a(void *p) {\n  struct a_a *q = p;\n  struct a_a c = *q;\n  free(q);\n  f_a(c.a_1);\n  return 0;\n}\nstatic void f_a(int64_t *v_r_1) {\n  p_print(INT64_C(1));\n  *v_r_1 = INT64_C(1);\n}\nstatic void f_b(int64_t *v_r_1) {\n  *v_r_1 = INT64_C(2);\n}\nstatic void f_main(void) {\n  int64_t *v_r_1 = p_new_i64(INT64_C(0));\n  {\n    struct a_a *q = p_get(sizeof(struct a_a));\n    q->a_1 = v_r_1;\n    thrd_t t = p_fork(t_a, q);\n    f_b(v_r_1);\n    p_join(t);\n  }\n  free(v_r_1);\n}\nint main(void) {\n  f_main();\n  return 0;\n}\n";

const ZERO_DIVISOR: &[u8] =
    b"static void f_main(void);\nstatic void f_main(void) {\n  p_print((INT64_C(1) / INT64_C(0)));\n}\nint main(void) {\n  f_main();\n  return 0;\n}\n";

const SECOND_BLANK: &[u8] =
    b"static void f_main(void);\nstatic void f_main(void) {\n  p_print( INT64_C(1));\n}\nint main(void) {\n  f_main();\n  return 0;\n}\n";

// A text of C: the prelude, as `emit` writes it, and these lines.
fn c_text<R: Threads + Wait + Sync>(rt: &R, alloc: Global, lines: &[u8]) -> Result<Vec<u8>, Fail> {
    let words = words_of(alloc, &["emit", "f", "-o", "c"])?;
    let mut host = SteadyHost::new(alloc, one_file(alloc, FIRST)?, Vec::new(alloc));
    let _ = pulse_main(rt, alloc, words.as_slice(), &mut host, &NullGate);
    let mut text = Vec::new(alloc);
    if let Some(first) = host.file("c") {
        if let Some(prelude) = first.strip_suffix(C_LINES) {
            text.extend_from_slice(prelude)?;
        }
    }
    text.extend_from_slice(lines)?;
    Ok(text)
}

// The files `c` and `h`.
fn c_and_history(alloc: Global, text: Vec<u8>, history: &[u8]) -> Result<Vec<HostFile>, Memory> {
    let mut files = Vec::new(alloc);
    files.push(HostFile {
        name: Name::of(alloc, "c")?,
        bytes: Items::of(text),
    })?;
    files.push(HostFile {
        name: Name::of(alloc, "h")?,
        bytes: Items::of(Vec::from_slice(alloc, history)?),
    })?;
    Ok(files)
}

#[test]
fn a_text_of_c_runs(rt: HostRuntime) -> Result<(), Fail> {
    let alloc = rt.alloc();
    for (lines, steps, status, text, history) in [
        (C_LINES, "9", 0, "5\n", HISTORY),
        (
            C_LINES,
            "1",
            8,
            "bound after 1 events\n",
            b"pulse-history 1\n0 alloc b0 1\nend 1\n".as_slice(),
        ),
        (
            RACE,
            "9",
            9,
            "1\nrace of 0 and 1 at b0.0.0 after 4 events\n",
            b"pulse-history 1\n0 alloc b0 1\n0 fork 1\n1 print 1\n0 call 1\nend 4\n".as_slice(),
        ),
        (
            ZERO_DIVISOR,
            "9",
            9,
            "fault of 0: zero divisor after 0 events\n",
            b"pulse-history 1\nend 0\n".as_slice(),
        ),
        (SECOND_BLANK, "9", 3, "C byte 1740\n", b"".as_slice()),
    ] {
        let words = words_of(
            alloc,
            &[
                "run",
                "c",
                "--workers",
                "1",
                "--steps",
                steps,
                "--history",
                "h",
            ],
        )?;
        let files = c_and_history(alloc, c_text(&rt, alloc, lines)?, b"")?;
        let mut host = SteadyHost::new(alloc, files, Vec::new(alloc));
        assert_eq!(rt;
            pulse_main(&rt, alloc, words.as_slice(), &mut host, &NullGate),
            status
        );
        assert_eq!(rt; host.out(), text.as_bytes());
        assert!(rt; host.file("h") == Some(history));
    }
    Ok(())
}

#[test]
fn a_history_is_replayed(rt: HostRuntime) -> Result<(), Fail> {
    let alloc = rt.alloc();
    let words = words_of(alloc, &["replay", "c", "h"])?;
    for (lines, history, input, status, line) in [
        (C_LINES, HISTORY, b"".as_slice(), 0, "follows 5 events\n"),
        (
            C_LINES,
            b"pulse-history 1\n0 alloc b0 1\n0 load b0.0.0 6\nend 2\n".as_slice(),
            b"".as_slice(),
            1,
            "differs at 1: expected 0 load b0.0.0 5, found 0 load b0.0.0 6\n",
        ),
        (
            C_LINES,
            b"pulse-history 1\n1 alloc b0 1\nend 1\n".as_slice(),
            b"".as_slice(),
            1,
            "differs at 0: expected nothing, found 1 alloc b0 1\n",
        ),
        (
            C_LINES,
            b"pulse-history 1\n0 alloc b0 1\nen".as_slice(),
            b"x".as_slice(),
            3,
            "history line 3\n",
        ),
        (C_LINES, HISTORY, b"x".as_slice(), 3, "input line 1\n"),
        (
            SECOND_BLANK,
            b"".as_slice(),
            b"x".as_slice(),
            3,
            "C byte 1740\n",
        ),
    ] {
        let files = c_and_history(alloc, c_text(&rt, alloc, lines)?, history)?;
        let mut host = SteadyHost::new(alloc, files, Vec::from_slice(alloc, input)?);
        assert_eq!(rt;
            pulse_main(&rt, alloc, words.as_slice(), &mut host, &NullGate),
            status
        );
        assert_eq!(rt; host.out(), line.as_bytes());
        assert!(rt; host.file("h") == Some(history));
    }
    Ok(())
}

#[test]
fn each_call_of_a_run_of_c_fails_once(rt: HostRuntime) -> Result<(), Fail> {
    let alloc = rt.alloc();
    let words = words_of(alloc, &["run", "c", "--history", "h"])?;
    for (k, status, put) in [
        (0, 4, false),
        (1, 4, false),
        (2, 5, false),
        (3, 5, true),
        (4, 0, true),
    ] {
        let mut fails = Vec::new(alloc);
        fails.push(k)?;
        let files = c_and_history(alloc, c_text(&rt, alloc, C_LINES)?, b"")?;
        let mut host = MemoryHost::new(alloc, files, Vec::new(alloc), fails);
        assert_eq!(rt;
            pulse_main(&rt, alloc, words.as_slice(), &mut host, &NullGate),
            status
        );
        assert_eq!(rt; host.file("h") == Some(HISTORY), put);
        assert_eq!(rt; host.out().is_empty(), status != 0);
    }
    Ok(())
}

#[test]
fn each_call_of_a_replay_fails_once(rt: HostRuntime) -> Result<(), Fail> {
    let alloc = rt.alloc();
    let words = words_of(alloc, &["replay", "c", "h"])?;
    for (k, status) in [(0, 4), (1, 4), (2, 4), (3, 5), (4, 0)] {
        let mut fails = Vec::new(alloc);
        fails.push(k)?;
        let files = c_and_history(alloc, c_text(&rt, alloc, C_LINES)?, HISTORY)?;
        let mut host = MemoryHost::new(alloc, files, Vec::new(alloc), fails);
        assert_eq!(rt;
            pulse_main(&rt, alloc, words.as_slice(), &mut host, &NullGate),
            status
        );
        assert_eq!(rt; host.out().is_empty(), status != 0);
    }
    Ok(())
}

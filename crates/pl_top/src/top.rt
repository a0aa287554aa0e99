// The top call.
ghost use Rattle.std.specs.Prelude.{◌≡◌, ◌≢◌, Err, map, string_bytes};
ghost use Rattle.pl_base.specs.Outside.{Counts};
ghost use Rattle.pl_words.specs.Ranges.{IsInRange};
ghost use Rattle.pl_words.specs.declared.command.WordError.TheVariants as e;
ghost use Rattle.pl_top.specs.Telling.{HasCauses, Untouched, is_in, is_out, told_of};
ghost use Rattle.pl_top.specs.Words.{asked_of, Returns, Runs, IsBuilt};
ghost use Rattle.pl_top.specs.Calls.{DidCommand, CommandKeeps, PartDone, Promised, IsExactFor};

use crate::commands::{check_file, emit_file, format_file, go_file, replay_file, run_file};
use crate::fetch::{Fault, write_text};
use crate::words::read_command;
use pl_base::{Gate, Host, Memory};
use pl_report::{Refusal, line_of};
use pl_words::{Command, UsageKind, WordError};
use std::alloc::Global;
use std::sync::Wait;
use std::thread::Threads;

// The status of what stopped a command.
fn told(answer: Result<u8, Fault>) -> Result<u8, Memory>
    ensures { result ≡ told_of answer }
{
    match answer {
        Ok(status) => Ok(status),
        Err(Fault::In) => Ok(4),
        Err(Fault::Out) => Ok(5),
        Err(Fault::Memory) => Err(Memory),
    }
}

// Answers a command, or says what stopped it.
fn check_answer<H: Host>(alloc: Global, command: &Command, host: &mut H) -> Result<u8, Fault>
    requires { Returns command.now }
    ensures does { DidCommand command.now (H.files host.old) (H.files host.new) (H.input host.old) (H.input host.new) (H.out host.old) (H.out host.new) result }
    ensures in_faults { Counts (is_in result) (H.in_faults host.old) (H.in_faults host.new) }
    ensures out_faults { Counts (is_out result) (H.out_faults host.old) (H.out_faults host.new) }
{
    match command {
        Command::Check(source, _) => check_file(alloc, source.text(), host),
        Command::Emit(source, name) => emit_file(alloc, source.text(), name.text(), host),
        Command::Fmt(source) => format_file(alloc, source.text(), host),
        Command::Replay(name, history) => replay_file(alloc, name.text(), history.text(), host),
        _ => unreachable!(),
    }
}

/// Answers `check`, `emit`, `fmt` or `replay`. It takes no lock, and always returns.
///
/// `check` is done by one worker, whatever the number of jobs: a file has one function.
///
/// # Errors
///
/// `Memory` where memory is wanted; then no fault was counted.
pub fn check_command<R: Threads + Sync, H: Host, G: Gate>(
    _rt: &R,
    alloc: Global,
    command: &Command,
    host: &mut H,
    _gate: &G,
) -> Result<u8, Memory>
    requires returns { Returns command.now }
    requires in_range { IsInRange command.now }
    ensures { CommandKeeps command.now (H.files host.old) (H.files host.new) (H.input host.old) (H.input host.new) (H.out host.old) (H.out host.new) (H.in_faults host.old) (H.in_faults host.new) (H.out_faults host.old) (H.out_faults host.new) result }
{
    told(check_answer(alloc, command, host))
}

// The same of a command that runs a program.
fn run_answer<R: Threads + Wait + Sync, H: Host, G: Gate>(
    rt: &R,
    alloc: Global,
    command: &Command,
    host: &mut H,
    gate: &G,
) -> Result<u8, Fault>
    requires runs { Runs command.now }
    requires in_range { IsInRange command.now }
    ensures does { DidCommand command.now (H.files host.old) (H.files host.new) (H.input host.old) (H.input host.new) (H.out host.old) (H.out host.new) result }
    ensures in_faults { Counts (is_in result) (H.in_faults host.old) (H.in_faults host.new) }
    ensures out_faults { Counts (is_out result) (H.out_faults host.old) (H.out_faults host.new) }
{
    match command {
        Command::Run(name, opts) => run_file(rt, alloc, name.text(), opts, host, gate),
        Command::Go(source, name, opts) => go_file(
            rt,
            alloc,
            source.text(),
            name.text(),
            opts,
            host,
            gate,
        ),
        _ => unreachable!(),
    }
}

/// Answers `run` or `go`. It may wait for its workers, and its promise holds if it returns.
///
/// # Errors
///
/// `Memory` where memory is wanted; then no fault was counted.
pub fn run_command<R: Threads + Wait + Sync, H: Host, G: Gate>(
    rt: &R,
    alloc: Global,
    command: &Command,
    host: &mut H,
    gate: &G,
) -> Result<u8, Memory>
    requires runs { Runs command.now }
    requires in_range { IsInRange command.now }
    ensures { CommandKeeps command.now (H.files host.old) (H.files host.new) (H.input host.old) (H.input host.new) (H.out host.old) (H.out host.new) (H.in_faults host.old) (H.in_faults host.new) (H.out_faults host.old) (H.out_faults host.new) result }
{
    told(run_answer(rt, alloc, command, host, gate))
}

// Says that the words are refused.
fn refuse_words<H: Host>(alloc: Global, kind: UsageKind, place: u32, host: &mut H) -> u8
    ensures answered { result ≢ 4 → result ≢ 5 → result ≢ 6 → Promised (Err (e.Usage kind place)) (H.files host.old) (H.files host.new) (H.input host.old) (H.input host.new) (H.out host.old) (H.out host.new) result }
    ensures part { PartDone (Err (e.Usage kind place)) (H.files host.old) (H.files host.new) (H.input host.old) (H.input host.new) (H.out host.old) (H.out host.new) }
    ensures untouched { result ≡ 4 → Untouched (H.files host.old) (H.files host.new) (H.out host.old) (H.out host.new) }
    ensures causes { HasCauses result (H.in_faults host.old) (H.in_faults host.new) (H.out_faults host.old) (H.out_faults host.new) }
{
    let Ok(line) = line_of(alloc, &Refusal::Usage(kind, place)) else {
        return 6;
    };
    match write_text(host, line.as_slice()) {
        Ok(()) => 2,
        Err(Fault::In) => 4,
        Err(Fault::Out) => 5,
        Err(Fault::Memory) => 6,
    }
}

// Calls one of the two, by the command.
fn answer<R: Threads + Wait + Sync, H: Host, G: Gate>(
    rt: &R,
    alloc: Global,
    command: &Command,
    host: &mut H,
    gate: &G,
) -> Result<u8, Memory>
    requires built { IsBuilt command.now }
    requires in_range { IsInRange command.now }
    ensures { CommandKeeps command.now (H.files host.old) (H.files host.new) (H.input host.old) (H.input host.new) (H.out host.old) (H.out host.new) (H.in_faults host.old) (H.in_faults host.new) (H.out_faults host.old) (H.out_faults host.new) result }
{
    match command {
        Command::Run(..) | Command::Go(..) => run_command(rt, alloc, command, host, gate),
        _ => check_command(rt, alloc, command, host, gate),
    }
}

/// Reads the words, and answers the command that they give. The answer is the status:
///
/// | Status | Where |
/// |---|---|
/// | 0 | accepted, printed, a run ended, or a history is one of a run |
/// | 1 | a duty is left undone, or a history is none of a run |
/// | 2 | the words are refused |
/// | 3 | a file or the input is refused |
/// | 4 | a take or read failed |
/// | 5 | a put or write failed |
/// | 6 | want of memory |
/// | 7 | a run came to a deadlock |
/// | 8 | a run came to its bound |
/// | 9 | a run of a text of C came to a race or a fault |
/// | 10 | a limit is passed |
pub fn pulse_main<R: Threads + Wait + Sync, H: Host, G: Gate>(
    rt: &R,
    alloc: Global,
    words: &[String],
    host: &mut H,
    gate: &G,
) -> u8
    ensures answered { result ≢ 4 → result ≢ 5 → result ≢ 6 → Promised (asked_of (map string_bytes words.now)) (H.files host.old) (H.files host.new) (H.input host.old) (H.input host.new) (H.out host.old) (H.out host.new) result }
    ensures exact { result ≢ 4 → result ≢ 5 → result ≢ 6 → IsExactFor (asked_of (map string_bytes words.now)) (H.files host.old) (H.input host.old) result }
    ensures part { PartDone (asked_of (map string_bytes words.now)) (H.files host.old) (H.files host.new) (H.input host.old) (H.input host.new) (H.out host.old) (H.out host.new) }
    ensures untouched { result ≡ 4 → Untouched (H.files host.old) (H.files host.new) (H.out host.old) (H.out host.new) }
    ensures causes { HasCauses result (H.in_faults host.old) (H.in_faults host.new) (H.out_faults host.old) (H.out_faults host.new) }
{
    match read_command(alloc, words) {
        Err(WordError::Memory) => 6,
        Err(WordError::Usage(kind, place)) => refuse_words(alloc, kind, place, host),
        Ok(command) => match answer(rt, alloc, &command, host, gate) {
            Ok(status) => status,
            Err(Memory) => 6,
        },
    }
}

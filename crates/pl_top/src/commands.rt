// The commands: what each takes, puts and writes.
ghost use Rattle.std.specs.Prelude.{◌≡◌, true, false, ◌<◌, ◌≤◌, ◌+◌, ◌-◌, ◌^◌, ℕ, IfOk, OnOk, OnErr, length};
ghost use Rattle.std.specs.Io.KnownBytes.{Appends};
ghost use Rattle.pl_base.specs.Outside.{Counts};
ghost use Rattle.c_syntax.specs.Plain.{plain_program};
ghost use Rattle.pl_words.specs.Ranges as range;
ghost use Rattle.pl_words.specs.declared.command.Command.TheVariants as c;
ghost use Rattle.pl_top.specs.Lines as text;
ghost use Rattle.pl_top.specs.Telling.{AppendsPart, AllPut, is_in, is_out};
ghost use Rattle.pl_top.specs.Judging.{IsReadable, put_history};
ghost use Rattle.pl_top.specs.Goes.{CanPut, IsRunOf, HistoryFailed};
ghost use Rattle.pl_top.specs.Calls.{Did, DidCommand};

use crate::fetch::{Fault, Fetched, put_file, read_input, take_file, write_text};
use crate::judge::{PlanError, check_bytes, format_bytes};
use crate::lines;
use crate::plan::{plan_emit, plan_go, plan_replay, plan_run};
use crate::run::run;
use c_history::write_history;
use c_meaning::History;
use c_syntax::CProgram;
use pl_base::{Gate, Host};
use pl_report::{Refusal, line_of};
use pl_words::RunOpts;
use std::alloc::Global;
use std::sync::Wait;
use std::thread::Threads;

// The most bytes of a source file, and of a text of C or a history.
const MOST_SOURCE: u64 = 1_048_576;

const MOST_TEXT: u64 = 268_435_456;

// The most bytes of an input.
const MOST_INPUT: usize = 1_048_576;

// Writes a text, and answers a status.
fn say<H: Host>(host: &mut H, status: u8, text: &[u8]) -> Result<u8, Fault>
    ensures whole { IfOk result (λ s. (s ≡ status) × Appends (H.out host.old) (H.out host.new) text.now) }
    ensures part { OnErr result (AppendsPart (H.out host.old) (H.out host.new) text.now) }
    ensures outward { is_in result ≡ false }
    ensures in_faults { Counts (is_in result) (H.in_faults host.old) (H.in_faults host.new) }
    ensures out_faults { Counts (is_out result) (H.out_faults host.old) (H.out_faults host.new) }
    ensures same { (H.files host.new ≡ H.files host.old) × (H.input host.new ≡ H.input host.old) }
{
    write_text(host, text)?;
    Ok(status)
}

// Says that a file has more bytes than may be.
fn say_too_long<H: Host>(alloc: Global, most: u64, host: &mut H) -> Result<u8, Fault>
    requires { most < 2 ^ 32 }
    ensures whole { IfOk result (λ s. (s ≡ 10) × Appends (H.out host.old) (H.out host.new) (text.limit_file (most + 1))) }
    ensures part { OnErr result (AppendsPart (H.out host.old) (H.out host.new) (text.limit_file (most + 1))) }
    ensures outward { is_in result ≡ false }
    ensures in_faults { Counts (is_in result) (H.in_faults host.old) (H.in_faults host.new) }
    ensures out_faults { Counts (is_out result) (H.out_faults host.old) (H.out_faults host.new) }
    ensures same { (H.files host.new ≡ H.files host.old) × (H.input host.new ≡ H.input host.old) }
{
    let line = line_of(alloc, &Refusal::LimitFile(most + 1))?;
    say(host, 10, line.as_slice())
}

// Says that the input has more bytes than may be.
fn say_long_input<H: Host>(alloc: Global, host: &mut H) -> Result<u8, Fault>
    ensures whole { IfOk result (λ s. (s ≡ 10) × Appends (H.out host.old) (H.out host.new) text.limit_input) }
    ensures part { OnErr result (AppendsPart (H.out host.old) (H.out host.new) text.limit_input) }
    ensures outward { is_in result ≡ false }
    ensures in_faults { Counts (is_in result) (H.in_faults host.old) (H.in_faults host.new) }
    ensures out_faults { Counts (is_out result) (H.out_faults host.old) (H.out_faults host.new) }
    ensures same { (H.files host.new ≡ H.files host.old) × (H.input host.new ≡ H.input host.old) }
{
    let line = line_of(alloc, &Refusal::LimitInput(MOST_INPUT as u64 + 1))?;
    say(host, 10, line.as_slice())
}

/// `check F`
pub fn check_file<H: Host>(alloc: Global, source: &str, host: &mut H) -> Result<u8, Fault>
    ensures does { (jobs : ℕ) → DidCommand (c.Check source.now jobs) (H.files host.old) (H.files host.new) (H.input host.old) (H.input host.new) (H.out host.old) (H.out host.new) result }
    ensures in_faults { Counts (is_in result) (H.in_faults host.old) (H.in_faults host.new) }
    ensures out_faults { Counts (is_out result) (H.out_faults host.old) (H.out_faults host.new) }
{
    let file = take_file(host, source, MOST_SOURCE)?;
    let Fetched::Bytes(bytes) = file else {
        return say_too_long(alloc, MOST_SOURCE, host);
    };
    match check_bytes(alloc, bytes.as_slice()) {
        Ok(_) => say(host, 0, lines::accepted()),
        Err(PlanError::Refused(answer)) => say(host, answer.status, answer.text.as_slice()),
        Err(PlanError::Memory) => Err(Fault::Memory),
    }
}

/// `fmt F`
pub fn format_file<H: Host>(alloc: Global, source: &str, host: &mut H) -> Result<u8, Fault>
    ensures does { DidCommand (c.Fmt source.now) (H.files host.old) (H.files host.new) (H.input host.old) (H.input host.new) (H.out host.old) (H.out host.new) result }
    ensures in_faults { Counts (is_in result) (H.in_faults host.old) (H.in_faults host.new) }
    ensures out_faults { Counts (is_out result) (H.out_faults host.old) (H.out_faults host.new) }
{
    let file = take_file(host, source, MOST_SOURCE)?;
    let Fetched::Bytes(bytes) = file else {
        return say_too_long(alloc, MOST_SOURCE, host);
    };
    match format_bytes(alloc, bytes.as_slice()) {
        Ok(answer) => say(host, answer.status, answer.text.as_slice()),
        Err(PlanError::Refused(answer)) => say(host, answer.status, answer.text.as_slice()),
        Err(PlanError::Memory) => Err(Fault::Memory),
    }
}

/// `emit F -o C`
pub fn emit_file<H: Host>(
    alloc: Global,
    source: &str,
    name: &str,
    host: &mut H,
) -> Result<u8, Fault>
    ensures does { DidCommand (c.Emit source.now name.now) (H.files host.old) (H.files host.new) (H.input host.old) (H.input host.new) (H.out host.old) (H.out host.new) result }
    ensures in_faults { Counts (is_in result) (H.in_faults host.old) (H.in_faults host.new) }
    ensures out_faults { Counts (is_out result) (H.out_faults host.old) (H.out_faults host.new) }
{
    let file = take_file(host, source, MOST_SOURCE)?;
    let Fetched::Bytes(bytes) = file else {
        return say_too_long(alloc, MOST_SOURCE, host);
    };
    match plan_emit(alloc, bytes.as_slice()) {
        Ok(emitted) => {
            put_file(host, name, emitted.text.as_slice())?;
            say(host, 0, lines::accepted())
        }
        Err(PlanError::Refused(answer)) => say(host, answer.status, answer.text.as_slice()),
        Err(PlanError::Memory) => Err(Fault::Memory),
    }
}

// Puts the history of a run into its file, if it has one.
fn keep_history<H: Host>(
    alloc: Global,
    opts: &RunOpts,
    history: &History,
    host: &mut H,
) -> Result<(), Fault>
    requires { length history.now.events < 2 ^ 32 - 1 }
    ensures readable { OnOk result (IsReadable opts.now.history history.now.events) }
    ensures puts { OnOk result (AllPut (put_history opts.now.history history.now.events) (H.files host.old) (H.files host.new)) }
    ensures failed { OnErr result (HistoryFailed opts.now.history history.now.events (H.files host.old) (H.files host.new)) }
    ensures outward { is_in result ≡ false }
    ensures in_faults { Counts (is_in result) (H.in_faults host.old) (H.in_faults host.new) }
    ensures out_faults { Counts (is_out result) (H.out_faults host.old) (H.out_faults host.new) }
    ensures same { (H.input host.new ≡ H.input host.old) × (H.out host.new ≡ H.out host.old) }
{
    let Some(name) = &opts.history else {
        return Ok(());
    };
    let text = write_history(alloc, history)?;
    put_file(host, name.text(), text.as_slice())
}

// Runs a program, puts the history of the run, and writes what it printed and how it ended.
fn run_program<R: Threads + Wait + Sync, H: Host, G: Gate>(
    rt: &R,
    alloc: Global,
    program: &CProgram,
    numbers: &[i64],
    opts: &RunOpts,
    host: &mut H,
    gate: &G,
) -> Result<u8, Fault>
    requires { range.IsRun opts.now }
    ensures does { Did (CanPut (plain_program program.now) numbers.now opts.now) (IsRunOf (plain_program program.now) numbers.now opts.now) (H.files host.old) (H.files host.new) (H.out host.old) (H.out host.new) result }
    ensures outward { is_in result ≡ false }
    ensures in_faults { Counts (is_in result) (H.in_faults host.old) (H.in_faults host.new) }
    ensures out_faults { Counts (is_out result) (H.out_faults host.old) (H.out_faults host.new) }
    ensures same { H.input host.new ≡ H.input host.old }
{
    let done = run(rt, alloc, program, numbers, opts, gate)?;
    keep_history(alloc, opts, &done.history, host)?;
    say(host, done.status, done.text.as_slice())
}

/// `go F -o C [--steps N] [--workers W] [--history H]`
pub fn go_file<R: Threads + Wait + Sync, H: Host, G: Gate>(
    rt: &R,
    alloc: Global,
    source: &str,
    name: &str,
    opts: &RunOpts,
    host: &mut H,
    gate: &G,
) -> Result<u8, Fault>
    requires { range.IsRun opts.now }
    ensures does { DidCommand (c.Go source.now name.now opts.now) (H.files host.old) (H.files host.new) (H.input host.old) (H.input host.new) (H.out host.old) (H.out host.new) result }
    ensures in_faults { Counts (is_in result) (H.in_faults host.old) (H.in_faults host.new) }
    ensures out_faults { Counts (is_out result) (H.out_faults host.old) (H.out_faults host.new) }
{
    let file = take_file(host, source, MOST_SOURCE)?;
    let Fetched::Bytes(bytes) = file else {
        return say_too_long(alloc, MOST_SOURCE, host);
    };
    let input = read_input(alloc, host, MOST_INPUT)?;
    let Fetched::Bytes(input) = input else {
        return say_long_input(alloc, host);
    };
    match plan_go(alloc, bytes.as_slice(), input.as_slice()) {
        Ok((emitted, numbers)) => {
            put_file(host, name, emitted.text.as_slice())?;
            run_program(
                rt,
                alloc,
                &emitted.program,
                numbers.as_slice(),
                opts,
                host,
                gate,
            )
        }
        Err(PlanError::Refused(answer)) => say(host, answer.status, answer.text.as_slice()),
        Err(PlanError::Memory) => Err(Fault::Memory),
    }
}

/// `run C [--steps N] [--workers W] [--history H]`
pub fn run_file<R: Threads + Wait + Sync, H: Host, G: Gate>(
    rt: &R,
    alloc: Global,
    name: &str,
    opts: &RunOpts,
    host: &mut H,
    gate: &G,
) -> Result<u8, Fault>
    requires { range.IsRun opts.now }
    ensures does { DidCommand (c.Run name.now opts.now) (H.files host.old) (H.files host.new) (H.input host.old) (H.input host.new) (H.out host.old) (H.out host.new) result }
    ensures in_faults { Counts (is_in result) (H.in_faults host.old) (H.in_faults host.new) }
    ensures out_faults { Counts (is_out result) (H.out_faults host.old) (H.out_faults host.new) }
{
    let file = take_file(host, name, MOST_TEXT)?;
    let Fetched::Bytes(bytes) = file else {
        return say_too_long(alloc, MOST_TEXT, host);
    };
    let input = read_input(alloc, host, MOST_INPUT)?;
    let Fetched::Bytes(input) = input else {
        return say_long_input(alloc, host);
    };
    match plan_run(alloc, bytes.as_slice(), input.as_slice()) {
        Ok((program, numbers)) => run_program(
            rt,
            alloc,
            &program,
            numbers.as_slice(),
            opts,
            host,
            gate,
        ),
        Err(PlanError::Refused(answer)) => say(host, answer.status, answer.text.as_slice()),
        Err(PlanError::Memory) => Err(Fault::Memory),
    }
}

/// `replay C H`
pub fn replay_file<H: Host>(
    alloc: Global,
    name: &str,
    history: &str,
    host: &mut H,
) -> Result<u8, Fault>
    ensures does { DidCommand (c.Replay name.now history.now) (H.files host.old) (H.files host.new) (H.input host.old) (H.input host.new) (H.out host.old) (H.out host.new) result }
    ensures in_faults { Counts (is_in result) (H.in_faults host.old) (H.in_faults host.new) }
    ensures out_faults { Counts (is_out result) (H.out_faults host.old) (H.out_faults host.new) }
{
    let text = take_file(host, name, MOST_TEXT)?;
    let Fetched::Bytes(bytes) = text else {
        return say_too_long(alloc, MOST_TEXT, host);
    };
    let events = take_file(host, history, MOST_TEXT)?;
    let Fetched::Bytes(events) = events else {
        return say_too_long(alloc, MOST_TEXT, host);
    };
    let input = read_input(alloc, host, MOST_INPUT)?;
    let Fetched::Bytes(input) = input else {
        return say_long_input(alloc, host);
    };
    match plan_replay(alloc, bytes.as_slice(), events.as_slice(), input.as_slice()) {
        Ok(answer) => say(host, answer.status, answer.text.as_slice()),
        Err(PlanError::Refused(answer)) => say(host, answer.status, answer.text.as_slice()),
        Err(PlanError::Memory) => Err(Fault::Memory),
    }
}

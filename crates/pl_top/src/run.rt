// Runs of a C program.
ghost use Rattle.std.specs.Prelude.{◌≡◌, ◌≤◌, ◌<◌, ◌-◌, ◌^◌, ◌++◌, [], IfOk, OnOk, length, flat_map};
ghost use Rattle.c_syntax.specs.Plain.{plain_program};
ghost use Rattle.pl_words.specs.Ranges as range;
ghost use Rattle.pl_top.specs.Lines.{outputs_text, number_line};
ghost use Rattle.pl_top.specs.Judging as judging;
ghost use Rattle.pl_top.specs.Runs.{IsDone, printed_line};

use crate::lines;
use c_meaning::{Action, Event, History};
use c_runner::{Ran, RunEnd, run_threads};
use c_syntax::CProgram;
use pl_base::{Gate, Memory};
use pl_words::RunOpts;
use std::alloc::Global;
use std::sync::Wait;
use std::thread::Threads;

/// A run that is over: its status, what it prints, and its history.
#[derive(Drop)]
pub struct Done {
    pub status: u8,
    pub text: Vec<u8>,
    pub history: History,
}

// A number goes out where one was printed.
fn put_event(alloc: Global, text: &mut Vec<u8>, event: &Event) -> Result<(), Memory>
    ensures { OnOk result (text.new.items ≡ text.old.items ++ printed_line event.now) }
{
    match event.action {
        Action::Print(number) => {
            let line = lines::number_line(alloc, number)?;
            text.extend_from_slice(line.as_slice())?;
            Ok(())
        }
        _ => Ok(()),
    }
}

fn outputs(alloc: Global, events: &[Event]) -> Result<Vec<u8>, Memory>
    ensures { IfOk result (λ text. text.items ≡ flat_map printed_line events.now) }
{
    let mut text = Vec::new(alloc);
    for event in events {
        put_event(alloc, &mut text, event)?;
    }
    Ok(text)
}

fn status_of(end: RunEnd) -> u8
    ensures { result ≡ judging.status_of end }
{
    match end {
        RunEnd::Ended => 0,
        RunEnd::Deadlock => 7,
        RunEnd::StepBound => 8,
        RunEnd::Race(_, _, _) | RunEnd::CFault(_, _) => 9,
        RunEnd::ThreadLimit => 10,
    }
}

/// Runs a program.
pub fn run<R: Threads + Wait + Sync, G: Gate>(
    rt: &R,
    alloc: Global,
    program: &CProgram,
    numbers: &[i64],
    opts: &RunOpts,
    gate: &G,
) -> Result<Done, Memory>
    requires { range.IsRun opts.now }
    ensures done { IfOk result (IsDone (plain_program program.now) numbers.now opts.now) }
    ensures few { IfOk result (λ d. length d.history.events < 2 ^ 32 - 1) }
{
    let Ran { end, history } = run_threads(
        rt,
        alloc,
        program,
        numbers,
        opts.steps,
        opts.workers,
        gate,
    )?;
    let events = history.events.as_slice();
    let mut text = outputs(alloc, events)?;
    let line = lines::end_line(alloc, end, events.len() as u32)?;
    text.extend_from_slice(line.as_slice())?;
    Ok(Done {
        status: status_of(end),
        text,
        history,
    })
}

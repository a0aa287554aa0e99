// What is done with the bytes of files and of an input.
ghost use Rattle.std.specs.Prelude.{◌≡◌, ◌<◌, ◌≤◌, ◌-◌, ◌^◌, List, ℕ, Ok, IfOk, IfErr, length};
ghost use Rattle.c_syntax.specs.Plain.{plain_program};
ghost use Rattle.pl_words.specs.declared.command.RunOpts.{RunOpts};
ghost use Rattle.pl_top.specs.Input.{input_of};
ghost use Rattle.pl_top.specs.Judging.{Refuses, IsCOf, RefusesC, IsHistoryOf, RefusesHistory, RefusesInput, JudgesGo, JudgesRun, JudgesReplay};
ghost use Rattle.pl_top.specs.Checks.{said, IfRefused};
ghost use Rattle.pl_top.specs.Goes.{IsProgramOf, IsReplayOf};

use crate::emit::{Emitted, emit};
use crate::input::{InputError, read_numbers};
use crate::judge::{Answer, PlanError, check_bytes};
use crate::lines;
use c_history::{HistoryError, Replayed, read_history, replay};
use c_meaning::History;
use c_reader::{ReadCError, read_c};
use c_syntax::CProgram;
use pl_base::Memory;
use pl_files::names_are_proper;
use pl_report::{Refusal, line_of};
use std::alloc::Global;

// The C program of which the bytes are the text.
fn c_of(alloc: Global, bytes: &[u8]) -> Result<CProgram, PlanError>
    requires { length bytes.now ≤ 268435456 }
    ensures is { IfOk result (λ c. IsCOf bytes.now (plain_program c)) }
    ensures refused { IfErr result (λ e. IfRefused e (RefusesC bytes.now)) }
{
    match read_c(alloc, bytes) {
        Ok(program) => Ok(program),
        Err(ReadCError::NotFragment(byte)) => {
            let text = line_of(alloc, &Refusal::CByte(byte))?;
            Err(PlanError::Refused(Answer { status: 3, text }))
        }
        Err(ReadCError::Memory) => Err(PlanError::Memory),
    }
}

// The history of which the bytes are the text.
fn history_of(alloc: Global, bytes: &[u8]) -> Result<History, PlanError>
    requires { length bytes.now ≤ 268435456 }
    ensures is { IfOk result (IsHistoryOf bytes.now) }
    ensures few { IfOk result (λ h. length h.events < 2 ^ 32 - 1) }
    ensures refused { IfErr result (λ e. IfRefused e (RefusesHistory bytes.now)) }
{
    match read_history(alloc, bytes) {
        Ok(history) => Ok(history),
        Err(HistoryError::BadHistory(line)) => {
            let text = line_of(alloc, &Refusal::HistoryLine(line))?;
            Err(PlanError::Refused(Answer { status: 3, text }))
        }
        Err(HistoryError::Memory) => Err(PlanError::Memory),
    }
}

// The numbers of an input.
fn numbers_of(alloc: Global, input: &[u8]) -> Result<Vec<i64>, PlanError>
    requires { length input.now ≤ 1048576 }
    ensures are { IfOk result (λ numbers. input_of input.now ≡ Ok numbers.items) }
    ensures refused { IfErr result (λ e. IfRefused e (RefusesInput input.now)) }
{
    match read_numbers(alloc, input) {
        Ok(numbers) => Ok(numbers),
        Err(InputError::Line(line)) => {
            let text = line_of(alloc, &Refusal::InputLine(line))?;
            Err(PlanError::Refused(Answer { status: 3, text }))
        }
        Err(InputError::Memory) => Err(PlanError::Memory),
    }
}

/// What `emit` puts, by a file's bytes.
pub fn plan_emit(alloc: Global, bytes: &[u8]) -> Result<Emitted, PlanError>
    requires { length bytes.now ≤ 1048576 }
    ensures emits { IfOk result (IsProgramOf bytes.now) }
    ensures refused { IfErr result (λ e. IfRefused e (Refuses bytes.now)) }
{
    let straight = check_bytes(alloc, bytes)?;
    names_are_proper();
    Ok(emit(alloc, &straight)?)
}

/// What `go` puts and runs, and on which numbers, by a file's bytes and an input's.
pub fn plan_go(alloc: Global, bytes: &[u8], input: &[u8]) -> Result<(Emitted, Vec<i64>), PlanError>
    requires bytes { length bytes.now ≤ 1048576 }
    requires input { length input.now ≤ 1048576 }
    ensures goes { IfOk result (λ x. IsProgramOf bytes.now x.0 × (input_of input.now ≡ Ok x.1.items)) }
    ensures refused { (name : List ℕ) (opts : RunOpts) → IfErr result (λ e. IfRefused e (JudgesGo bytes.now name opts input.now)) }
{
    let emitted = plan_emit(alloc, bytes)?;
    let numbers = numbers_of(alloc, input)?;
    Ok((emitted, numbers))
}

/// What `run` runs, and on which numbers, by the bytes of a text of C and an input's.
pub fn plan_run(
    alloc: Global,
    bytes: &[u8],
    input: &[u8],
) -> Result<(CProgram, Vec<i64>), PlanError>
    requires bytes { length bytes.now ≤ 268435456 }
    requires input { length input.now ≤ 1048576 }
    ensures runs { IfOk result (λ x. IsCOf bytes.now (plain_program x.0) × (input_of input.now ≡ Ok x.1.items)) }
    ensures refused { (opts : RunOpts) → IfErr result (λ e. IfRefused e (JudgesRun bytes.now opts input.now)) }
{
    let program = c_of(alloc, bytes)?;
    let numbers = numbers_of(alloc, input)?;
    Ok((program, numbers))
}

// Follows a history.
fn replay_answer(
    alloc: Global,
    program: &CProgram,
    numbers: &[i64],
    history: &History,
) -> Result<Answer, Memory>
    requires { length history.now.events < 2 ^ 32 - 1 }
    ensures { IfOk result (λ a. IsReplayOf (plain_program program.now) numbers.now history.now.events (said a)) }
{
    match replay(alloc, program, numbers, history)? {
        Replayed::Follows => {
            let text = lines::follows_line(alloc, history.events.as_slice().len() as u32)?;
            Ok(Answer { status: 0, text })
        }
        Replayed::Differs(k, expected, found) => {
            let text = lines::differs_line(alloc, k, &expected, &found)?;
            Ok(Answer { status: 1, text })
        }
    }
}

/// What `replay` says, by the bytes of a text of C, of a history and of an input.
pub fn plan_replay(
    alloc: Global,
    bytes: &[u8],
    events: &[u8],
    input: &[u8],
) -> Result<Answer, PlanError>
    requires bytes { length bytes.now ≤ 268435456 }
    requires events { length events.now ≤ 268435456 }
    requires input { length input.now ≤ 1048576 }
    ensures answer { IfOk result (λ a. JudgesReplay bytes.now events.now input.now (said a)) }
    ensures refused { IfErr result (λ e. IfRefused e (JudgesReplay bytes.now events.now input.now)) }
{
    let program = c_of(alloc, bytes)?;
    let history = history_of(alloc, events)?;
    let numbers = numbers_of(alloc, input)?;
    Ok(replay_answer(alloc, &program, numbers.as_slice(), &history)?)
}

//! The text of events and of histories.

ghost use Rattle.std.specs.Prelude.{◌≡◌, ◌++◌, ◌<◌, ◌-◌, ◌^◌, List, ℕ, Vec, IfOk, OnOk, codes, length, flat_map, decimal, FitsSigned};
ghost use Rattle.std.specs.Fmt.{signed_decimal};
ghost use Rattle.std.specs.Int.{w64};
ghost use Rattle.std.specs.List.{AllByRecursion};
ghost use Rattle.c_history.specs.Bounds as bounds;
ghost use Rattle.c_history.specs.Text as text;
ghost use Rattle.c_history.specs.Adds.{Adds};

use c_meaning::{Action, Event, History};
use itoa::Buffer;
use pl_base::Memory;
use pl_resource::{Cell, Value};
use std::alloc::Global;

fn put(out: &mut Vec<u8>, text: &[u8]) -> Result<(), Memory>
    ensures { Adds result out.old out.new text.now }
{
    out.extend_from_slice(text)?;
    Ok(())
}

fn put_number(out: &mut Vec<u8>, n: u32) -> Result<(), Memory>
    ensures text { Adds result out.old out.new (decimal n) }
    ensures within { OnOk result (bounds.IsU32 n) }
{
    let mut buffer = Buffer::new();
    put(out, buffer.format(n).as_bytes())
}

fn put_signed(out: &mut Vec<u8>, n: i64) -> Result<(), Memory>
    ensures text { Adds result out.old out.new (signed_decimal n) }
    ensures within { OnOk result (FitsSigned w64 n) }
{
    let mut buffer = Buffer::new();
    put(out, buffer.format(n).as_bytes())
}

fn put_truth(out: &mut Vec<u8>, b: bool) -> Result<(), Memory>
    ensures { Adds result out.old out.new (text.truth_text b) }
{
    if b {
        put(out, b"true")
    } else {
        put(out, b"false")
    }
}

/// Adds a word and a number behind it.
fn put_numbered(out: &mut Vec<u8>, word: &[u8], n: u32) -> Result<(), Memory>
    ensures text { Adds result out.old out.new (word.now ++ decimal n) }
    ensures within { OnOk result (bounds.IsU32 n) }
{
    put(out, word)?;
    put_number(out, n)
}

fn put_cell(out: &mut Vec<u8>, cell: &Cell) -> Result<(), Memory>
    ensures text { Adds result out.old out.new (text.cell_text cell.now) }
    ensures within { OnOk result (bounds.IsCellWithin cell.now) }
{
    put_numbered(out, b"b", cell.block)?;
    put_numbered(out, b".", cell.index)?;
    put_numbered(out, b".", cell.field)
}

fn put_value(out: &mut Vec<u8>, value: &Value) -> Result<(), Memory>
    ensures text { Adds result out.old out.new (text.value_text value.now) }
    ensures within { OnOk result (bounds.IsValueWithin value.now) }
{
    match *value {
        Value::Int(n) => put_signed(out, n),
        Value::Truth(b) => put_truth(out, b),
        Value::Null => put(out, b"null"),
        Value::Block(block) => put_numbered(out, b"b", block),
        Value::Lock(lock) => put_numbered(out, b"k", lock),
    }
}

/// Adds a word, a cell and a value.
fn put_access(out: &mut Vec<u8>, word: &[u8], cell: &Cell, value: &Value) -> Result<(), Memory>
    ensures text { Adds result out.old out.new (word.now ++ text.cell_text cell.now ++ codes " " ++ text.value_text value.now) }
    ensures within { OnOk result (bounds.IsCellWithin cell.now × bounds.IsValueWithin value.now) }
{
    put(out, word)?;
    put_cell(out, cell)?;
    put(out, b" ")?;
    put_value(out, value)
}

/// Adds a compare-and-swap.
fn put_swap(out: &mut Vec<u8>, cell: &Cell, seen: i64, stored: bool) -> Result<(), Memory>
    ensures text { Adds result out.old out.new (codes "cas " ++ text.cell_text cell.now ++ codes " " ++ signed_decimal seen ++ codes " " ++ text.truth_text stored) }
    ensures within { OnOk result (bounds.IsCellWithin cell.now × FitsSigned w64 seen) }
{
    put_access(out, b"cas ", cell, &Value::Int(seen))?;
    put(out, b" ")?;
    put_truth(out, stored)
}

fn put_alloc(out: &mut Vec<u8>, block: u32, count: u32) -> Result<(), Memory>
    ensures text { Adds result out.old out.new (codes "alloc b" ++ decimal block ++ codes " " ++ decimal count) }
    ensures within { OnOk result (bounds.IsU32 block × bounds.IsU32 count) }
{
    put_numbered(out, b"alloc b", block)?;
    put_numbered(out, b" ", count)
}

fn put_word_signed(out: &mut Vec<u8>, word: &[u8], n: i64) -> Result<(), Memory>
    ensures text { Adds result out.old out.new (word.now ++ signed_decimal n) }
    ensures within { OnOk result (FitsSigned w64 n) }
{
    put(out, word)?;
    put_signed(out, n)
}

fn put_action(out: &mut Vec<u8>, action: &Action) -> Result<(), Memory>
    ensures text { Adds result out.old out.new (text.action_text action.now) }
    ensures within { OnOk result (bounds.IsActionWithin action.now) }
{
    match *action {
        Action::Load(cell, value) => put_access(out, b"load ", &cell, &value),
        Action::Store(cell, value) => put_access(out, b"store ", &cell, &value),
        Action::Cas(cell, seen, stored) => put_swap(out, &cell, seen, stored),
        Action::Alloc(block, count) => put_alloc(out, block, count),
        Action::Free(block) => put_numbered(out, b"free b", block),
        Action::NewLock(lock) => put_numbered(out, b"newlock k", lock),
        Action::Acquire(lock) => put_numbered(out, b"acquire k", lock),
        Action::Release(lock) => put_numbered(out, b"release k", lock),
        Action::FreeLock(lock) => put_numbered(out, b"freelock k", lock),
        Action::Fork(child) => put_numbered(out, b"fork ", child),
        Action::Join(child) => put_numbered(out, b"join ", child),
        Action::Print(n) => put_word_signed(out, b"print ", n),
        Action::Read(n) => put_word_signed(out, b"read ", n),
        Action::Turn => put(out, b"turn"),
        Action::Call(function) => put_numbered(out, b"call ", function),
        Action::Return => put(out, b"return"),
    }
}

fn put_event(out: &mut Vec<u8>, event: &Event) -> Result<(), Memory>
    ensures text { Adds result out.old out.new (text.event_text event.now) }
    ensures within { OnOk result (bounds.IsEventWithin event.now) }
{
    put_number(out, event.tid)?;
    put(out, b" ")?;
    put_action(out, &event.action)
}

/// The line of an event, without the LF that ends it: the thread, a blank and what it did.
pub fn event_line(alloc: Global, event: &Event) -> Result<Vec<u8>, Memory>
    ensures { IfOk result (λ bytes. bytes.items ≡ text.event_text event.now) }
{
    let mut out = Vec::new(alloc);
    put_event(&mut out, event)?;
    Ok(out)
}

fn put_events(out: &mut Vec<u8>, events: &[Event]) -> Result<(), Memory>
    ensures text { Adds result out.old out.new (flat_map text.event_line events.now) }
    ensures within { OnOk result (AllByRecursion bounds.IsEventWithin events.now) }
{
    for event in events {
        put_event(out, event)?;
        put(out, b"\n")?;
    }
    Ok(())
}

/// The text of a history: the first line, a line for each event, and the last line with their count.
#[tactic(auto, unfolding(crate::specs::Text::history_text))]
pub fn write_history(alloc: Global, history: &History) -> Result<Vec<u8>, Memory>
    requires { length history.now.events < 2 ^ 32 - 1 }
    ensures text { IfOk result (λ bytes. bytes.items ≡ text.history_text history.now) }
    ensures within { OnOk result (bounds.IsWithin history.now) }
{
    let events = history.events.as_slice();
    let mut out = Vec::from_slice(alloc, b"pulse-history 1\n")?;
    put_events(&mut out, events)?;
    put_numbered(&mut out, b"end ", events.len() as u32)?;
    put(&mut out, b"\n")?;
    Ok(out)
}

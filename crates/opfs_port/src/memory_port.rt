//! A port in memory.

ghost use Rattle.std.specs.Prelude.{◌≡◌, ◌∷◌, ◌++◌, ◌-◌, ◌^◌, ◌<◌, ◌≤◌, ℕ, List, [], length, map, min, vec_items, if◌then◌else◌, IfOk, OnOk, OnErr, IsErrOf};
ghost use Rattle.opfs_outside.specs.Faults.{Rose};
ghost use Rattle.opfs_port.specs.Counts.{counted, is_named};
ghost use Rattle.opfs_port.specs.Said.{CameIn, WentOut};
ghost use Rattle.opfs_port.specs.Shown.{word_of, word_by, is_answer, text_of, memory_said, memory_rest, memory_fails, memory_calls, memory_faults};

use crate::port::{Heard, Port, PortFault};
use opfs_hall::Told;
use std::alloc::{AllocError, Global};

/// A line that was heard, or one that was told with what stood then.
pub struct Spoken<T> {
    line: Vec<u8>,
    at: Option<Told<T>>,
}

impl<T> Spoken<T> {
    /// Whether it was told.
    pub fn is_told(&self) -> bool
        ensures { result ≡ is_answer (word_of self.now) }
    {
        self.at.is_some()
    }

    /// The line, without a line feed.
    pub fn line(&self) -> &[u8]
        ensures { result.now ≡ text_of (word_of self.now) }
    {
        self.line.as_slice()
    }
}

impl<T> Drop for Spoken<T> {
    fn drop(self) {
        let Self { line: _, at: _ } = self;
    }
}

/// Lines in memory that are heard in their order, and all that was heard and told. Its calls are numbered from 1; it fails exactly at
/// the numbers that it was given, and where there is no memory.
pub struct MemoryPort<T> {
    alloc: Global,
    lines: Vec<Vec<u8>>,
    next: usize,
    spoken: Vec<Spoken<T>>,
    fails: Vec<u64>,
    calls: u64,
    faults: u64,
}

impl<T> Drop for MemoryPort<T> {
    fn drop(self) {
        let Self {
            alloc: _,
            lines: _,
            next: _,
            spoken: _,
            fails: _,
            calls: _,
            faults: _,
        } = self;
    }
}

impl<T> MemoryPort<T> {
    /// A port to which these lines come, and whose calls of these numbers fail. Takes no memory.
    pub fn make(alloc: Global, lines: Vec<Vec<u8>>, fails: Vec<u64>) -> MemoryPort<T>
        ensures said { memory_said result ≡ [] }
        ensures rest { memory_rest result ≡ map vec_items lines.items }
        ensures fails { memory_fails result ≡ fails.items }
        ensures calls { memory_calls result ≡ 0 }
        ensures faults { memory_faults result ≡ 0 }
    {
        MemoryPort {
            alloc,
            lines,
            next: 0,
            spoken: Vec::new(alloc),
            fails,
            calls: 0,
            faults: 0,
        }
    }

    /// All that was heard and told, in order.
    pub fn spoken(&self) -> &[Spoken<T>]
        ensures { map word_of result.now ≡ memory_said self.now }
    {
        self.spoken.as_slice()
    }

    /// How many calls failed. At 2^64 - 1 it stands still.
    pub fn faults(&self) -> u64
        ensures { result ≡ memory_faults self.now }
    {
        self.faults
    }

    /// Counts a call, and answers whether it is one that fails.
    fn begin(&mut self) -> bool
        ensures named { result ≡ is_named (memory_fails self.old) (counted (memory_calls self.old)) }
        ensures calls { memory_calls self.new ≡ counted (memory_calls self.old) }
        ensures faults { memory_faults self.new ≡ (if result then counted (memory_faults self.old) else memory_faults self.old) }
        ensures fails { memory_fails self.new ≡ memory_fails self.old }
        ensures said { memory_said self.new ≡ memory_said self.old }
        ensures rest { memory_rest self.new ≡ memory_rest self.old }
    {
        self.calls = self.calls.saturating_add(1);
        if self.fails.contains(&self.calls) {
            self.faults = self.faults.saturating_add(1);
            return true;
        }
        false
    }

    /// Keeps what was said.
    fn keep(&mut self, line: Vec<u8>, at: Option<Told<T>>) -> Result<(), AllocError>
        ensures said { OnOk result (memory_said self.new ≡ memory_said self.old ++ word_by line.items at ∷ []) }
        ensures none { OnErr result (memory_said self.new ≡ memory_said self.old) }
        ensures rest { memory_rest self.new ≡ memory_rest self.old }
        ensures faults { memory_faults self.new ≡ memory_faults self.old }
        ensures next { (self.new.next ≡ self.old.next) × (self.new.lines ≡ self.old.lines) }
    {
        match self.spoken.push(Spoken { line, at }) {
            Ok(()) => Ok(()),
            Err(_) => Err(AllocError),
        }
    }

    /// Hears the next line.
    fn hear_next(&mut self, line: &mut Vec<u8>, most: usize) -> Result<Heard, AllocError>
        requires { line.old.items ≡ [] }
        ensures came { IfOk result (λ h. h ≡ Heard.Line
            → CameIn line.new.items (memory_said self.old) (memory_said self.new) (memory_rest self.old) (memory_rest self.new)) }
        ensures short { IfOk result (λ h. h ≡ Heard.Line → length line.new.items ≤ most) }
        ensures long { IfOk result (λ h. h ≡ Heard.TooLong → (text : List ℕ) × (most < length text)
            × CameIn text (memory_said self.old) (memory_said self.new) (memory_rest self.old) (memory_rest self.new)) }
        ensures dropped { IfOk result (λ h. h ≡ Heard.TooLong → line.new.items ≡ []) }
        ensures end { IfOk result (λ h. h ≡ Heard.End
            → (memory_said self.new ≡ memory_said self.old) × (memory_rest self.old ≡ []) × (memory_rest self.new ≡ [])) }
        ensures stays { OnErr result ((memory_said self.new ≡ memory_said self.old) × (memory_rest self.new ≡ memory_rest self.old)) }
        ensures faults { memory_faults self.new ≡ memory_faults self.old }
    {
        if self.next >= self.lines.len() {
            return Ok(Heard::End);
        }
        let text = self.lines[self.next].to_vec(self.alloc)?;
        let heard = hand_over(text.as_slice(), line, most)?;
        self.keep(text, None)?;
        self.next += 1;
        Ok(heard)
    }
}

/// Puts a line into `line`, unless it is too long.
fn hand_over(text: &[u8], line: &mut Vec<u8>, most: usize) -> Result<Heard, AllocError>
    requires { line.old.items ≡ [] }
    ensures line { IfOk result (λ h. h ≡ Heard.Line → (line.new.items ≡ text.now) × (length text.now ≤ most)) }
    ensures long { IfOk result (λ h. h ≡ Heard.TooLong → (line.new.items ≡ []) × (most < length text.now)) }
    ensures end { IfOk result (λ h. h ≡ Heard.End → ⊥) }
{
    if text.len() > most {
        return Ok(Heard::TooLong);
    }
    line.extend_from_slice(text)?;
    Ok(Heard::Line)
}

impl<T> Port<T> for MemoryPort<T> {
    ghost tells = { Unit {0} };

    ghost said = { memory_said };

    ghost rest = { memory_rest };

    ghost faults = { memory_faults };

    fn hear(&mut self, line: &mut Vec<u8>, most: usize) -> Result<Heard, PortFault> {
        line.clear();
        if self.begin() {
            return Err(PortFault::Stream);
        }
        let heard = self.hear_next(line, most)?;
        Ok(heard)
    }

    fn tell(&mut self, line: &[u8], at: Told<T>) -> Result<(), PortFault>
        ensures went { OnOk result (WentOut line.now at.value (memory_said self.old) (memory_said self.new)) }
        ensures may_have { OnErr result (memory_said self.new ≡ memory_said self.old) }
        ensures stays { memory_rest self.new ≡ memory_rest self.old }
        ensures later { memory_faults self.old ≤ memory_faults self.new }
        ensures cause { IsErrOf result PortFault.Stream → Rose (memory_faults self.old) (memory_faults self.new) }
    {
        if self.begin() {
            return Err(PortFault::Stream);
        }
        let line = line.to_vec(self.alloc)?;
        self.keep(line, Some(at))?;
        Ok(())
    }

    ghost use Rattle.opfs_port.specs.Counts.{capped};

    ghost counted = { λ port. capped port.faults };
}

//! A conversation at a port: each line's answer is told before the next line is heard.

ghost use Rattle.std.specs.Prelude.{◌≡◌, ◌<◌, ◌≤◌, ℕ, List, [], false, true, length, IfOk, OnErr, IsErrOf};
ghost use Rattle.opfs_outside.specs.Faults.{Rose};
ghost use Rattle.opfs_port.specs.Sessions.{Conversed, BrokeOff};

use crate::port::{Heard, Port, PortFault};
use opfs_hall::Told;
use std::alloc::{AllocError, Global};

/// What answers lines.
pub trait Session<T> {
    /// What a line, its answer, and what stands when the answer is told are from one state to the next.
    ghost step: { Self → List ℕ → List ℕ → T → Self → Type 0 };

    /// What is left of a state where there was no memory for an answer.
    ghost stop: { Self → Self → Type 0 };

    /// Answers a line, and remembers what stands then.
    fn answer(&mut self, line: &[u8], out: &mut Vec<u8>) -> Result<Told<T>, AllocError>
        requires { out.old.items ≡ [] }
        ensures stopped { OnErr result (stop self.old self.new) }
        ensures answered { IfOk result (λ at. step self.old line.now out.new.items at.value self.new) };

    /// Answers a line of more than `most` bytes, of which nothing is known, and remembers what stands then.
    fn answer_long(&mut self, most: usize, out: &mut Vec<u8>) -> Result<Told<T>, AllocError>
        requires { out.old.items ≡ [] }
        ensures stopped { OnErr result (stop self.old self.new) }
        ensures answered { IfOk result (λ at. (line : List ℕ) → most < length line → step self.old line out.new.items at.value self.new) };
}

/// Hears a line of `most` bytes at most and tells its answer. False is the end.
fn turn<T, P: Port<T>, S: Session<T>>(
    alloc: Global,
    port: &mut P,
    session: &mut S,
    most: usize,
) -> Result<bool, PortFault>
    ensures talk { IfOk result (λ more. P.tells → Conversed S.step session.old session.new (P.said port.old) (P.said port.new) (P.rest port.old) (P.rest port.new)) }
    ensures end { IfOk result (λ more. more ≡ false → P.tells → P.rest port.new ≡ []) }
    ensures broke { OnErr result (P.tells → BrokeOff S.step S.stop session.old session.new (P.said port.old) (P.said port.new) (P.rest port.old) (P.rest port.new)) }
    ensures later { P.faults port.old ≤ P.faults port.new }
    ensures cause { IsErrOf result PortFault.Stream → Rose (P.faults port.old) (P.faults port.new) }
{
    let mut line = Vec::new(alloc);
    let mut out = Vec::new(alloc);
    match port.hear(&mut line, most)? {
        Heard::Line => {
            let at = session.answer(line.as_slice(), &mut out)?;
            port.tell(out.as_slice(), at)?;
            Ok(true)
        }
        Heard::TooLong => {
            let now = session.answer_long(most, &mut out)?;
            port.tell(out.as_slice(), now)?;
            Ok(true)
        }
        Heard::End => Ok(false),
    }
}

/// Answers each line before the next is heard, to the end: then it is true, and false after more lines than a number counts.
pub fn converse<T, P: Port<T>, S: Session<T>>(
    alloc: Global,
    port: &mut P,
    session: &mut S,
    most: usize,
) -> Result<bool, PortFault>
    ensures talk { IfOk result (λ whole. P.tells → Conversed S.step session.old session.new (P.said port.old) (P.said port.new) (P.rest port.old) (P.rest port.new)) }
    ensures end { IfOk result (λ whole. whole ≡ true → P.tells → P.rest port.new ≡ []) }
    ensures broke { OnErr result (P.tells → BrokeOff S.step S.stop session.old session.new (P.said port.old) (P.said port.new) (P.rest port.old) (P.rest port.new)) }
    ensures later { P.faults port.old ≤ P.faults port.new }
    ensures cause { IsErrOf result PortFault.Stream → Rose (P.faults port.old) (P.faults port.new) }
{
    for _ in 0..u64::MAX {
        if !turn(alloc, port, session, most)? {
            return Ok(true);
        }
    }
    Ok(false)
}

//! The texts of answers that are no entries.

ghost use Rattle.std.specs.Prelude.{◌≡◌, ◌++◌, IfOk, codes, decimal, string_bytes};
ghost use Rattle.opfs_serving.specs.Lines.{refusal_text};

use crate::refusal::LineRefusal;
use std::alloc::{AllocError, Global};

// Why a line is refused.
fn refusal_text(alloc: Global, why: LineRefusal) -> Result<String, AllocError>
    ensures { IfOk result (λ text. string_bytes text ≡ refusal_text why) }
{
    match why {
        LineRefusal::NotJson => String::from_str(alloc, "NotJson"),
        LineRefusal::BadShape(agent, step) => format!(in alloc; "BadShape {agent} {step}"),
        LineRefusal::UnknownStep(agent, step) => format!(in alloc; "UnknownStep {agent} {step}"),
        LineRefusal::TooMany => String::from_str(alloc, "TooMany"),
        LineRefusal::NoAgent => String::from_str(alloc, "NoAgent"),
        LineRefusal::Waiting => String::from_str(alloc, "Waiting"),
        LineRefusal::Ended => String::from_str(alloc, "Ended"),
    }
}

/// The answer to a line that is refused.
pub fn refusal_line(alloc: Global, why: LineRefusal) -> Result<Vec<u8>, AllocError>
    ensures { IfOk result (λ line. line.items ≡ codes "? " ++ refusal_text why) }
{
    let text = refusal_text(alloc, why)?;
    let mut line = Vec::new(alloc);
    line.extend_from_slice(b"? ")?;
    line.extend_from_slice(text.as_bytes())?;
    Ok(line)
}

/// The first answer: how many agents there are.
pub fn ready_line(alloc: Global, agents: u64) -> Result<String, AllocError>
    ensures { IfOk result (λ line. string_bytes line ≡ codes "ready " ++ decimal agents) }
{
    format!(in alloc; "ready {agents}")
}

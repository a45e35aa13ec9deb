//! What loading tells.

ghost use Rattle.std.specs.Prelude.{◌≡◌, ◌≢◌, IfOk, string_bytes};
ghost use Rattle.opfs_dump.specs.Text.Texts.{loaded_line, refusal_text, refused_line};

use crate::text::refusal::DumpRefusal;
use std::alloc::{AllocError, Global};

/// The line of an image that was made from a text with so many rows.
pub fn loaded_line(alloc: Global, rows: usize) -> Result<String, AllocError>
    ensures { IfOk result (λ text. string_bytes text ≡ loaded_line rows) }
{
    format!(in alloc; "loaded {rows}\n")
}

// Why a text is refused, with its numbers.
fn refusal_text(alloc: Global, why: DumpRefusal) -> Result<String, AllocError>
    requires { why ≢ DumpRefusal.NoMemory }
    ensures { IfOk result (λ text. string_bytes text ≡ refusal_text why) }
{
    match why {
        DumpRefusal::TooLong => String::from_str(alloc, "TooLong"),
        DumpRefusal::NotJson => String::from_str(alloc, "NotJson"),
        DumpRefusal::BadDump(row) => format!(in alloc; "BadDump {row}"),
        DumpRefusal::Full(need, blocks) => format!(in alloc; "Full {need} {blocks}"),
        DumpRefusal::Overfull(charge, area) => format!(in alloc; "Overfull {charge} {area}"),
        DumpRefusal::NoMemory => unreachable!(),
    }
}

/// The line of a refusal. Want of memory has none, and is answered as such.
pub fn refused_line(alloc: Global, why: DumpRefusal) -> Result<String, AllocError>
    ensures line { IfOk result (λ text. string_bytes text ≡ refused_line why) }
    ensures told { why ≡ DumpRefusal.NoMemory → IfOk result (λ text. ⊥) }
{
    if why == DumpRefusal::NoMemory {
        return Err(AllocError);
    }
    let text = refusal_text(alloc, why)?;
    format!(in alloc; "opfs: dump refused: {}\n", text.as_str())
}

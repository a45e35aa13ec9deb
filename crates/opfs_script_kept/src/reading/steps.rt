//! The steps of an agent, one after another.

ghost use Rattle.std.specs.Prelude.{◌≡◌, true, IfOk, IfSome};
ghost use Rattle.opfs_script_kept.specs.Packed.Telling.{steps_told};
ghost use Rattle.opfs_script_kept.specs.Reading.Steps.{AreSteps, IsStep, ManySteps, TakesStep};
ghost use Rattle.opfs_script_kept.specs.Reading.Sums.{IsWithin};

use crate::packed::{Texts, bytes_told};
use crate::reading::sums::Sums;
use crate::reading::value::{Told, read_value};
use json::Reader;
use std::alloc::{AllocError, Global};

/// How deep a step may nest within a text of 127 levels: below the top, its agents, one agent and its steps.
const DEPTH: usize = 123;

/// The text of a step, and how many bytes it writes or asks to read.
#[derive(Drop)]
struct Asking {
    text: Vec<u8>,
    asked: u64,
}

/// The next step of a reader; None where no step stands there.
fn read_step(alloc: Global, reader: &mut Reader<'_>) -> Result<Option<Asking>, AllocError>
    ensures { IfOk result (λ found. IfSome found (λ found. IsStep reader.old reader.new found.text.items found.asked)) }
{
    let Some(Told { text, value }) = read_value(alloc, reader, DEPTH)? else {
        return Ok(None);
    };
    let asked = bytes_told(alloc, &value);
    drop(value);
    match asked? {
        Some(asked) => Ok(Some(Asking { text, asked })),
        None => Ok(None),
    }
}

/// Reads one step, and puts its text behind those before it; false where no step stands there, or too much is asked for.
fn take_step(
    alloc: Global,
    reader: &mut Reader<'_>,
    texts: &mut Texts,
    sums: &mut Sums,
) -> Result<bool, AllocError>
    ensures { IfOk result (λ stands. stands ≡ true → TakesStep reader.old reader.new texts.old texts.new sums.old sums.new) }
{
    let Some(Asking { text, asked }) = read_step(alloc, reader)? else {
        return Ok(false);
    };
    let Some(more) = sums.with(asked) else {
        return Ok(false);
    };
    texts.push(text.as_slice())?;
    *sums = more;
    Ok(true)
}

/// Reads steps up to the bracket that closes them; None where something else stands there, or too much is asked for.
pub fn read_steps(
    alloc: Global,
    reader: &mut Reader<'_>,
    sums: &mut Sums,
) -> Result<Option<Texts>, AllocError>
    ensures read { IfOk result (λ found. IfSome found (λ texts. AreSteps reader.old (steps_told texts) reader.new)) }
    ensures many { IfOk result (λ found. IfSome found (λ texts. ManySteps sums.old (steps_told texts) sums.new)) }
    ensures within { IfOk result (λ found. IfSome found (λ texts. IsWithin sums.old → IsWithin sums.new)) }
{
    let mut texts = Texts::empty(alloc);
    while !reader.take_end_array() {
        if !take_step(alloc, reader, &mut texts, sums)? {
            return Ok(None);
        }
    }
    Ok(Some(texts))
}

//! Commands on the disk of an image.
ghost use Rattle.std.specs.Prelude.{◌≡◌, ◌⊎◌, ◌≤◌, ◌++◌, [], ℕ, List, Result, Ok, Err, IfOk, IfErr, OnOk, OnErr};
ghost use Rattle.opfs_codec.specs.declared.change.Format.TheVariants.{New};
ghost use Rattle.opfs_journal.specs.Walking.{OnlyRead};
ghost use Rattle.opfs_outside.specs.Faults.{Rose};
ghost use Rattle.opfs_image.specs.Reading.{read_as};
ghost use Rattle.opfs_commands.specs.Telling.{IsTold, IsImageLine, IsAnswer};

use crate::answers::{ReadTool, ToolAnswer, ToolEnd, host_answer, refused_answer};
use opfs_base::Bytes;
use opfs_data::DataRefusal;
use opfs_image::{Recovered, recover};
use opfs_outside::Disk;
use opfs_tools::{check, list};
use std::alloc::{AllocError, Global};

// The list of an image.
fn print_list<D: Disk>(alloc: Global, image: &Recovered<D>) -> Result<Vec<u8>, AllocError>
    ensures text { IfOk result (λ text. D.tells → IsTold ReadTool.List (D.content image.now.journal.disk) text.items) }
{
    let mut text = Vec::new(alloc);
    list(alloc, image, &mut text)?;
    Ok(text)
}

// The digests of an image.
fn print_check<D: Disk>(alloc: Global, image: &mut Recovered<D>) -> Result<Vec<u8>, DataRefusal>
    ensures text { IfOk result (λ text. D.tells → IsTold ReadTool.Check (D.content image.old.journal.disk) text.items) }
    ensures only { OnlyRead D.Disk image.old.journal.disk image.new.journal.disk }
    ensures cause { IfErr result (λ e. e ≡ DataRefusal.DiskFault → Rose (D.faults image.old.journal.disk) (D.faults image.new.journal.disk)) }
{
    let mut text = Vec::new(alloc);
    check(alloc, image, &mut text)?;
    Ok(text)
}

// What a tool prints of an image.
fn print<D: Disk>(
    alloc: Global,
    image: &mut Recovered<D>,
    tool: ReadTool,
) -> Result<Vec<u8>, DataRefusal>
    ensures text { IfOk result (λ text. D.tells → IsTold tool (D.content image.old.journal.disk) text.items) }
    ensures only { OnlyRead D.Disk image.old.journal.disk image.new.journal.disk }
    ensures cause { IfErr result (λ e. e ≡ DataRefusal.DiskFault → Rose (D.faults image.old.journal.disk) (D.faults image.new.journal.disk)) }
{
    match tool {
        ReadTool::List => match print_list(alloc, image) {
            Ok(text) => Ok(text),
            Err(_) => Err(DataRefusal::NoMemory),
        },
        ReadTool::Check => print_check(alloc, image),
    }
}

// Lets a tool tell an image that was recovered.
fn tell<D: Disk>(
    alloc: Global,
    image: Recovered<D>,
    tool: ReadTool,
) -> (D, Result<ToolAnswer, AllocError>)
    ensures only { OnlyRead D.Disk image.journal.disk result.0 }
    ensures answer { IfOk result.1 (λ answer. IsAnswer D.tells (IsTold tool (D.content image.journal.disk)) (λ text. ⊥) (Rose (D.faults image.journal.disk) (D.faults result.0)) answer.end answer.text) }
{
    let mut image = image;
    let printed = print(alloc, &mut image, tool);
    let Recovered { journal, .. } = image;
    let disk = journal.give_back();
    match printed {
        Ok(text) => {
            let answer = ToolAnswer {
                end: ToolEnd::Done,
                text: Bytes::from_vec(text),
            };
            (disk, Ok(answer))
        }
        Err(DataRefusal::DiskFault) => (disk, host_answer(alloc)),
        Err(DataRefusal::NoMemory) => (disk, Err(AllocError)),
    }
}

/// Lets a tool tell the image that a disk holds. The disk is only read.
pub fn read_disk<D: Disk>(
    alloc: Global,
    disk: D,
    tool: ReadTool,
) -> (D, Result<ToolAnswer, AllocError>)
    ensures only { OnlyRead D.Disk disk result.0 }
    ensures answer { IfOk result.1 (λ answer. IsAnswer D.tells (IsTold tool (D.content disk)) (IsImageLine (read_as New New (D.content disk))) (Rose (D.faults disk) (D.faults result.0)) answer.end answer.text) }
{
    match recover(alloc, disk) {
        Ok(image) => tell(alloc, image, tool),
        Err((disk, refusal)) => (disk, refused_answer(alloc, refusal)),
    }
}

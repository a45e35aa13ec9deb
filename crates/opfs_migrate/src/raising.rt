//! The journal of an image is raised into format 2.

ghost use Rattle.std.specs.Prelude.{◌≡◌, ◌≢◌, ◌⊎◌, ◌+◌, ◌≤◌, ℕ, List, true, false, length, Some, IfOk, IfErr, OnOk, OnErr, IsErrOf};
ghost use Rattle.opfs_outside.specs.Bytes.{Same};
ghost use Rattle.opfs_outside.specs.Faults.{Rose};
ghost use Rattle.opfs_journal.specs.Format.{records_of};
ghost use Rattle.opfs_journal.specs.Calls.{IsStored};
ghost use Rattle.opfs_journal.specs.Clauses.{Outside};
ghost use Rattle.opfs_journal.specs.Seen.{kept, one_record};
ghost use Rattle.opfs_journal.specs.Walking.{OnlyRead};
ghost use Rattle.opfs_machine.specs.Openings.{Map};
ghost use Rattle.opfs_image.specs.Filling.{Stands, StandsOld};
ghost use Rattle.opfs_image.specs.Superblock.{areas_of, area_bytes, image_size, is_in_range};
ghost use Rattle.opfs_migrate.specs.Migrating.{AreMigrated, IsPlanned, IsTried, Moved};

use crate::planning::Plan;
use opfs_image::ImageRefusal;
use opfs_journal::{Journal, JournalRefusal};
use opfs_outside::Disk;
use std::alloc::Global;

// Puts one record of format 2, which has room, in the place of all.
fn write_over<D: Disk>(journal: &mut Journal<D>, body: &[u8]) -> Result<(), ImageRefusal>
    requires format { journal.old.format ≡ 1 }
    requires settled { journal.old.in_doubt ≡ false }
    requires spare { length body.now ≤ journal.old.spare }
    requires fits { length body.now + 7 ≤ journal.old.areas.bytes }
    ensures tried { IsTried D.Disk (one_record 2 body.now) journal.old journal.new }
    ensures stored { OnOk result (IsStored D.Disk (one_record 2 body.now) journal.old journal.new) }
    ensures refused { IfErr result (λ e. e ≡ ImageRefusal.DiskFault) }
    ensures cause { OnErr result (Rose (D.faults journal.old.disk) (D.faults journal.new.disk)) }
{
    match journal.raise(body) {
        Ok(()) => Ok(()),
        Err(JournalRefusal::NoRoom) => unreachable!(),
        Err(JournalRefusal::DiskFault) => Err(ImageRefusal::DiskFault),
    }
}

// Puts the record in the place of all, in format 2.
fn rule<D: Disk>(journal: &mut Journal<D>, plan: &Plan) -> Result<(), ImageRefusal>
    requires areas { journal.old.areas ≡ areas_of plan.now.geometry }
    requires settled { journal.old.in_doubt ≡ false }
    requires fits { length plan.now.body.items + 7 ≤ area_bytes plan.now.geometry }
    requires planned { D.tells → IsPlanned plan.now.geometry plan.now.files plan.now.body.items (D.content journal.old.disk) }
    requires records { D.tells → records_of (areas_of plan.now.geometry) (D.content journal.old.disk) ≡ Some (kept journal.old) }
    requires one_image { D.tells → (c : List ℕ) → D.since journal.old.disk (D.moment journal.old.disk) c → c ≡ D.content journal.old.disk }
    ensures moved { Moved D.Disk journal.old.disk journal.new.disk }
    ensures areas_stay { journal.new.areas ≡ journal.old.areas }
    ensures sure { OnOk result (journal.new.in_doubt ≡ false) }
    ensures kept { OnOk result (D.tells → kept journal.new ≡ one_record 2 plan.now.body.items) }
    ensures outside { D.tells → Same (Outside journal.old.areas) (D.content journal.new.disk) (D.content journal.old.disk) }
    ensures durable { OnOk result (D.tells → (m : Map) → StandsOld (D.content journal.old.disk) m → (c : List ℕ) → D.since journal.new.disk (D.moment journal.new.disk) c → Stands c m) }
    ensures untold { IfErr result (λ e. (e ≡ ImageRefusal.DiskFault) ⊎ (e ≡ ImageRefusal.NoMemory) ⊎ (D.tells → ⊥)) }
    ensures same { IfErr result (λ e. (e ≡ ImageRefusal.DiskFault) ⊎ (journal.new.disk ≡ journal.old.disk)) }
    ensures cause { IsErrOf result ImageRefusal.DiskFault → Rose (D.faults journal.old.disk) (D.faults journal.new.disk) }
{
    if journal.format() != 1 {
        return Err(ImageRefusal::NotOld);
    }
    journal.reserve(plan.body.len() as u64)?;
    write_over(journal, &plan.body)
}

// Raises the journal, and gives its disk back with the number of files.
fn raise_over<D: Disk>(journal: Journal<D>, plan: Plan) -> Result<(D, u64), (D, ImageRefusal)>
    requires areas { journal.areas ≡ areas_of plan.geometry }
    requires settled { journal.in_doubt ≡ false }
    requires fits { length plan.body.items + 7 ≤ area_bytes plan.geometry }
    requires planned { D.tells → IsPlanned plan.geometry plan.files plan.body.items (D.content journal.disk) }
    requires records { D.tells → records_of (areas_of plan.geometry) (D.content journal.disk) ≡ Some (kept journal) }
    requires one_image { D.tells → (c : List ℕ) → D.since journal.disk (D.moment journal.disk) c → c ≡ D.content journal.disk }
    ensures moved { IfOk result (λ done. Moved D.Disk journal.disk done.0) }
    ensures stands { IfOk result (λ done. D.tells → AreMigrated done.1 (D.content journal.disk) (D.content done.0)) }
    ensures durable { IfOk result (λ done. D.tells → (m : Map) → StandsOld (D.content journal.disk) m → (c : List ℕ) → D.since done.0 (D.moment done.0) c → Stands c m) }
    ensures moved_err { IfErr result (λ err. Moved D.Disk journal.disk err.0) }
    ensures untold { IfErr result (λ err. (err.1 ≡ ImageRefusal.DiskFault) ⊎ (err.1 ≡ ImageRefusal.NoMemory) ⊎ (D.tells → ⊥)) }
    ensures same { IfErr result (λ err. (err.1 ≡ ImageRefusal.DiskFault) ⊎ (err.0 ≡ journal.disk)) }
    ensures cause { IfErr result (λ err. err.1 ≡ ImageRefusal.DiskFault → Rose (D.faults journal.disk) (D.faults err.0)) }
{
    let mut journal = journal;
    match rule(&mut journal, &plan) {
        Ok(()) => Ok((journal.give_back(), plan.files)),
        Err(refusal) => Err((journal.give_back(), refusal)),
    }
}

/// Puts what was planned in the place of all that an image's journal has.
pub(crate) fn raise_image<D: Disk>(
    alloc: Global,
    disk: D,
    plan: Plan,
) -> Result<(D, u64), (D, ImageRefusal)>
    requires range { is_in_range plan.geometry ≡ true }
    requires length { image_size plan.geometry ≤ D.size disk }
    requires fits { length plan.body.items + 7 ≤ area_bytes plan.geometry }
    requires planned { D.tells → IsPlanned plan.geometry plan.files plan.body.items (D.content disk) }
    ensures moved { IfOk result (λ done. Moved D.Disk disk done.0) }
    ensures stands { IfOk result (λ done. D.tells → AreMigrated done.1 (D.content disk) (D.content done.0)) }
    ensures durable { IfOk result (λ done. D.tells → (m : Map) → StandsOld (D.content disk) m → (c : List ℕ) → D.since done.0 (D.moment done.0) c → Stands c m) }
    ensures moved_err { IfErr result (λ err. Moved D.Disk disk err.0) }
    ensures untold { IfErr result (λ err. (err.1 ≡ ImageRefusal.DiskFault) ⊎ (err.1 ≡ ImageRefusal.NoMemory) ⊎ (D.tells → ⊥)) }
    ensures only_read_err { IfErr result (λ err. (err.1 ≡ ImageRefusal.DiskFault) ⊎ OnlyRead D.Disk disk err.0) }
    ensures cause { IfErr result (λ err. err.1 ≡ ImageRefusal.DiskFault → Rose (D.faults disk) (D.faults err.0)) }
{
    let areas = plan.geometry.journal_areas();
    match Journal::begin(alloc, disk, areas) {
        Ok(journal) => raise_over(journal, plan),
        Err((disk, refusal)) => Err((disk, ImageRefusal::from(refusal))),
    }
}

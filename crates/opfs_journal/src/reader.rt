//! What a disk's areas hold. Of each record only the gate, the length and the generation byte are read, once.

ghost use Rattle.std.specs.Prelude.{◌≡◌, ◌≢◌, ◌⊎◌, ◌+◌, ◌*◌, ◌^◌, ◌<◌, ◌≤◌, ◌==◌, ◌&&◌, ◌||◌, ℕ, List, true, false, not, nat_lt, None, Ok, Err, IfOk, IfErr, OnOk, OnErr, IsErrOf, MatchOption, slice_index};
ghost use Rattle.opfs_outside.specs.Faults.{Rose};
ghost use Rattle.opfs_journal.specs.Format.{is_open, number_at, begin_of, is_generation, is_bad_head, chosen, chosen_in, chain, read_areas};
ghost use Rattle.opfs_journal.specs.Reading.{Rules};
ghost use Rattle.opfs_journal.specs.Standing.{Told};
ghost use Rattle.opfs_journal.specs.Walking.{OnlyRead, IsFirst, Leads, IsBad};

use crate::{Areas, OpenRefusal};
use opfs_outside::{Disk, Failed};

const OPEN: u8 = 0xA5;

/// An area that rules: which one, its generation byte, the place of its last gate in it, and whether the first gate
/// of the other area is closed.
#[derive(Clone, Copy)]
pub struct Found {
    pub second: bool,
    pub generation: u8,
    pub tail: u64,
    pub closed: bool,
}

// The first gate of an area, with the length behind it and the generation byte.
#[derive(Clone, Copy)]
struct First {
    open: bool,
    len: u64,
    generation: u8,
}

fn is_generation(byte: u8) -> bool
    ensures { result ≡ is_generation byte }
{
    byte <= 2 || (16..=18).contains(&byte)
}

impl First {
    fn read<D: Disk>(disk: &mut D, begin: u64) -> Result<First, Failed>
        requires { begin + 6 ≤ D.size disk.old }
        ensures only { OnlyRead D.Disk disk.old disk.new }
        ensures first { IfOk result (λ first. D.tells → IsFirst (D.content disk.old) begin first.open first.len first.generation) }
        ensures small { IfOk result (λ first. first.len < 2 ^ 32) }
        ensures cause { OnErr result (Rose (D.faults disk.old) (D.faults disk.new)) }
    {
        let mut bytes = [0; 6];
        disk.read(begin, &mut bytes)?;
        let len = u32::from_le_bytes([bytes[1], bytes[2], bytes[3], bytes[4]]);
        Ok(First {
            open: bytes[0] == OPEN,
            len: u64::from(len),
            generation: bytes[5],
        })
    }

    fn is_bad(self, bytes: u64) -> bool
        requires { self.len < 2 ^ 32 }
        ensures { result ≡ is_bad_head bytes self.open self.len self.generation }
    {
        self.open && (self.len == 0 || bytes < 5 + self.len || !is_generation(self.generation))
    }
}

/// The length behind a gate, where it is open. So near to the area's end that it does not fit, it is any number.
pub fn read_gate<D: Disk>(disk: &mut D, gate: u64, stop: u64) -> Result<Option<u64>, Failed>
    requires inside { gate < stop }
    requires lies { stop ≤ D.size disk.old }
    ensures only { OnlyRead D.Disk disk.old disk.new }
    ensures open { IfOk result (λ found. D.tells → MatchOption found (is_open (D.content disk.old) gate ≡ false) (λ len. is_open (D.content disk.old) gate ≡ true)) }
    ensures length { IfOk result (λ found. D.tells → gate + 5 ≤ stop → MatchOption found (Unit {0}) (λ len. len ≡ number_at (D.content disk.old) (gate + 1))) }
    ensures small { IfOk result (λ found. MatchOption found (Unit {0}) (λ len. len < 2 ^ 32)) }
    ensures cause { OnErr result (Rose (D.faults disk.old) (D.faults disk.new)) }
{
    let mut bytes = [0; 5];
    let count = (stop - gate).min(5) as usize;
    disk.read(gate, &mut bytes[..count])?;
    if bytes[0] != OPEN {
        return Ok(None);
    }
    let len = u32::from_le_bytes([bytes[1], bytes[2], bytes[3], bytes[4]]);
    Ok(Some(u64::from(len)))
}

// The gate behind the records from this gate on.
fn walk<D: Disk>(disk: &mut D, from: u64, stop: u64) -> Result<u64, OpenRefusal>
    requires inside { from < stop }
    requires lies { stop ≤ D.size disk.old }
    ensures only { OnlyRead D.Disk disk.old disk.new }
    ensures above { IfOk result (λ tail. from ≤ tail) }
    ensures within { IfOk result (λ tail. tail < stop) }
    ensures leads { IfOk result (λ tail. D.tells → Leads (D.content disk.old) from tail) }
    ensures shut { IfOk result (λ tail. D.tells → is_open (D.content disk.old) tail ≡ false) }
    ensures bad { IfErr result (λ refusal. (refusal ≡ OpenRefusal.DiskFault) ⊎ ((gate : ℕ) × (refusal ≡ OpenRefusal.BadRecord gate) × (D.tells → IsBad (D.content disk.old) from stop gate))) }
    ensures cause { IsErrOf result OpenRefusal.DiskFault → Rose (D.faults disk.old) (D.faults disk.new) }
{
    let mut gate = from;
    'gates: loop {
        let Some(len) = read_gate(disk, gate, stop)? else {
            return Ok(gate);
        };
        if stop - gate < 6 + len {
            return Err(OpenRefusal::BadRecord(gate));
        }
        gate += 5 + len;
    }
}

// Whether area 1 rules, given the first gates of both.
fn choose(areas: Areas, first: First, second: First) -> Result<bool, OpenRefusal>
    requires fits { areas.first + 2 * areas.bytes < 2 ^ 64 }
    requires first_small { first.len < 2 ^ 32 }
    requires second_small { second.len < 2 ^ 32 }
    ensures { result ≡ chosen areas first.open first.len first.generation second.open second.len second.generation }
{
    if !first.open && !second.open {
        return Err(OpenRefusal::NoArea);
    }
    if first.is_bad(areas.bytes) {
        return Err(OpenRefusal::BadRecord(areas.first));
    }
    if second.is_bad(areas.bytes) {
        return Err(OpenRefusal::BadRecord(areas.first + areas.bytes));
    }
    let follows = second.generation % 16 == (first.generation % 16 + 1) % 3;
    Ok(second.open && (!first.open || follows))
}

// Reads the area that rules, given the first gates of both.
fn read_ruling<D: Disk>(
    disk: &mut D,
    areas: Areas,
    second: bool,
    head: First,
    other: First,
) -> Result<Found, OpenRefusal>
    requires lies { areas.first + 2 * areas.bytes ≤ D.size disk.old }
    requires fits { areas.first + 2 * areas.bytes < 2 ^ 64 }
    requires least { 7 ≤ areas.bytes }
    requires small { head.len < 2 ^ 32 }
    requires open { head.open ≡ true }
    requires good { is_bad_head areas.bytes head.open head.len head.generation ≡ false }
    requires other_good { is_bad_head areas.bytes other.open other.len other.generation ≡ false }
    requires rules { other.open ≡ true → Rules second head.generation other.generation }
    requires head_is { D.tells → IsFirst (D.content disk.old) (begin_of areas second) head.open head.len head.generation }
    requires other_is { D.tells → IsFirst (D.content disk.old) (begin_of areas (not second)) other.open other.len other.generation }
    requires durable { D.tells → (c : List ℕ) → D.since disk.old (D.moment disk.old) c → c ≡ D.content disk.old }
    ensures only { OnlyRead D.Disk disk.old disk.new }
    ensures within { IfOk result (λ found. found.tail < areas.bytes) }
    ensures known { IfOk result (λ found. is_generation found.generation ≡ true) }
    ensures told { IfOk result (λ found. D.tells → Told areas found.second found.generation found.tail found.closed None (D.content disk.new) (D.since disk.new (D.moment disk.new))) }
    ensures bad { IfErr result (λ refusal. (refusal ≡ OpenRefusal.DiskFault) ⊎ ((gate : ℕ) × (refusal ≡ OpenRefusal.BadRecord gate)
        × (D.tells → chain areas.bytes (D.content disk.old) (begin_of areas second) (begin_of areas second + areas.bytes) ≡ Err gate))) }
    ensures cause { IsErrOf result OpenRefusal.DiskFault → Rose (D.faults disk.old) (D.faults disk.new) }
{
    let begin = areas.begin(second);
    if areas.bytes < 6 + head.len {
        return Err(OpenRefusal::BadRecord(begin));
    }
    let tail = walk(disk, begin + 5 + head.len, begin + areas.bytes)?;
    Ok(Found {
        second,
        generation: head.generation,
        tail: tail - begin,
        closed: !other.open,
    })
}

// The first gates of both areas.
fn read_heads<D: Disk>(disk: &mut D, areas: Areas) -> Result<(First, First), Failed>
    requires lies { areas.first + 2 * areas.bytes ≤ D.size disk.old }
    requires fits { areas.first + 2 * areas.bytes < 2 ^ 64 }
    requires least { 7 ≤ areas.bytes }
    ensures only { OnlyRead D.Disk disk.old disk.new }
    ensures first { IfOk result (λ heads. D.tells → IsFirst (D.content disk.old) areas.first heads.0.open heads.0.len heads.0.generation) }
    ensures second { IfOk result (λ heads. D.tells → IsFirst (D.content disk.old) (areas.first + areas.bytes) heads.1.open heads.1.len heads.1.generation) }
    ensures small { IfOk result (λ heads. (heads.0.len < 2 ^ 32) × (heads.1.len < 2 ^ 32)) }
    ensures cause { OnErr result (Rose (D.faults disk.old) (D.faults disk.new)) }
{
    let first = First::read(disk, areas.first)?;
    let second = First::read(disk, areas.first + areas.bytes)?;
    Ok((first, second))
}

/// Syncs, and finds the area that rules.
pub fn find<D: Disk>(disk: &mut D, areas: Areas) -> Result<Found, OpenRefusal>
    requires lies { areas.first + 2 * areas.bytes ≤ D.size disk.old }
    requires fits { areas.first + 2 * areas.bytes < 2 ^ 64 }
    requires least { 7 ≤ areas.bytes }
    ensures only { OnlyRead D.Disk disk.old disk.new }
    ensures within { IfOk result (λ found. found.tail < areas.bytes) }
    ensures known { IfOk result (λ found. is_generation found.generation ≡ true) }
    ensures told { IfOk result (λ found. D.tells → Told areas found.second found.generation found.tail found.closed None (D.content disk.new) (D.since disk.new (D.moment disk.new))) }
    ensures durable { OnOk result (D.tells → (c : List ℕ) → D.since disk.new (D.moment disk.new) c → c ≡ D.content disk.new) }
    ensures refused { IfErr result (λ refusal. (refusal ≡ OpenRefusal.DiskFault) ⊎ (D.tells → read_areas areas (D.content disk.old) ≡ Err refusal)) }
    ensures cause { IsErrOf result OpenRefusal.DiskFault → Rose (D.faults disk.old) (D.faults disk.new) }
{
    disk.sync()?;
    let (first, second) = read_heads(disk, areas)?;
    if choose(areas, first, second)? {
        read_ruling(disk, areas, true, second, first)
    } else {
        read_ruling(disk, areas, false, first, second)
    }
}

/// An area that rules by the first gates of both: which one, and its generation byte.
#[derive(Clone, Copy, PartialEq, Eq)]
pub struct Ruling {
    /// Area 1 rules.
    pub second: bool,
    /// The generation byte of its first record.
    pub generation: u8,
}

/// Finds the area that rules, by the first gates alone. The records behind them may be bad.
pub fn find_ruling<D: Disk>(disk: &mut D, areas: Areas) -> Result<Ruling, OpenRefusal>
    requires lies { areas.first + 2 * areas.bytes ≤ D.size disk.old }
    requires fits { areas.first + 2 * areas.bytes < 2 ^ 64 }
    requires least { 7 ≤ areas.bytes }
    ensures only { OnlyRead D.Disk disk.old disk.new }
    ensures rules { IfOk result (λ ruling. D.tells → chosen_in areas (D.content disk.old) ≡ Ok ruling.second) }
    ensures generation { IfOk result (λ ruling. D.tells → ruling.generation ≡ slice_index (D.content disk.old) (begin_of areas ruling.second + 5)) }
    ensures refused { IfErr result (λ refusal. (refusal ≡ OpenRefusal.DiskFault) ⊎ (D.tells → chosen_in areas (D.content disk.old) ≡ Err refusal)) }
    ensures cause { IsErrOf result OpenRefusal.DiskFault → Rose (D.faults disk.old) (D.faults disk.new) }
{
    let (first, second) = read_heads(disk, areas)?;
    if choose(areas, first, second)? {
        return Ok(Ruling {
            second: true,
            generation: second.generation,
        });
    }
    Ok(Ruling {
        second: false,
        generation: first.generation,
    })
}

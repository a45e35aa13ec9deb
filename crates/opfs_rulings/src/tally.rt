//! What rows come to, kept from call to call: each change takes off what a row was and adds what it is.

ghost use Rattle.std.specs.Prelude.{◌≡◌, ◌+◌, if◌then◌else◌, map, IfOk, OnOk, IfSome, IsSomeAnd};
ghost use Rattle.std.specs.List.{AllByRecursion};
ghost use Rattle.std.specs.FinMap.Entries.{find};
ghost use Rattle.std.specs.Ordering.{nat_cmp};
ghost use Rattle.std.specs.Cmp.Lexicographic.{slice_cmp};
ghost use Rattle.opfs_base.specs.Texts.{same_text};
ghost use Rattle.opfs_rulings.specs.Tallies.{given, IsRaised};

use opfs_base::{Key, copy_key, plus};
use opfs_machine::{Agent, Many, Own};
use std::alloc::{AllocError, Global};

/// What rows come to.
#[derive(Drop)]
pub struct Tally {
    /// The blocks of the pool.
    pub pool: u64,
    /// The bytes that rows and modes are charged, without those for blocks.
    pub charge: u64,
    /// The blocks that each of some origins uses.
    pub uses: Many<(Key, u64)>,
}

/// What one row adds to a tally.
#[derive(Clone, Copy)]
pub struct Weight {
    /// The blocks of the pool.
    pub pool: u64,
    /// The bytes that it is charged.
    pub charge: u64,
    /// The blocks that its origin uses.
    pub usage: u64,
}

/// One count less another.
fn less(count: u64, part: u64) -> Result<u64, AllocError>
    ensures { IfOk result (λ left. left + part ≡ count) }
{
    match count.checked_sub(part) {
        Some(left) => Ok(left),
        None => Err(AllocError),
    }
}

/// An origin's use, raised where it is this origin.
fn raise_use(entry: &mut (Key, u64), origin: &[u8], more: u64) -> Result<(), AllocError>
    ensures { OnOk result (entry.new ≡ (entry.old.0, entry.old.1 + (if same_text entry.old.0 origin.now then more else 0))) }
{
    if entry.0.as_bytes() == origin {
        entry.1 = plus(entry.1, more)?;
    }
    Ok(())
}

/// An origin's use, lowered where it is this origin.
fn lower_use(entry: &mut (Key, u64), origin: &[u8], part: u64) -> Result<(), AllocError>
    ensures { OnOk result (entry.old ≡ (entry.new.0, entry.new.1 + (if same_text entry.new.0 origin.now then part else 0))) }
{
    if entry.0.as_bytes() == origin {
        entry.1 = less(entry.1, part)?;
    }
    Ok(())
}

/// Raises the use of an origin.
fn raise_uses(uses: &mut [(Key, u64)], origin: &[u8], more: u64) -> Result<(), AllocError>
    ensures { OnOk result (uses.new ≡ map (λ e. (e.0, e.1 + (if same_text e.0 origin.now then more else 0))) uses.old) }
{
    for at in 0..uses.len() {
        raise_use(&mut uses[at], origin, more)?;
    }
    Ok(())
}

/// Lowers the use of an origin.
fn lower_uses(uses: &mut [(Key, u64)], origin: &[u8], part: u64) -> Result<(), AllocError>
    ensures { OnOk result (uses.old ≡ map (λ e. (e.0, e.1 + (if same_text e.0 origin.now then part else 0))) uses.new) }
{
    for at in 0..uses.len() {
        lower_use(&mut uses[at], origin, part)?;
    }
    Ok(())
}

/// A tally with a row more.
fn with_more(tally: Tally, origin: &[u8], weight: Weight) -> Result<Tally, AllocError>
    ensures { IfOk result (λ new. IsRaised (given origin.now weight) tally new) }
{
    let Tally {
        pool,
        charge,
        mut uses,
    } = tally;
    let pool = plus(pool, weight.pool)?;
    let charge = plus(charge, weight.charge)?;
    raise_uses(uses.items.as_mut_slice(), origin, weight.usage)?;
    Ok(Tally { pool, charge, uses })
}

/// A tally with a row less.
fn with_less(tally: Tally, origin: &[u8], weight: Weight) -> Result<Tally, AllocError>
    ensures { IfOk result (λ new. IsRaised (given origin.now weight) new tally) }
{
    let Tally {
        pool,
        charge,
        mut uses,
    } = tally;
    let pool = less(pool, weight.pool)?;
    let charge = less(charge, weight.charge)?;
    lower_uses(uses.items.as_mut_slice(), origin, weight.usage)?;
    Ok(Tally { pool, charge, uses })
}

/// A tally with a row more; none where a count is too large.
pub fn raised(tally: Option<Tally>, origin: &[u8], weight: Option<Weight>) -> Option<Tally>
    ensures { IfSome result (λ new. IsSomeAnd tally (λ old. IsSomeAnd weight (λ w. IsRaised (given origin.now w) old new))) }
{
    let tally = tally?;
    let weight = weight?;
    with_more(tally, origin, weight).ok()
}

/// A tally with a row less.
pub fn lowered(tally: Option<Tally>, origin: &[u8], weight: Option<Weight>) -> Option<Tally>
    ensures { IfSome result (λ new. IsSomeAnd tally (λ old. IsSomeAnd weight (λ w. IsRaised (given origin.now w) new old))) }
{
    let tally = tally?;
    let weight = weight?;
    with_less(tally, origin, weight).ok()
}

/// What an origin uses, where that is counted.
pub fn use_of(uses: &[(Key, u64)], origin: &[u8]) -> Option<u64>
    ensures { result ≡ find (slice_cmp nat_cmp) origin.now uses.now }
{
    for entry in uses {
        if origin.cmp(entry.0.as_bytes()).is_eq() {
            return Some(entry.1);
        }
    }
    None
}

/// Adds an origin of which nothing is used, where it is told.
fn add_unused(
    alloc: Global,
    uses: &mut Vec<(Key, u64)>,
    origin: Option<&Key>,
) -> Result<(), AllocError>
    ensures { OnOk result (AllByRecursion (λ e. e.1 ≡ 0) uses.old.items → AllByRecursion (λ e. e.1 ≡ 0) uses.new.items) }
{
    if let Some(origin) = copy_key(alloc, origin)? {
        uses.push((origin, 0))?;
    }
    Ok(())
}

/// The origins of agents, of which nothing is used.
pub fn no_uses(alloc: Global, agents: &[Agent<Own>]) -> Result<Many<(Key, u64)>, AllocError>
    ensures { IfOk result (λ uses. AllByRecursion (λ e. e.1 ≡ 0) uses) }
{
    let mut uses = Vec::new(alloc);
    for agent in agents {
        add_unused(alloc, &mut uses, agent.key.as_ref())?;
    }
    Ok(Many { items: uses })
}

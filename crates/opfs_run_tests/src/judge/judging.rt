//! Verdicts on drawn transcripts, and on those with a line changed.

use crate::judge::replaying::{is_printed, played};
use opfs_judge::{Verdict, judge, judge_packed};
use opfs_script::{Script, read_script};
use opfs_script_kept::{KeptScript, PackedScript, read_kept};
use opfs_test_hosts::{CHANGES, Deck, Draws, FEW_NAMES, altered, lines_of, script_of};
use std::alloc::{AllocError, Global};
use std::test::Fail;

// One to eight agents of three origins.
const DECK: Deck = Deck {
    agents: 8,
    origins: &[
        "https://a.example",
        "https://b.example",
        "https://c.example",
    ],
    apart: false,
    front: r#"","steps":[{"do":"getDirectory","as":"d"}"#,
    least: 0,
    more: 24,
    steps: &FEW_NAMES,
    tail: "]}",
};

// How often the judge said yes and no, and how often a replay, or the judge over the steps' texts, says otherwise.
#[derive(Clone, Copy, PartialEq, Eq)]
struct Seen {
    yes: u32,
    no: u32,
    apart: u32,
}

// A script as it was read whole, and with the texts of its steps.
#[derive(Drop)]
struct Both {
    whole: Script,
    packed: PackedScript,
}

// The verdicts on a text beside what a replay says.
fn look(alloc: Global, script: &Both, text: &[u8], seen: &mut Seen) -> Result<(), AllocError> {
    let printed = is_printed(alloc, &script.whole, text)?;
    let verdict = judge(alloc, &script.whole, text)?;
    let packed = judge_packed(alloc, &script.packed, text)?;
    let wanted = if printed { Verdict::Yes } else { Verdict::No };
    if verdict != wanted || packed != wanted {
        seen.apart = seen.apart.saturating_add(1);
    }
    if verdict == Verdict::Yes {
        seen.yes = seen.yes.saturating_add(1);
    } else {
        seen.no = seen.no.saturating_add(1);
    }
    Ok(())
}

// The verdicts on what a drawn script prints in a drawn order, and on that with a line changed, each change at a drawn place.
fn look_at(alloc: Global, script: &Both, seed: u64, seen: &mut Seen) -> Result<(), AllocError> {
    let mut draws = Draws::make(seed);
    let text = played(alloc, &script.whole, &mut draws)?;
    look(alloc, script, text.as_slice(), seen)?;
    let lines = lines_of(alloc, text.as_slice())?;
    if lines.is_empty() {
        return Ok(());
    }
    for change in CHANGES {
        let at = draws.below(lines.len() as u64) as usize;
        let changed = altered(alloc, lines.as_slice(), change, at)?;
        look(alloc, script, changed.as_slice(), seen)?;
    }
    Ok(())
}

// The script of a seed. Its text is plain, so that both readers read it.
fn script_at(alloc: Global, seed: u64) -> Result<Both, AllocError> {
    let text = script_of(alloc, seed, &DECK)?;
    let bytes = text.as_bytes();
    let Ok(whole) = read_script(alloc, bytes) else {
        return Err(AllocError);
    };
    match read_kept(alloc, bytes) {
        Ok(KeptScript::Packed(packed)) => Ok(Both { whole, packed }),
        _ => Err(AllocError),
    }
}

// What is seen of so many drawn scripts.
fn seen_of(alloc: Global, count: u64) -> Result<Seen, AllocError> {
    let mut seen = Seen {
        yes: 0,
        no: 0,
        apart: 0,
    };
    for seed in 0..count {
        let script = script_at(alloc, seed)?;
        look_at(alloc, &script, seed, &mut seen)?;
    }
    Ok(seen)
}

#[test]
fn the_judge_and_a_replay_agree(rt: HostRuntime) -> Result<(), Fail> {
    let seen = seen_of(rt.alloc(), 300)?;
    assert_eq!(rt; seen.apart, 0);
    assert_eq!(rt; seen.yes > 300 && seen.no > 600, true);
    Ok(())
}

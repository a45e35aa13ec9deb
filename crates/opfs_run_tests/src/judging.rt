//! What `try` and `run` print for drawn scripts is judged, as it is and with a line changed.

use crate::altering::is_still;
use opfs_test_hosts::{
    CHANGES, Deck, Draws, FEW_NAMES, altered, judged, lines_of, new_image, run_over, script_of,
    tried,
};
use std::alloc::AllocError;
use std::sync::Wait;
use std::test::Fail;
use std::thread::Threads;

// How many scripts are drawn at once.
const SCRIPTS: u64 = 25;

// Agents of as many origins, and of one.
const APART: Deck = Deck {
    agents: 8,
    origins: &[
        "https://a.example",
        "https://b.example",
        "https://c.example",
        "http://a.example",
        "https://a.example:8080",
        "https://www.a.example",
        "http://localhost",
        "data:,x",
    ],
    apart: true,
    front: r#"","steps":[{"do":"getDirectory","as":"d"}"#,
    least: 0,
    more: 24,
    steps: &FEW_NAMES,
    tail: "]}",
};

const TOGETHER: Deck = Deck {
    agents: 8,
    origins: &["https://a.example"],
    apart: false,
    front: r#"","steps":[{"do":"getDirectory","as":"d"}"#,
    least: 0,
    more: 24,
    steps: &FEW_NAMES,
    tail: "]}",
};

// How often a text was judged to be a transcript, and not to be one, and how often otherwise than it is to be.
#[derive(Drop)]
struct Seen {
    yes: u32,
    no: u32,
    apart: u32,
}

impl Seen {
    fn none() -> Seen {
        Seen {
            yes: 0,
            no: 0,
            apart: 0,
        }
    }

    fn note(&mut self, verdict: &str, wanted: bool) {
        let line = if wanted { "0\nyes\n" } else { "0\nno\n" };
        if verdict != line {
            self.apart = self.apart.saturating_add(1);
        } else if wanted {
            self.yes = self.yes.saturating_add(1);
        } else {
            self.no = self.no.saturating_add(1);
        }
    }
}

// Judges what a script printed.
fn look<R: AllocGlobal + Threads + Wait + Sync>(
    rt: &R,
    script: &str,
    text: &str,
    wanted: bool,
    seen: &mut Seen,
) -> Result<(), AllocError> {
    let verdict = judged(rt, script, text)?;
    seen.note(verdict.as_str(), wanted);
    Ok(())
}

// Judges what a script printed with a line changed, each change at a drawn place.
fn look_at_changes<R: AllocGlobal + Threads + Wait + Sync>(
    rt: &R,
    script: &str,
    text: &str,
    draws: &mut Draws,
    seen: &mut Seen,
) -> Result<(), AllocError> {
    let alloc = rt.alloc();
    let Some(text) = text.strip_prefix("0\n") else {
        return Ok(());
    };
    let lines = lines_of(alloc, text.as_bytes())?;
    if lines.is_empty() {
        return Ok(());
    }
    for change in CHANGES {
        let at = draws.below(lines.len() as u64) as usize;
        let changed = altered(alloc, lines.as_slice(), change, at)?;
        let wanted = is_still(lines.as_slice(), change, at);
        let text = str::from_utf8(changed.as_slice()).unwrap_or("no text");
        look(rt, script, text, wanted, seen)?;
    }
    Ok(())
}

// Judges what drawn scripts print, whose agents have one origin each.
fn seen_apart<R: AllocGlobal + Threads + Wait + Sync>(
    rt: &R,
    first: u64,
) -> Result<Seen, AllocError> {
    let mut seen = Seen::none();
    for index in 0..SCRIPTS {
        let seed = index.wrapping_add(first);
        let script = script_of(rt.alloc(), seed, &APART)?;
        let text = tried(rt, script.as_str())?;
        look(rt, script.as_str(), text.as_str(), true, &mut seen)?;
        let mut draws = Draws::make(seed);
        look_at_changes(rt, script.as_str(), text.as_str(), &mut draws, &mut seen)?;
    }
    Ok(seen)
}

// Judges what drawn scripts print over an empty store and over an image, whose agents have one origin together.
fn seen_together<R: AllocGlobal + Threads + Wait + Sync>(
    rt: &R,
    first: u64,
) -> Result<Seen, AllocError> {
    let image = new_image(rt.alloc(), "128 8 8192")?;
    let mut seen = Seen::none();
    for index in 0..SCRIPTS {
        let seed = index.wrapping_add(first);
        let script = script_of(rt.alloc(), seed, &TOGETHER)?;
        let text = tried(rt, script.as_str())?;
        look(rt, script.as_str(), text.as_str(), true, &mut seen)?;
        let text = run_over(rt, &image, script.as_str())?;
        look(rt, script.as_str(), text.as_str(), true, &mut seen)?;
    }
    Ok(seen)
}

#[test]
fn a_changed_line_is_judged_by_whose_it_is(rt: HostRuntime) -> Result<(), Fail> {
    let seen = seen_apart(&rt, 0)?;
    assert_eq!(rt; seen.apart, 0);
    assert!(rt; seen.yes > 25 && seen.no > 100);
    Ok(())
}

#[test]
fn more_changed_lines_are_judged(rt: HostRuntime) -> Result<(), Fail> {
    let seen = seen_apart(&rt, 25)?;
    assert_eq!(rt; seen.apart, 0);
    assert!(rt; seen.yes > 25 && seen.no > 100);
    Ok(())
}

#[test]
fn what_agents_print_together_is_a_transcript(rt: HostRuntime) -> Result<(), Fail> {
    let seen = seen_together(&rt, 0)?;
    assert_eq!(rt; (seen.yes, seen.no, seen.apart), (50, 0, 0));
    Ok(())
}

#[test]
fn what_more_agents_print_together_is_a_transcript(rt: HostRuntime) -> Result<(), Fail> {
    let seen = seen_together(&rt, 25)?;
    assert_eq!(rt; (seen.yes, seen.no, seen.apart), (50, 0, 0));
    Ok(())
}

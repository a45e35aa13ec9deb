//! Scripts that are drawn from a number.

ghost use Rattle.std.specs.Prelude.{◌<◌};

use std::alloc::{AllocError, Global};

/// Numbers that are drawn one after another.
#[derive(Drop)]
pub struct Draws {
    last: u64,
}

impl Draws {
    /// The numbers of a seed.
    pub fn make(seed: u64) -> Draws {
        Draws {
            last: seed.wrapping_mul(0x9e37_79b9_7f4a_7c15),
        }
    }

    /// The next number, below a bound.
    pub fn below(&mut self, bound: u64) -> u64
        requires { 0 < bound }
        ensures { result < bound }
    {
        self.last = self
            .last
            .wrapping_mul(6_364_136_223_846_793_005)
            .wrapping_add(1_442_695_040_888_963_407);
        (self.last >> 33) % bound
    }

    /// One of these texts; an empty one where there is none.
    pub fn one_of(&mut self, texts: &'static [&'static str]) -> &'static str {
        let at = self.below((texts.len() as u64).max(1));
        match texts.get(at as usize) {
            Some(text) => *text,
            None => "",
        }
    }
}

/// What scripts are drawn from.
#[derive(Clone, Copy)]
pub struct Deck {
    /// There are one to so many agents.
    pub agents: u64,
    /// Each agent has one of these origins.
    pub origins: &'static [&'static str],
    /// The agents have them in turn, rather than one each that is drawn.
    pub apart: bool,
    /// What stands between an agent's origin and its drawn steps.
    pub front: &'static str,
    /// How many steps are drawn at least, and one less than how many more there may be.
    pub least: u64,
    pub more: u64,
    /// What they are drawn from.
    pub steps: &'static [&'static str],
    /// What stands behind them.
    pub tail: &'static str,
}

// The origin of an agent.
fn origin_of(draws: &mut Draws, deck: &Deck, agent: u64) -> &'static str {
    if !deck.apart {
        return draws.one_of(deck.origins);
    }
    let at = agent as usize % deck.origins.len().max(1);
    match deck.origins.get(at) {
        Some(origin) => *origin,
        None => "",
    }
}

/// Appends an agent that is drawn.
pub fn push_agent(
    text: &mut String,
    draws: &mut Draws,
    deck: &Deck,
    agent: u64,
) -> Result<(), AllocError> {
    text.push_str(r#"{"origin":""#)?;
    text.push_str(origin_of(draws, deck, agent))?;
    text.push_str(deck.front)?;
    let count = draws.below(deck.more.max(1)).saturating_add(deck.least);
    for _ in 0..count {
        text.push_str(",\n")?;
        text.push_str(draws.one_of(deck.steps))?;
    }
    text.push_str(deck.tail)
}

/// A script that is drawn from a number.
pub fn script_of(alloc: Global, seed: u64, deck: &Deck) -> Result<String, AllocError> {
    let mut draws = Draws::make(seed);
    let mut text = String::from_str(alloc, r#"{"agents":["#)?;
    let agents = draws.below(deck.agents.max(1)).saturating_add(1);
    for agent in 0..agents {
        if agent > 0 {
            text.push_str(",\n")?;
        }
        push_agent(&mut text, &mut draws, deck, agent)?;
    }
    text.push_str("]}")?;
    Ok(text)
}

/// Steps of all kinds on a few names, for agents that begin with the directory `d`.
pub const FEW_NAMES: [&str; 40] = [
    r#"{"do":"getDirectory","as":"d"}"#,
    r#"{"do":"getDirectory","as":"d"}"#,
    r#"{"do":"getDirectory","bucket":"drafts","as":"e"}"#,
    r#"{"do":"getDirectoryHandle","dir":"d","name":"p","create":true,"as":"e"}"#,
    r#"{"do":"getDirectoryHandle","dir":"d","name":"a","as":"e"}"#,
    r#"{"do":"getFileHandle","dir":"d","name":"a","create":true,"as":"f"}"#,
    r#"{"do":"getFileHandle","dir":"d","name":"b","create":true,"as":"g"}"#,
    r#"{"do":"getFileHandle","dir":"e","name":"a","create":true,"as":"g"}"#,
    r#"{"do":"getFileHandle","dir":"d","name":"p","create":true,"as":"f"}"#,
    r#"{"do":"getFileHandle","dir":"e","name":"c","as":"f"}"#,
    r#"{"do":"removeEntry","dir":"d","name":"a"}"#,
    r#"{"do":"removeEntry","dir":"d","name":"p","recursive":true}"#,
    r#"{"do":"values","dir":"d","as":"i"}"#,
    r#"{"do":"next","iterator":"i","as":"x"}"#,
    r#"{"do":"next","iterator":"i","as":"x"}"#,
    r#"{"do":"resolve","dir":"d","entry":"g"}"#,
    r#"{"do":"isSameEntry","entry":"f","other":"g"}"#,
    r#"{"do":"getFile","file":"f","as":"s"}"#,
    r#"{"do":"getFile","file":"g","as":"s"}"#,
    r#"{"do":"slice","snapshot":"s","at":1,"len":12}"#,
    r#"{"do":"createWritable","file":"f","as":"w"}"#,
    r#"{"do":"createWritable","file":"f","keepExistingData":true,"as":"w"}"#,
    r#"{"do":"createWritable","file":"g","as":"v"}"#,
    r#"{"do":"write","stream":"w","data":"hello"}"#,
    r#"{"do":"write","stream":"w","data":{"fill":66,"count":4097},"position":3}"#,
    r#"{"do":"write","stream":"v","data":"bytes"}"#,
    r#"{"do":"seek","stream":"w","position":9}"#,
    r#"{"do":"truncate","stream":"w","size":5000}"#,
    r#"{"do":"truncate","stream":"v","size":4}"#,
    r#"{"do":"close","stream":"w"}"#,
    r#"{"do":"close","stream":"v"}"#,
    r#"{"do":"abort","stream":"w"}"#,
    r#"{"do":"createSyncAccessHandle","file":"f","as":"h"}"#,
    r#"{"do":"createSyncAccessHandle","file":"g","mode":"read-only","as":"h"}"#,
    r#"{"do":"syncWrite","sync":"h","data":"in place"}"#,
    r#"{"do":"syncRead","sync":"h","len":5,"at":1}"#,
    r#"{"do":"syncFlush","sync":"h"}"#,
    r#"{"do":"syncClose","sync":"h"}"#,
    r#"{"do":"estimate"}"#,
    r#"{"do":"moment","ms":7}"#,
];

//! Scripts of one agent that are drawn at random: what a run over an image tells, and what a later run reads there, is
//! judged by the plain machine.

use opfs_test_hosts::{Deck, Draws, host_with, judged, new_image, push_agent, run};
use std::alloc::{AllocError, Global};
use std::sync::Wait;
use std::test::Fail;
use std::thread::Threads;

// What scripts of one agent are drawn from: its directory, two files, and forty steps.
const DECK: Deck = Deck {
    agents: 1,
    origins: &["https://a.example"],
    apart: true,
    front: FRONT,
    least: 40,
    more: 1,
    steps: &STEPS,
    tail: "]}",
};

// What each agent begins with.
const FRONT: &str = r#"","grants":["persistent-storage"],"steps":[{"do":"getDirectory","as":"d"}
,{"do":"getFileHandle","dir":"d","name":"a","create":true,"as":"f"}
,{"do":"getFileHandle","dir":"d","name":"b","create":true,"as":"g"}"#;

// The steps that are drawn from.
const STEPS: [&str; 64] = [
    r#"{"do":"getDirectory","as":"d"}"#,
    r#"{"do":"getDirectory","bucket":"x","as":"e"}"#,
    r#"{"do":"getDirectory","bucket":"x","as":"d"}"#,
    r#"{"do":"getDirectoryHandle","dir":"d","name":"p","create":true,"as":"e"}"#,
    r#"{"do":"getDirectoryHandle","dir":"e","name":"p","create":true,"as":"d"}"#,
    r#"{"do":"getDirectoryHandle","dir":"d","name":"a","as":"e"}"#,
    r#"{"do":"getFileHandle","dir":"d","name":"a","create":true,"as":"f"}"#,
    r#"{"do":"getFileHandle","dir":"d","name":"b","create":true,"as":"g"}"#,
    r#"{"do":"getFileHandle","dir":"e","name":"a","create":true,"as":"f"}"#,
    r#"{"do":"getFileHandle","dir":"e","name":"c","as":"g"}"#,
    r#"{"do":"getFileHandle","dir":"d","name":"p","create":true,"as":"g"}"#,
    r#"{"do":"getFileHandle","dir":"d","name":"..","create":true,"as":"g"}"#,
    r#"{"do":"removeEntry","dir":"d","name":"a"}"#,
    r#"{"do":"removeEntry","dir":"d","name":"p"}"#,
    r#"{"do":"removeEntry","dir":"d","name":"p","recursive":true}"#,
    r#"{"do":"removeEntry","dir":"e","name":"a","recursive":true}"#,
    r#"{"do":"values","dir":"d","as":"i"}"#,
    r#"{"do":"values","dir":"e","as":"i"}"#,
    r#"{"do":"next","iterator":"i","as":"f"}"#,
    r#"{"do":"next","iterator":"i","as":"e"}"#,
    r#"{"do":"resolve","dir":"d","entry":"f"}"#,
    r#"{"do":"isSameEntry","entry":"f","other":"g"}"#,
    r#"{"do":"getFile","file":"f","as":"s"}"#,
    r#"{"do":"getFile","file":"g","as":"s"}"#,
    r#"{"do":"slice","snapshot":"s","at":0,"len":9000}"#,
    r#"{"do":"slice","snapshot":"s","at":4090,"len":20}"#,
    r#"{"do":"createWritable","file":"f","as":"w"}"#,
    r#"{"do":"createWritable","file":"g","as":"w"}"#,
    r#"{"do":"createWritable","file":"f","keepExistingData":true,"as":"v"}"#,
    r#"{"do":"createWritable","file":"g","keepExistingData":true,"as":"w"}"#,
    r#"{"do":"write","stream":"w","data":"abc"}"#,
    r#"{"do":"write","stream":"w","data":{"hex":"00ff10"},"position":4095}"#,
    r#"{"do":"write","stream":"v","data":{"fill":66,"count":4096}}"#,
    r#"{"do":"write","stream":"v","data":{"fill":67,"count":100},"position":5000}"#,
    r#"{"do":"write","stream":"w","data":"","position":8200}"#,
    r#"{"do":"seek","stream":"w","position":6000}"#,
    r#"{"do":"truncate","stream":"w","size":2}"#,
    r#"{"do":"truncate","stream":"v","size":9000}"#,
    r#"{"do":"truncate","stream":"v","size":4096}"#,
    r#"{"do":"close","stream":"w"}"#,
    r#"{"do":"close","stream":"w"}"#,
    r#"{"do":"close","stream":"v"}"#,
    r#"{"do":"abort","stream":"w"}"#,
    r#"{"do":"abort","stream":"v"}"#,
    r#"{"do":"createSyncAccessHandle","file":"f","as":"h"}"#,
    r#"{"do":"createSyncAccessHandle","file":"g","as":"h"}"#,
    r#"{"do":"createSyncAccessHandle","file":"f","mode":"read-only","as":"k"}"#,
    r#"{"do":"syncRead","sync":"h","len":5000,"at":1}"#,
    r#"{"do":"syncRead","sync":"k","len":4100}"#,
    r#"{"do":"syncWrite","sync":"h","data":"xyz"}"#,
    r#"{"do":"syncWrite","sync":"h","data":{"fill":68,"count":4097},"at":4000}"#,
    r#"{"do":"syncWrite","sync":"k","data":"no"}"#,
    r#"{"do":"syncTruncate","sync":"h","size":5}"#,
    r#"{"do":"syncTruncate","sync":"h","size":8193}"#,
    r#"{"do":"syncGetSize","sync":"h"}"#,
    r#"{"do":"syncFlush","sync":"h"}"#,
    r#"{"do":"syncClose","sync":"h"}"#,
    r#"{"do":"syncClose","sync":"k"}"#,
    r#"{"do":"syncClose","sync":"h"}"#,
    r#"{"do":"persist","bucket":"x"}"#,
    r#"{"do":"persisted"}"#,
    r#"{"do":"estimate"}"#,
    r#"{"do":"moment","ms":1700000000000}"#,
    r#"{"do":"moment","ms":7}"#,
];

// An agent that reads what stands in two buckets.
const READER: &str =
    r#"{"origin":"https://a.example","steps":[{"do":"persisted"},{"do":"persisted","bucket":"x"},{"do":"estimate"}
,{"do":"getDirectory","as":"d"},{"do":"values","dir":"d","as":"i"}
,{"do":"next","iterator":"i","as":"x"},{"do":"getFile","file":"x","as":"s"},{"do":"slice","snapshot":"s","at":0,"len":65536}
,{"do":"next","iterator":"i","as":"x"},{"do":"getFile","file":"x","as":"s"},{"do":"slice","snapshot":"s","at":0,"len":65536}
,{"do":"next","iterator":"i","as":"e"},{"do":"next","iterator":"i","as":"x"}
,{"do":"getDirectoryHandle","dir":"d","name":"p","as":"d"},{"do":"values","dir":"d","as":"i"}
,{"do":"next","iterator":"i","as":"x"},{"do":"getFile","file":"x","as":"s"},{"do":"slice","snapshot":"s","at":0,"len":65536}
,{"do":"next","iterator":"i","as":"x"},{"do":"getFile","file":"x","as":"s"},{"do":"slice","snapshot":"s","at":0,"len":65536}
,{"do":"getDirectory","bucket":"x","as":"d"},{"do":"values","dir":"d","as":"i"}
,{"do":"next","iterator":"i","as":"x"},{"do":"getFile","file":"x","as":"s"},{"do":"slice","snapshot":"s","at":0,"len":65536}
,{"do":"next","iterator":"i","as":"x"},{"do":"getFile","file":"x","as":"s"},{"do":"slice","snapshot":"s","at":0,"len":65536}
,{"do":"next","iterator":"i","as":"x"}]}"#;

// An agent with steps that are drawn from this number on.
fn agent_of(alloc: Global, seed: u64) -> Result<String, AllocError> {
    let mut agent = String::new(alloc);
    push_agent(&mut agent, &mut Draws::make(seed), &DECK, 0)?;
    Ok(agent)
}

// Appends the lines of agent 1, as those of another.
fn push_as(lines: &mut String, told: &str, agent: &str) -> Result<(), AllocError> {
    for line in told.lines() {
        if let Some(rest) = line.strip_prefix("1.") {
            lines.push_str(agent)?;
            lines.push_str(rest)?;
            lines.push_str("\n")?;
        }
    }
    Ok(())
}

// The verdict on a drawn agent, and behind it the reader, whose runs follow one another over an image.
fn verdict<R: AllocGlobal + Threads + Wait + Sync>(
    rt: &R,
    image: &[u8],
    seed: u64,
) -> Result<String, AllocError> {
    let alloc = rt.alloc();
    let agent = agent_of(alloc, seed)?;
    let mut host = host_with(alloc, image)?;
    let script = format!(in alloc; "{{\"agents\":[{agent}]}}")?;
    let mut lines = String::new(alloc);
    push_as(
        &mut lines,
        run(rt, &mut host, script.as_str())?.as_str(),
        "1.",
    )?;
    let script = format!(in alloc; "{{\"agents\":[{READER}]}}")?;
    push_as(
        &mut lines,
        run(rt, &mut host, script.as_str())?.as_str(),
        "2.",
    )?;
    let script = format!(in alloc; "{{\"agents\":[{agent},{READER}]}}")?;
    judged(rt, script.as_str(), lines.as_str())
}

// The first of so many numbers behind this one whose script is not judged to be right; None where each one is.
fn first_wrong<R: AllocGlobal + Threads + Wait + Sync>(
    rt: &R,
    seed: u64,
    scripts: u64,
) -> Result<Option<u64>, AllocError> {
    let image = new_image(rt.alloc(), "48 2 8192")?;
    for number in seed..seed.saturating_add(scripts) {
        let verdict = verdict(rt, &image, number)?;
        if verdict.as_str() != "0\nyes\n" {
            return Ok(Some(number));
        }
    }
    Ok(None)
}

#[test]
fn drawn_scripts_answer_as_the_plain_machine(rt: HostRuntime) -> Result<(), Fail> {
    assert_eq!(rt; first_wrong(&rt, 0, 40)?, None);
    Ok(())
}

#[test]
fn more_drawn_scripts_answer_as_the_plain_machine(rt: HostRuntime) -> Result<(), Fail> {
    assert_eq!(rt; first_wrong(&rt, 1_000, 40)?, None);
    Ok(())
}

#[test]
fn still_more_drawn_scripts_answer_as_the_plain_machine(rt: HostRuntime) -> Result<(), Fail> {
    assert_eq!(rt; first_wrong(&rt, 2_000, 40)?, None);
    Ok(())
}

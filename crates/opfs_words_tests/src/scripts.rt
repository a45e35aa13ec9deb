//! Scripts.

use opfs_base::{Data, Told};
use opfs_script::{AgentScript, Script, ScriptRefusal, Step, read_script};
use std::alloc::{AllocError, Global};

// Why a script is refused, or None.
fn refusal(alloc: Global, text: &str) -> Option<ScriptRefusal> {
    read_script(alloc, text.as_bytes()).err()
}

// Why a script of one agent with these steps is refused, or None.
fn step_refusal(alloc: Global, steps: &str) -> Result<Option<ScriptRefusal>, AllocError> {
    let text = format!(in alloc;
        r#"{{"agents":[{{"origin":"https://a.example","steps":[{steps}]}}]}}"#
    )?;
    Ok(refusal(alloc, text.as_str()))
}

#[test]
fn tops_are_judged_first(rt: HostRuntime) {
    let shape = Some(ScriptRefusal::BadShape(0, 0));
    let cases = [
        (r#"{"agents":[]}"#, None),
        (r#" { "agents" : [ ] } "#, None),
        ("{", Some(ScriptRefusal::NotJson)),
        ("", Some(ScriptRefusal::NotJson)),
        (r#"{"agents":[1e400]}"#, Some(ScriptRefusal::NotJson)),
        ("[]", shape),
        ("{}", shape),
        (r#"{"agents":{}}"#, shape),
        (r#"{"agents":[],"more":1}"#, shape),
        (r#"{"agents":1,"agents":[]}"#, None),
    ];
    for (text, wanted) in cases {
        assert_eq!(rt; refusal(rt.alloc(), text), wanted, "{text}");
    }
    assert_eq!(rt;
        read_script(rt.alloc(), b"{\"agents\":[]}\xff").err(),
        Some(ScriptRefusal::NotJson)
    );
}

// Scripts, and why they are refused.
const AGENTS: [(&str, Option<ScriptRefusal>); 9] = [
    (r#"{"agents":[1]}"#, Some(ScriptRefusal::BadShape(1, 0))),
    (
        r#"{"agents":[{"origin":"https://a.example"}]}"#,
        Some(ScriptRefusal::BadShape(1, 0)),
    ),
    (
        r#"{"agents":[{"origin":"nonsense","steps":[]}]}"#,
        Some(ScriptRefusal::BadOrigin(1)),
    ),
    (
        r#"{"agents":[{"origin":"nonsense","steps":[],"x":1}]}"#,
        Some(ScriptRefusal::BadShape(1, 0)),
    ),
    (
        r#"{"agents":[{"origin":"nonsense","steps":[1]},2]}"#,
        Some(ScriptRefusal::BadOrigin(1)),
    ),
    (
        r#"{"agents":[{"origin":"data:,x","steps":[]},{"origin":"https://b.example","steps":[{"do":"fly"}]}]}"#,
        Some(ScriptRefusal::UnknownStep(2, 1)),
    ),
    (
        r#"{"agents":[{"origin":"data:,x","steps":[],"grants":["persistent-storage","persistent-storage"]}]}"#,
        None,
    ),
    (
        r#"{"agents":[{"origin":"data:,x","steps":[],"grants":["camera"]}]}"#,
        Some(ScriptRefusal::BadShape(1, 0)),
    ),
    (
        r#"{"agents":[{"origin":"data:,x","steps":[],"grants":null}]}"#,
        Some(ScriptRefusal::BadShape(1, 0)),
    ),
];

#[test]
fn agents_are_judged_in_order(rt: HostRuntime) {
    for (text, wanted) in AGENTS {
        assert_eq!(rt; refusal(rt.alloc(), text), wanted, "{text}");
    }
}

// Steps of each word.
const GOOD: [&str; 33] = [
    r#"{"do":"getDirectory","as":"d"}"#,
    r#"{"do":"getDirectory","bucket":"-x","as":"d"}"#,
    r#"{"do":"getDirectoryHandle","dir":"d","name":"","as":"x"}"#,
    r#"{"do":"getFileHandle","dir":"d","name":"a/b","create":true,"as":"x"}"#,
    r#"{"do":"removeEntry","dir":"d","name":"x","recursive":false}"#,
    r#"{"do":"values","dir":"d","as":"i"}"#,
    r#"{"do":"next","iterator":"i","as":"x"}"#,
    r#"{"do":"resolve","dir":"d","entry":"x"}"#,
    r#"{"do":"isSameEntry","entry":"x","other":"y"}"#,
    r#"{"do":"getFile","file":"f","as":"s"}"#,
    r#"{"do":"slice","snapshot":"s","at":9007199254740991,"len":65536}"#,
    r#"{"do":"createWritable","file":"f","keepExistingData":true,"as":"w"}"#,
    r#"{"do":"write","stream":"w","data":"","position":0}"#,
    r#"{"do":"write","stream":"w","data":{"hex":"0aF0"}}"#,
    r#"{"do":"write","stream":"w","data":{"fill":255,"count":16777216}}"#,
    r#"{"do":"seek","stream":"w","position":1}"#,
    r#"{"do":"truncate","stream":"w","size":1}"#,
    r#"{"do":"close","stream":"w"}"#,
    r#"{"do":"abort","stream":"w"}"#,
    r#"{"do":"createSyncAccessHandle","file":"f","as":"h"}"#,
    r#"{"do":"createSyncAccessHandle","file":"f","mode":"read-only","as":"h"}"#,
    r#"{"do":"syncRead","sync":"h","len":0}"#,
    r#"{"do":"syncWrite","sync":"h","data":"x","at":4}"#,
    r#"{"do":"syncTruncate","sync":"h","size":4}"#,
    r#"{"do":"syncGetSize","sync":"h"}"#,
    r#"{"do":"syncFlush","sync":"h"}"#,
    r#"{"do":"syncClose","sync":"h"}"#,
    r#"{"do":"persist"}"#,
    r#"{"do":"persisted","bucket":"drafts"}"#,
    r#"{"do":"estimate"}"#,
    r#"{"do":"moment","ms":1700000000000}"#,
    r#"{"do":"post","tag":"p"}"#,
    r#"{"do":"await","tag":"p"}"#,
];

#[test]
fn every_word_has_its_members(rt: HostRuntime) -> Result<(), AllocError> {
    for step in GOOD {
        assert_eq!(rt; step_refusal(rt.alloc(), step)?, None, "{step}");
    }
    Ok(())
}

// Steps of another shape.
const BAD: [&str; 29] = [
    "1",
    "{}",
    r#"{"do":1}"#,
    r#"{"do":"getDirectory"}"#,
    r#"{"do":"getDirectory","as":""}"#,
    r#"{"do":"getDirectory","as":"d","bucket":null}"#,
    r#"{"do":"getDirectory","as":"d","name":"x"}"#,
    r#"{"do":"getFileHandle","dir":"d","name":1,"as":"x"}"#,
    r#"{"do":"getFileHandle","dir":"d","name":"x","create":1,"as":"x"}"#,
    r#"{"do":"seek","stream":"w","position":-0}"#,
    r#"{"do":"seek","stream":"w","position":-1}"#,
    r#"{"do":"seek","stream":"w","position":1.0}"#,
    r#"{"do":"seek","stream":"w","position":1e0}"#,
    r#"{"do":"seek","stream":"w","position":9007199254740992}"#,
    r#"{"do":"seek","stream":"w","position":18446744073709551616}"#,
    r#"{"do":"write","stream":"w","data":{}}"#,
    r#"{"do":"write","stream":"w","data":{"hex":"0"}}"#,
    r#"{"do":"write","stream":"w","data":{"hex":"0g"}}"#,
    r#"{"do":"write","stream":"w","data":{"hex":"00","fill":0}}"#,
    r#"{"do":"write","stream":"w","data":{"fill":256,"count":1}}"#,
    r#"{"do":"write","stream":"w","data":{"fill":0,"count":16777217}}"#,
    r#"{"do":"write","stream":"w","data":{"fill":0}}"#,
    r#"{"do":"write","stream":"w","data":"x","position":null}"#,
    r#"{"do":"slice","snapshot":"s","at":0,"len":65537}"#,
    r#"{"do":"syncRead","sync":"h","len":65537}"#,
    r#"{"do":"createSyncAccessHandle","file":"f","mode":"read","as":"h"}"#,
    r#"{"do":"estimate","bucket":"x"}"#,
    r#"{"do":"post","tag":""}"#,
    r#"{"do":"await"}"#,
];

#[test]
fn steps_of_another_shape_are_refused(rt: HostRuntime) -> Result<(), AllocError> {
    for step in BAD {
        assert_eq!(rt;
            step_refusal(rt.alloc(), step)?,
            Some(ScriptRefusal::BadShape(1, 1)),
            "{step}"
        );
    }
    let second = r#"{"do":"estimate"},{"do":"fly","x":1}"#;
    assert_eq!(rt;
        step_refusal(rt.alloc(), second)?,
        Some(ScriptRefusal::UnknownStep(1, 2))
    );
    Ok(())
}

// A text so many times, with commas between.
fn times(alloc: Global, text: &str, count: usize) -> Result<String, AllocError> {
    let mut all = String::new(alloc);
    for place in 0..count {
        if place > 0 {
            all.push(',')?;
        }
        all.push_str(text)?;
    }
    Ok(all)
}

// A step whose variable has so many letters.
fn long_step(alloc: Global, count: usize) -> Result<String, AllocError> {
    let mut name = String::new(alloc);
    for _ in 0..count {
        name.push('v')?;
    }
    format!(in alloc; r#"{{"do":"close","stream":"{}"}}"#, name.as_str())
}

// Why such a step is refused, or None.
fn name_refusal(alloc: Global, count: usize) -> Result<Option<ScriptRefusal>, AllocError> {
    let step = long_step(alloc, count)?;
    step_refusal(alloc, step.as_str())
}

#[test]
fn variables_end_at_64_bytes(rt: HostRuntime) -> Result<(), AllocError> {
    for (count, wanted) in [(64, None), (65, Some(ScriptRefusal::BadShape(1, 1)))] {
        assert_eq!(rt; name_refusal(rt.alloc(), count)?, wanted, "{count}");
    }
    Ok(())
}

// Why a script of one agent with a step so many times and others behind it is refused, or None.
fn times_refusal(
    alloc: Global,
    step: &str,
    count: usize,
    behind: &str,
) -> Result<Option<ScriptRefusal>, AllocError> {
    let mut steps = times(alloc, step, count)?;
    steps.push_str(behind)?;
    step_refusal(alloc, steps.as_str())
}

// Why a script of so many agents is refused, or None.
fn agents_refusal(alloc: Global, count: usize) -> Result<Option<ScriptRefusal>, AllocError> {
    let agents = times(alloc, r#"{"origin":"data:,x","steps":[]}"#, count)?;
    let text = format!(in alloc; r#"{{"agents":[{}]}}"#, agents.as_str())?;
    Ok(refusal(alloc, text.as_str()))
}

#[test]
fn too_many_steps_or_bytes_are_refused_last(rt: HostRuntime) -> Result<(), AllocError> {
    let many = Some(ScriptRefusal::TooMany);
    let short = r#"{"do":"estimate"}"#;
    let full = r#"{"do":"write","stream":"w","data":{"fill":0,"count":16777216}}"#;
    let read = r#",{"do":"syncRead","sync":"h","len":1}"#;
    let fly = r#",{"do":"syncRead","sync":"h","len":1},{"do":"fly"}"#;
    let cases = [
        (short, 20_000, "", None),
        (short, 20_001, "", many),
        (full, 4, "", None),
        (full, 4, read, many),
        (full, 4, fly, Some(ScriptRefusal::UnknownStep(1, 6))),
    ];
    for (step, count, behind, wanted) in cases {
        assert_eq!(rt;
            times_refusal(rt.alloc(), step, count, behind)?,
            wanted,
            "{count} times {step}{behind}"
        );
    }
    Ok(())
}

#[test]
fn too_many_agents_are_refused(rt: HostRuntime) -> Result<(), AllocError> {
    for (count, wanted) in [(64, None), (65, Some(ScriptRefusal::TooMany))] {
        assert_eq!(rt;
            agents_refusal(rt.alloc(), count)?,
            wanted,
            "{count} agents"
        );
    }
    Ok(())
}

// Bytes as they are told.
fn bytes_text(alloc: Global, bytes: &Data) -> Result<String, AllocError> {
    match bytes.told() {
        Told::Given(given) => format!(in alloc; "{given:?}"),
        Told::Fill(byte, count) => format!(in alloc; "{count} x {byte}"),
    }
}

// What a step says: what it writes, or nothing.
fn step_text(alloc: Global, step: &Step) -> Result<String, AllocError> {
    match step {
        Step::Write {
            stream,
            bytes,
            position,
        } => {
            let bytes = bytes_text(alloc, bytes)?;
            let place = position.unwrap_or(99);
            format!(in alloc; " {} {} {place}", stream.as_str(), bytes.as_str())
        }
        _ => String::from_str(alloc, " other"),
    }
}

// Adds what a step says.
fn add_step(alloc: Global, text: &mut String, step: &Step) -> Result<(), AllocError> {
    let said = step_text(alloc, step)?;
    text.push_str(said.as_str())
}

// Adds what an agent says: its key, its grant and its steps.
fn add_agent(alloc: Global, text: &mut String, agent: &AgentScript) -> Result<(), AllocError> {
    let key = match agent.key() {
        Some(key) => key.as_str(),
        None => "none",
    };
    text.push_str(key)?;
    text.push_str(if agent.grant() { " granted" } else { " plain" })?;
    for step in agent.steps() {
        add_step(alloc, text, step)?;
    }
    text.push('\n')
}

// What a script says: per agent its key, its grant and its steps, with the bytes that are written.
fn told(alloc: Global, script: &Script) -> Result<String, AllocError> {
    let mut text = String::new(alloc);
    for agent in script.agents() {
        add_agent(alloc, &mut text, agent)?;
    }
    Ok(text)
}

// What the script of a text says, or why it is refused.
fn told_of(alloc: Global, text: &str) -> Result<String, AllocError> {
    match read_script(alloc, text.as_bytes()) {
        Ok(script) => told(alloc, &script),
        Err(refusal) => format!(in alloc; "{refusal:?}"),
    }
}

#[test]
fn scripts_keep_what_they_say(rt: HostRuntime) -> Result<(), AllocError> {
    let text =
        r#"{"agents":[{"origin":"https://A.example:443/","grants":["persistent-storage"],"steps":[
        {"do":"write","stream":"w","data":"hé"},
        {"do":"write","stream":"v","data":{"hex":"0aFF"},"position":7},
        {"do":"write","stream":"v","data":{"fill":65,"count":2}}]},
        {"origin":"data:,x","grants":[],"steps":[{"do":"estimate"}]}]}"#;
    let wanted =
        "https://a.example granted w [104, 195, 169] 99 v [10, 255] 7 v 2 x 65 99\nnone plain other\n";
    assert_eq!(rt; told_of(rt.alloc(), text)?.as_str(), wanted);
    Ok(())
}

//! Scripts that are kept as the texts of their steps.

use opfs_script::Step;
use opfs_script_kept::{KeptScript, PackedScript, StepsAhead, read_kept, step_told};
use std::alloc::{AllocError, Global};

// How many steps there are.
fn count_of(alloc: Global, mut steps: StepsAhead<'_>) -> Result<usize, AllocError> {
    for count in 0..30_000 {
        let step = steps.next(alloc)?;
        let is_last = step.is_none();
        drop(step);
        if is_last {
            return Ok(count);
        }
    }
    Ok(30_000)
}

// How many agents a script has, and how many steps the first one has.
fn counts_of(alloc: Global, script: &PackedScript) -> Result<(usize, usize), AllocError> {
    let agents = script.agents();
    let steps = match agents.first() {
        Some(agent) => count_of(alloc, agent.steps())?,
        None => 0,
    };
    Ok((agents.len(), steps))
}

// The script of a text, where its steps are kept as texts.
fn packed(alloc: Global, text: &[u8]) -> Option<PackedScript> {
    match read_kept(alloc, text) {
        Ok(KeptScript::Packed(script)) => Some(script),
        _ => None,
    }
}

// How many agents such a script has, and how many steps the first one has.
fn counts(alloc: Global, text: &str) -> Result<Option<(usize, usize)>, AllocError> {
    let counts = match packed(alloc, text.as_bytes()) {
        Some(script) => counts_of(alloc, &script),
        None => return Ok(None),
    };
    Ok(Some(counts?))
}

// Whether bytes are a script whose steps are kept as texts.
fn is_packed(alloc: Global, bytes: &[u8]) -> bool {
    packed(alloc, bytes).is_some()
}

// Whether a text is a script that was read whole.
fn is_whole(alloc: Global, text: &str) -> bool {
    matches!(read_kept(alloc, text.as_bytes()), Ok(KeptScript::Whole(_)))
}

// Scripts, how many agents they have, and how many steps the first one has.
const PLAIN: [(&str, (usize, usize)); 6] = [
    (r#"{"agents":[]}"#, (0, 0)),
    (" { \"agents\" :\n[ ] } ", (0, 0)),
    (
        r#"{"agents":[{"origin":"https://a.example","steps":[]}]}"#,
        (1, 0),
    ),
    (
        r#"{"agents":[{"grants":["persistent-storage"],"steps":[{"do":"estimate"},{"as":"d","do":"getDirectory"}],"origin":"data:,x"}]}"#,
        (1, 2),
    ),
    (
        r#"{"agents":[{"origin":"https://a.example","steps":[{"\u0064o":"write","stream":"w","data":{"hex":"00ff"}}]},{"origin":"https://b.example","steps":[]}]}"#,
        (2, 1),
    ),
    (
        r#"{"agents":[{"origin":"data:,x","grants":[],"grants":["persistent-storage"],"steps":[{"do":"post","tag":"\"\\\u000a\u00e9"}]}]}"#,
        (1, 1),
    ),
];

#[test]
fn plain_scripts_are_read(rt: HostRuntime) -> Result<(), AllocError> {
    for (text, wanted) in PLAIN {
        let found = counts(rt.alloc(), text)?;
        assert_eq!(rt; found, Some(wanted), "{text}");
    }
    Ok(())
}

// Texts that are not kept as the texts of their steps.
const OTHERS: [&str; 18] = [
    "",
    "{",
    "[]",
    "{}",
    r#"{"agents":{}}"#,
    r#"{"agents":[],"agents":[]}"#,
    r#"{"agents":[]} 1"#,
    r#"{"agents":[1]}"#,
    r#"{"agents":[{"origin":"https://a.example"}]}"#,
    r#"{"agents":[{"steps":[]}]}"#,
    r#"{"agents":[{"origin":"nonsense","steps":[]}]}"#,
    r#"{"agents":[{"origin":"nonsense","origin":"data:,x","steps":[]}]}"#,
    r#"{"agents":[{"origin":"https://a.example","steps":[],"x":1}]}"#,
    r#"{"agents":[{"origin":"https://a.example","steps":[],"steps":[]}]}"#,
    r#"{"agents":[{"origin":"https://a.example","steps":[],"grants":["camera"]}]}"#,
    r#"{"agents":[{"origin":"https://a.example","steps":[{"do":"fly"}]}]}"#,
    r#"{"agents":[{"origin":"https://a.example","steps":[{"do":"seek","stream":"w","position":1e400}]}]}"#,
    r#"{"agents":[{"origin":"https://a.example","steps":[{"do":"estimate"},]}]}"#,
];

#[test]
fn other_texts_are_left_to_the_reader_of_whole_texts(rt: HostRuntime) -> Result<(), AllocError> {
    for text in OTHERS {
        assert_eq!(rt; counts(rt.alloc(), text)?, None, "{text}");
    }
    assert!(rt; !is_packed(rt.alloc(), b"{\"agents\":[]}\xff"));
    Ok(())
}

#[test]
fn a_member_given_twice_is_read_whole(rt: HostRuntime) {
    let cases = [
        (r#"{"agents":1,"agents":[]}"#, true),
        (
            r#"{"agents":[{"origin":"nonsense","origin":"data:,x","steps":[]}]}"#,
            true,
        ),
        (
            r#"{"agents":[{"origin":"data:,x","steps":1,"steps":[]}]}"#,
            true,
        ),
        (r#"{"agents":[]}"#, false),
        (r#"{"agents":[1]}"#, false),
    ];
    for (text, wanted) in cases {
        assert_eq!(rt; is_whole(rt.alloc(), text), wanted, "{text}");
    }
}

// Adds an agent with so many steps.
fn add_agent(text: &mut String, steps: usize) -> Result<(), AllocError> {
    text.push_str(r#"{"origin":"https://a.example","steps":["#)?;
    for step in 0..steps {
        if step > 0 {
            text.push_str(",")?;
        }
        text.push_str(r#"{"do":"estimate"}"#)?;
    }
    text.push_str("]}")
}

// Adds a script of so many agents, each with so many steps.
fn add_agents(text: &mut String, agents: usize, steps: usize) -> Result<(), AllocError> {
    text.push_str(r#"{"agents":["#)?;
    for agent in 0..agents {
        if agent > 0 {
            text.push_str(",")?;
        }
        add_agent(text, steps)?;
    }
    text.push_str("]}")
}

// The counts of a script of so many agents, each with so many steps.
fn counts_of_many(
    alloc: Global,
    agents: usize,
    steps: usize,
) -> Result<Option<(usize, usize)>, AllocError> {
    let mut text = String::new(alloc);
    add_agents(&mut text, agents, steps)?;
    counts(alloc, text.as_str())
}

#[test]
fn limits_are_kept(rt: HostRuntime) -> Result<(), AllocError> {
    let cases = [
        (1, 20_000, Some((1, 20_000))),
        (1, 20_001, None),
        (2, 10_000, Some((2, 10_000))),
        (2, 10_001, None),
        (64, 1, Some((64, 1))),
        (65, 1, None),
    ];
    for (agents, steps, wanted) in cases {
        assert_eq!(rt;
            counts_of_many(rt.alloc(), agents, steps)?,
            wanted,
            "{agents} {steps}"
        );
    }
    Ok(())
}

// Whether the next step cuts a stream to seven bytes, and how many follow it.
fn first_and_rest(alloc: Global, mut steps: StepsAhead<'_>) -> Result<(bool, usize), AllocError> {
    let step = steps.next(alloc)?;
    let is_cut = matches!(&step, Some(Step::Truncate { size: 7, .. }));
    drop(step);
    let count = count_of(alloc, steps.copy())?;
    Ok((is_cut, count))
}

// Whether the head of a script's first agent has the grant and no step.
fn has_bare_head(alloc: Global, script: &PackedScript) -> Result<bool, AllocError> {
    let heads = script.heads(alloc)?;
    let is_bare = match heads.agents().first() {
        Some(head) => head.grant() && head.steps().is_empty(),
        None => false,
    };
    drop(heads);
    Ok(is_bare)
}

// Whether a script's first agent has the grant and a key, and what its steps are.
fn first_agent(alloc: Global, script: &PackedScript) -> Result<(bool, bool, usize), AllocError> {
    let Some(agent) = script.agents().first() else {
        return Ok((false, false, 0));
    };
    let is_first = agent.grant() && agent.key().is_some();
    let (is_cut, count) = first_and_rest(alloc, agent.steps())?;
    Ok((is_first, is_cut, count))
}

// Whether a script is of one agent with the grant, whose key and first step are these, and whose head has no step.
fn is_as_told(alloc: Global, script: &PackedScript) -> Result<bool, AllocError> {
    let first = first_agent(alloc, script)?;
    let is_bare = has_bare_head(alloc, script)?;
    Ok(is_bare && first == (true, true, 1))
}

// The same of a text.
fn is_text_as_told(alloc: Global, text: &str) -> Result<bool, AllocError> {
    match packed(alloc, text.as_bytes()) {
        Some(script) => is_as_told(alloc, &script),
        None => Ok(false),
    }
}

// Whether bytes are no step.
fn is_no_step(alloc: Global, bytes: &[u8]) -> Result<bool, AllocError> {
    let step = step_told(alloc, bytes)?;
    let is_none = step.is_none();
    drop(step);
    Ok(is_none)
}

#[test]
fn a_step_is_read_when_its_turn_comes(rt: HostRuntime) -> Result<(), AllocError> {
    let text =
        r#"{"agents":[{"origin":"https://a.example","grants":["persistent-storage"],"steps":[{"do":"truncate","stream":"w","size":7},{"do":"estimate"}]}]}"#;
    assert!(rt; is_text_as_told(rt.alloc(), text)?);
    assert!(rt; is_no_step(rt.alloc(), b"{\"do\":\"fly\"}")?);
    Ok(())
}

//! Many agents over one image: each one's lines are complete, in order, and those of its script alone.

use opfs_test_hosts::{judged, lines_with, new_image, run_over};
use std::alloc::{AllocError, Global};
use std::sync::Wait;
use std::test::Fail;
use std::thread::Threads;

// What stands for numbers in the texts below: `@` the agent, `#` the round, `$` how many bytes it stores, `~` its next step.
#[derive(Drop)]
struct Numbers {
    agent: u32,
    round: u32,
    step: u32,
}

const APART: &str = r#"{"origin":"https://a@.example","steps":["#;

const TOGETHER: &str = r#"{"origin":"https://a.example","steps":["#;

const BEGINS: &str = r#"{"do":"getDirectory","as":"d"}"#;

// A round of an agent's script, on a file of its own.
const ROUND: &str = r#",
{"do":"getFileHandle","dir":"d","name":"f@-#","create":true,"as":"f"},
{"do":"createWritable","file":"f","as":"w"},
{"do":"write","stream":"w","data":{"fill":65,"count":$}},
{"do":"close","stream":"w"},
{"do":"getFile","file":"f","as":"s"},
{"do":"slice","snapshot":"s","at":1,"len":2}"#;

const ROUND_LINES: &str =
    "@.~ getFileHandle ok\n@.~ createWritable ok\n@.~ write ok\n@.~ close ok\n@.~ getFile ok $ 0\n@.~ slice ok 2 4141\n";

// A round on one file of all agents of an origin.
const SHARED_ROUND: &str = r#",
{"do":"getFileHandle","dir":"d","name":"one","create":true,"as":"f"},
{"do":"createWritable","file":"f","keepExistingData":true,"as":"w"},
{"do":"write","stream":"w","data":"abc","position":0},
{"do":"close","stream":"w"},
{"do":"createWritable","file":"f","keepExistingData":true,"as":"v"},
{"do":"write","stream":"v","data":"abc"},
{"do":"abort","stream":"v"}"#;

const SHARED_LINES: &str =
    "@.~ getFileHandle ok\n@.~ createWritable ok\n@.~ write ok\n@.~ close ok\n@.~ createWritable ok\n@.~ write ok\n@.~ abort ok\n";

// A number behind a text.
fn push_number(alloc: Global, text: &mut String, number: u32) -> Result<(), AllocError> {
    let digits = format!(in alloc; "{number}")?;
    text.push_str(digits.as_str())
}

// How many bytes an agent stores in a round.
fn count_of(numbers: &Numbers) -> u32 {
    let of_agent = numbers.agent.saturating_mul(40);
    of_agent.saturating_add(numbers.round).saturating_add(3)
}

// One sign of a text, or the number that it stands for.
fn push_sign(
    alloc: Global,
    text: &mut String,
    numbers: &mut Numbers,
    sign: char,
) -> Result<(), AllocError> {
    match sign {
        '@' => push_number(alloc, text, numbers.agent),
        '#' => push_number(alloc, text, numbers.round),
        '$' => push_number(alloc, text, count_of(numbers)),
        '~' => {
            numbers.step = numbers.step.saturating_add(1);
            push_number(alloc, text, numbers.step)
        }
        _ => text.push(sign),
    }
}

// A text with its numbers.
fn push_filled(
    alloc: Global,
    text: &mut String,
    numbers: &mut Numbers,
    form: &str,
) -> Result<(), AllocError> {
    for sign in form.chars() {
        push_sign(alloc, text, numbers, sign)?;
    }
    Ok(())
}

// So many rounds of an agent, between a beginning and an end.
fn push_rounds(
    alloc: Global,
    text: &mut String,
    agent: u32,
    rounds: u32,
    forms: [&str; 3],
) -> Result<(), AllocError> {
    let [begins, form, ends] = forms;
    let mut numbers = Numbers {
        agent,
        round: 0,
        step: 0,
    };
    push_filled(alloc, text, &mut numbers, begins)?;
    for round in 0..rounds {
        numbers.round = round;
        push_filled(alloc, text, &mut numbers, form)?;
    }
    push_filled(alloc, text, &mut numbers, ends)
}

// How many agents run, how many rounds each, what its part of the script begins with, a round, and the round's lines.
type Crowd = (u32, u32, &'static str, &'static str, &'static str);

// The script of a crowd.
fn script_of(alloc: Global, crowd: &Crowd) -> Result<String, AllocError> {
    let mut text = String::new(alloc);
    text.push_str(r#"{"agents":["#)?;
    for number in 0..crowd.0 {
        if number > 0 {
            text.push_str(",\n")?;
        }
        let agent = number.saturating_add(1);
        let ends = "]}";
        push_rounds(alloc, &mut text, agent, 0, [crowd.2, "", BEGINS])?;
        push_rounds(alloc, &mut text, agent, crowd.1, ["", crowd.3, ends])?;
    }
    text.push_str("]}")?;
    Ok(text)
}

// The lines of one of its agents.
fn lines_of(alloc: Global, crowd: &Crowd, agent: u32) -> Result<String, AllocError> {
    let mut text = String::new(alloc);
    let forms = ["@.~ getDirectory ok\n", crowd.4, "@.~ end ok\n"];
    push_rounds(alloc, &mut text, agent, crowd.1, forms)?;
    Ok(text)
}

// The first agent whose lines are not as they are to be; 0 where all are.
fn first_wrong(alloc: Global, crowd: &Crowd, text: &str) -> Result<u32, AllocError> {
    for number in 0..crowd.0 {
        let agent = number.saturating_add(1);
        let front = format!(in alloc; "{agent}.")?;
        let some = lines_with(alloc, text, front.as_str())?;
        let wanted = lines_of(alloc, crowd, agent)?;
        if some.as_str() != wanted.as_str() {
            return Ok(agent);
        }
    }
    Ok(0)
}

// What a crowd prints over one image that has room for all that it stores.
fn printed<R: AllocGlobal + Threads + Wait + Sync>(
    rt: &R,
    crowd: &Crowd,
) -> Result<String, AllocError> {
    let image = new_image(rt.alloc(), "512 16 8192")?;
    let script = script_of(rt.alloc(), crowd)?;
    run_over(rt, &image, script.as_str())
}

const CROWDS: [Crowd; 6] = [
    (1, 2, APART, ROUND, ROUND_LINES),
    (8, 20, APART, ROUND, ROUND_LINES),
    (64, 3, APART, ROUND, ROUND_LINES),
    (8, 20, TOGETHER, ROUND, ROUND_LINES),
    (64, 3, TOGETHER, ROUND, ROUND_LINES),
    (16, 6, TOGETHER, SHARED_ROUND, SHARED_LINES),
];

// What `judge` says of what a crowd printed.
fn judgement<R: AllocGlobal + Threads + Wait + Sync>(
    rt: &R,
    crowd: &Crowd,
    text: &str,
) -> Result<String, AllocError> {
    let script = script_of(rt.alloc(), crowd)?;
    judged(rt, script.as_str(), text)
}

#[test]
fn each_of_many_agents_has_its_own_lines(rt: HostRuntime) -> Result<(), Fail> {
    for crowd in CROWDS {
        let text = printed(&rt, &crowd)?;
        assert!(rt; text.as_str().starts_with("0\n"), "{text}");
        let wrong = first_wrong(rt.alloc(), &crowd, text.as_str())?;
        assert_eq!(rt; wrong, 0);
        let verdict = judgement(&rt, &crowd, text.as_str())?;
        assert_eq!(rt; verdict.as_str(), "0\nyes\n");
    }
    Ok(())
}

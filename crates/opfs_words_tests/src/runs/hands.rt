//! Hands that go through scripts.

use opfs_base::{Key, Text};
use opfs_hist::{Op, Refusal, Reply, Word};
use opfs_script::{Script, Step, read_script};
use opfs_script_run::{Hand, Named, Open};
use std::alloc::{AllocError, Global};

// Steps of one agent that bind each kind of variable, and of another that name each.
const STEPS: &str = r#"{"agents":[{"origin":"https://a.example","steps":[
{"do":"getDirectory","bucket":"drafts","as":"d"},
{"do":"getFileHandle","dir":"d","name":"n","create":true,"as":"f"},
{"do":"createWritable","file":"f","as":"w"},
{"do":"createSyncAccessHandle","file":"f","as":"h"},
{"do":"getFile","file":"f","as":"s"},
{"do":"values","dir":"d","as":"i"}]},
{"origin":"https://a.example","steps":[
{"do":"getDirectoryHandle","dir":"d","name":"n","as":"x"},
{"do":"removeEntry","dir":"d","name":"n"},
{"do":"next","iterator":"i","as":"x"},
{"do":"resolve","dir":"d","entry":"f"},
{"do":"isSameEntry","entry":"f","other":"d"},
{"do":"slice","snapshot":"s","at":0,"len":1},
{"do":"write","stream":"w","data":"x"},
{"do":"seek","stream":"w","position":1},
{"do":"truncate","stream":"w","size":1},
{"do":"abort","stream":"w"},
{"do":"syncRead","sync":"h","len":1},
{"do":"syncWrite","sync":"h","data":"x"},
{"do":"syncTruncate","sync":"h","size":1},
{"do":"syncGetSize","sync":"h"},
{"do":"syncFlush","sync":"h"},
{"do":"syncClose","sync":"h"}]}]}"#;

// What the second agent's steps ask after the first's: the word, and the row.
const ASKED: [Option<(Word, u32)>; 16] = [
    Some((Word::GetDirectoryHandle, 0)),
    Some((Word::RemoveEntry, 0)),
    Some((Word::Next, 4)),
    Some((Word::Resolve, 0)),
    Some((Word::IsSameEntry, 0)),
    Some((Word::Slice, 3)),
    Some((Word::Write, 1)),
    Some((Word::Seek, 1)),
    Some((Word::Truncate, 1)),
    Some((Word::Abort, 1)),
    Some((Word::SyncRead, 2)),
    Some((Word::SyncWrite, 2)),
    Some((Word::SyncTruncate, 2)),
    Some((Word::SyncGetSize, 2)),
    Some((Word::SyncFlush, 2)),
    Some((Word::SyncClose, 2)),
];

// The script of these steps.
fn script(alloc: Global) -> Result<Script, AllocError> {
    match read_script(alloc, STEPS.as_bytes()) {
        Ok(script) => Ok(script),
        Err(_) => Err(AllocError),
    }
}

// The steps of an agent, counted from 0.
fn steps_of(script: &Script, agent: usize) -> &[Step] {
    match script.agents().get(agent) {
        Some(agent) => agent.steps(),
        None => &[],
    }
}

// The word of a call, and the row that it names, if any.
fn told(op: &Op) -> Option<(Word, u32)> {
    match op {
        Op::GetDirectoryHandle { .. } => Some((Word::GetDirectoryHandle, 0)),
        Op::RemoveEntry { .. } => Some((Word::RemoveEntry, 0)),
        Op::Next { row, .. } => Some((Word::Next, *row)),
        Op::Resolve { .. } => Some((Word::Resolve, 0)),
        Op::IsSameEntry { .. } => Some((Word::IsSameEntry, 0)),
        Op::Slice { row, .. } => Some((Word::Slice, *row)),
        Op::Write { row, .. } => Some((Word::Write, *row)),
        Op::Seek { row, .. } => Some((Word::Seek, *row)),
        Op::Truncate { row, .. } => Some((Word::Truncate, *row)),
        Op::Abort { row } => Some((Word::Abort, *row)),
        Op::SyncRead { row, .. } => Some((Word::SyncRead, *row)),
        Op::SyncWrite { row, .. } => Some((Word::SyncWrite, *row)),
        Op::SyncTruncate { row, .. } => Some((Word::SyncTruncate, *row)),
        Op::SyncGetSize { row } => Some((Word::SyncGetSize, *row)),
        Op::SyncFlush { row } => Some((Word::SyncFlush, *row)),
        Op::SyncClose { row } => Some((Word::SyncClose, *row)),
        _ => None,
    }
}

// What a step asks.
fn asked(alloc: Global, hand: &Hand, step: &Step) -> Result<Option<(Word, u32)>, AllocError> {
    match hand.op_of(alloc, step) {
        Ok(op) => {
            let asked = told(&op);
            drop(op);
            Ok(asked)
        }
        Err(error) => Err(error),
    }
}

// What steps ask.
fn all_asked(
    alloc: Global,
    hand: &Hand,
    steps: &[Step],
) -> Result<Vec<Option<(Word, u32)>>, AllocError> {
    let mut all = Vec::new(alloc);
    for step in steps {
        all.push(asked(alloc, hand, step)?)?;
    }
    Ok(all)
}

// Takes note of a step that is answered so.
fn note(
    alloc: Global,
    hand: &mut Hand,
    step: &Step,
    op: &Op,
    reply: Reply,
) -> Result<(), AllocError> {
    let noted = hand.then(alloc, step, op, &reply);
    drop(reply);
    noted
}

// Plays a step that is accepted, or refused.
fn play(alloc: Global, hand: &mut Hand, step: &Step, accepted: bool) -> Result<(), AllocError> {
    match hand.op_of(alloc, step) {
        Ok(op) => {
            let noted = if accepted {
                note(alloc, hand, step, &op, Reply::Done)
            } else {
                note(alloc, hand, step, &op, Reply::No(Refusal::NotFoundError))
            };
            drop(op);
            noted
        }
        Err(error) => Err(error),
    }
}

// Plays steps, all accepted, or all refused.
fn play_all(
    alloc: Global,
    hand: &mut Hand,
    steps: &[Step],
    accepted: bool,
) -> Result<(), AllocError> {
    for step in steps {
        play(alloc, hand, step, accepted)?;
    }
    Ok(())
}

// A hand that went through steps, all accepted, or all refused.
fn played(alloc: Global, steps: &[Step], accepted: bool) -> Result<Hand, AllocError> {
    let key = Key::of_text(alloc, "https://a.example")?;
    let mut hand = Hand::make(alloc, Some(key));
    match play_all(alloc, &mut hand, steps, accepted) {
        Ok(()) => Ok(hand),
        Err(error) => Err(error),
    }
}

// A hand that went through the first agent's steps, all accepted, or all refused.
fn hand_after(alloc: Global, accepted: bool) -> Result<Hand, AllocError> {
    let script = script(alloc)?;
    let hand = played(alloc, steps_of(&script, 0), accepted);
    drop(script);
    hand
}

// What the second agent's steps ask of such a hand.
fn asked_after(alloc: Global, accepted: bool) -> Result<Vec<Option<(Word, u32)>>, AllocError> {
    let script = script(alloc)?;
    let asked = match played(alloc, steps_of(&script, 0), accepted) {
        Ok(hand) => all_asked(alloc, &hand, steps_of(&script, 1)),
        Err(error) => Err(error),
    };
    drop(script);
    asked
}

// How many rows such a hand has.
fn rows_after(alloc: Global, accepted: bool) -> Result<u32, AllocError> {
    let hand = hand_after(alloc, accepted)?;
    let rows = hand.rows;
    drop(hand);
    Ok(rows)
}

// Which rows of such a hand are open.
fn opened_after(alloc: Global, accepted: bool) -> Result<Vec<Open>, AllocError> {
    let hand = hand_after(alloc, accepted)?;
    let opened = hand.opened().to_vec(alloc);
    drop(hand);
    opened
}

// The unit of the file that a variable names, as its text; empty where it names none.
fn unit_of<'a>(hand: &'a Hand, variable: &Text) -> &'a str {
    match hand.bound.named_by(variable) {
        Some(Named::File(at)) => at.key.as_str(),
        _ => "",
    }
}

// The same of a hand whose steps were accepted.
fn unit_after(alloc: Global, variable: &str) -> Result<String, AllocError> {
    let variable = Text::copy_of(alloc, variable)?;
    let hand = hand_after(alloc, true)?;
    let unit = String::from_str(alloc, unit_of(&hand, &variable));
    drop(hand);
    unit
}

#[test]
fn steps_ask_of_what_their_variables_name(rt: HostRuntime) -> Result<(), AllocError> {
    assert_eq!(rt; asked_after(rt.alloc(), true)?.as_slice(), ASKED.as_slice());
    Ok(())
}

#[test]
fn rows_are_numbered_and_open(rt: HostRuntime) -> Result<(), AllocError> {
    assert_eq!(rt; rows_after(rt.alloc(), true)?, 4);
    assert_eq!(rt;
        opened_after(rt.alloc(), true)?.as_slice(),
        [Open::Stream(1), Open::Handle(2)].as_slice()
    );
    Ok(())
}

#[test]
fn files_are_bound_in_their_unit(rt: HostRuntime) -> Result<(), AllocError> {
    let unit = unit_after(rt.alloc(), "f")?;
    assert_eq!(rt; unit.as_str(), "https://a.example#drafts");
    Ok(())
}

#[test]
fn a_refused_call_binds_nothing(rt: HostRuntime) -> Result<(), AllocError> {
    assert_eq!(rt;
        asked_after(rt.alloc(), false)?.as_slice(),
        [None; 16].as_slice()
    );
    assert_eq!(rt; rows_after(rt.alloc(), false)?, 0);
    Ok(())
}

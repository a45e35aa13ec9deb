//! Which transcripts with a line changed are transcripts still.

use opfs_test_hosts::Change;

// The agent of a line: the digits before the dot.
fn agent_of(line: &[u8]) -> u32 {
    let mut agent = 0u32;
    for byte in line {
        if !byte.is_ascii_digit() {
            return agent;
        }
        let digit = u32::from(byte.saturating_sub(b'0'));
        agent = agent.saturating_mul(10).saturating_add(digit);
    }
    agent
}

// Whether the lines at these two places are of two agents.
fn are_of_two(lines: &[Vec<u8>], first: usize, second: usize) -> bool {
    match (lines.get(first), lines.get(second)) {
        (Some(one), Some(other)) => agent_of(one.as_slice()) != agent_of(other.as_slice()),
        _ => false,
    }
}

// Whether the line at a place is the last one of its agent.
fn is_last(lines: &[Vec<u8>], at: usize) -> bool {
    for index in 0..lines.len() {
        if index > at {
            if !are_of_two(lines, at, index) {
                return false;
            }
        }
    }
    true
}

// Whether the changed text is a transcript still, where no two agents have one origin: their lines may come in any order,
// and nothing else may be changed.
pub fn is_still(lines: &[Vec<u8>], change: Change, at: usize) -> bool {
    let next = at.saturating_add(1);
    match change {
        Change::Exchanged => next >= lines.len() || are_of_two(lines, at, next),
        Change::Moved => is_last(lines, at),
        _ => false,
    }
}

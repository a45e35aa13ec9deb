//! Two agents in turn, and many at once.
use crate::agents::run_hall;
use crate::marks::Mark;
use crate::meeting::meet;
use std::test::Fail;

#[test]
fn the_second_agent_finds_what_the_first_entered(rt: HostRuntime) -> Result<(), Fail> {
    let meeting = meet(&rt).ok_or("no memory")?;
    let marks: &[Mark] = &meeting.marks.list;
    assert_eq!(rt; (meeting.first_found, meeting.second_found), (0, 1));
    assert_eq!(rt; marks.len(), 2);
    assert_eq!(rt; (marks[0].agent, marks[0].count), (1, 7));
    assert_eq!(rt; (marks[1].agent, marks[1].count), (2, 9));
    Ok(())
}

/// Whether the marks of each agent are those of its turns, in order.
fn in_order(list: &[Mark], agents: u32, turns: u32) -> bool {
    for agent in 1..=agents {
        let mut next = 0;
        for mark in list {
            if mark.agent == agent {
                if mark.count != next {
                    return false;
                }
                next = mark.count.wrapping_add(1);
            }
        }
        if next != turns {
            return false;
        }
    }
    true
}

#[test]
fn eight_agents_take_2000_turns_each(rt: HostRuntime) -> Result<(), Fail> {
    let (marks, complete) = run_hall(&rt, 8, 2_000).ok_or("no memory")?;
    assert!(rt; complete, "memory ran out");
    assert_eq!(rt; marks.list.len(), 16_000);
    assert!(rt; in_order(&marks.list, 8, 2_000));
    Ok(())
}

#[test]
fn sixty_four_agents_take_250_turns_each(rt: HostRuntime) -> Result<(), Fail> {
    let (marks, complete) = run_hall(&rt, 64, 250).ok_or("no memory")?;
    assert!(rt; complete, "memory ran out");
    assert_eq!(rt; marks.list.len(), 16_000);
    assert!(rt; in_order(&marks.list, 64, 250));
    Ok(())
}

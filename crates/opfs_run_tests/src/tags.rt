//! Agents that post and await.

use crate::gates::{Delay, Late};
use opfs_test_hosts::{new_image, run_behind};
use std::alloc::AllocError;
use std::sync::Wait;
use std::test::Fail;
use std::thread::Threads;

// The first posts a tag, and awaits one that nobody posts; the second awaits the first's.
const LEFT_ALONE: &str = r#"{"agents":[
{"origin":"https://a.example","steps":[{"do":"post","tag":"p"},{"do":"await","tag":"q"}]},
{"origin":"https://a.example","steps":[{"do":"await","tag":"p"}]}]}"#;

const IS_STUCK: &str = "0\n1.1 post ok\n2.1 await ok\n2.2 end ok\n1.2 await Stuck\n1.3 end ok\n";

// Each awaits what the other posts.
const BOTH_POST: &str = r#"{"agents":[
{"origin":"https://a.example","steps":[{"do":"post","tag":"p"},{"do":"await","tag":"q"}]},
{"origin":"https://a.example","steps":[{"do":"await","tag":"p"},{"do":"post","tag":"q"}]}]}"#;

const FIRST_ENDS: &str =
    "0\n1.1 post ok\n2.1 await ok\n2.2 post ok\n1.2 await ok\n1.3 end ok\n2.3 end ok\n";

const SECOND_ENDS: &str =
    "0\n1.1 post ok\n2.1 await ok\n2.2 post ok\n1.2 await ok\n2.3 end ok\n1.3 end ok\n";

const SECOND_IS_GONE: &str =
    "0\n1.1 post ok\n2.1 await ok\n2.2 post ok\n2.3 end ok\n1.2 await ok\n1.3 end ok\n";

// Each awaits what nobody posts.
const NONE_POSTS: &str = r#"{"agents":[
{"origin":"https://a.example","steps":[{"do":"await","tag":"q"}]},
{"origin":"https://a.example","steps":[{"do":"await","tag":"p"}]}]}"#;

const SECOND_STUCK: &str = "0\n2.1 await Stuck\n2.2 end ok\n1.1 await Stuck\n1.2 end ok\n";

const FIRST_STUCK: &str = "0\n1.1 await Stuck\n1.2 end ok\n2.1 await Stuck\n2.2 end ok\n";

// A script, all that it may print, the delays before and behind its steps, and which of the outputs these are to bring about.
type Meeting = (
    &'static str,
    &'static [&'static str],
    &'static [Delay],
    &'static [Delay],
    &'static str,
);

const OF_ONE: &[&str] = &[IS_STUCK];

const OF_BOTH: &[&str] = &[FIRST_ENDS, SECOND_ENDS, SECOND_IS_GONE];

const OF_NONE: &[&str] = &[FIRST_STUCK, SECOND_STUCK];

const MEETINGS: [Meeting; 8] = [
    (LEFT_ALONE, OF_ONE, &[], &[], IS_STUCK),
    (LEFT_ALONE, OF_ONE, &[(1, 2, 20_000)], &[], IS_STUCK),
    (LEFT_ALONE, OF_ONE, &[(2, 1, 20_000)], &[], IS_STUCK),
    (BOTH_POST, OF_BOTH, &[], &[(2, 2, 20_000)], FIRST_ENDS),
    (
        BOTH_POST,
        OF_BOTH,
        &[],
        &[(2, 2, 20_000), (1, 2, 60_000)],
        SECOND_ENDS,
    ),
    (BOTH_POST, OF_BOTH, &[(1, 2, 40_000)], &[], SECOND_IS_GONE),
    (NONE_POSTS, OF_NONE, &[(1, 1, 20_000)], &[], FIRST_STUCK),
    (NONE_POSTS, OF_NONE, &[(2, 1, 20_000)], &[], SECOND_STUCK),
];

// Whether a text is one of these.
fn is_among(text: &str, wanted: &[&str]) -> bool {
    wanted.iter().any(|one| text == *one)
}

// Whether a script never prints what it may not, and prints once what is wanted, in so many runs.
fn is_met<R: AllocGlobal + Threads + Wait + Sync>(
    rt: &R,
    meeting: &Meeting,
    runs: u32,
) -> Result<bool, AllocError> {
    let gate = Late {
        before: meeting.2,
        after: meeting.3,
    };
    let mut seen = false;
    for _ in 0..runs {
        let image = new_image(rt.alloc(), "1 1 1")?;
        let text = run_behind(rt, &image, &gate, meeting.0)?;
        if !is_among(text.as_str(), meeting.1) {
            return Ok(false);
        }
        if text.as_str() == meeting.4 {
            seen = true;
        }
    }
    Ok(seen)
}

#[test]
fn agents_meet_as_they_may_and_in_each_such_way(rt: HostRuntime) -> Result<(), Fail> {
    for meeting in MEETINGS {
        let met = is_met(&rt, &meeting, 40)?;
        assert!(rt; met, "{}", meeting.4);
    }
    Ok(())
}

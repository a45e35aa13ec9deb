//! Two agents that run at the same time.

use crate::gates::{Hold, Signal};
use opfs_test_hosts::{new_image, run_behind};
use std::alloc::AllocError;
use std::sync::Wait;
use std::test::Fail;
use std::thread::Threads;

// Two agents of different origins with one step each.
const TWO: &str = r#"{"agents":[
{"origin":"https://a.example","steps":[{"do":"persisted"}]},
{"origin":"https://b.example","steps":[{"do":"persisted"}]}]}"#;

// What is printed where one of them is held until the other's step is answered.
fn held<R: AllocGlobal + Threads + Wait + Sync>(
    rt: &R,
    held: u32,
) -> Result<Option<String>, AllocError> {
    let gate = Hold {
        held,
        signal: Signal::make(),
    };
    let image = new_image(rt.alloc(), "16 4 8")?;
    let text = run_behind(rt, &image, &gate, TWO)?;
    Ok(if gate.signal.is_kept() {
        Some(text)
    } else {
        None
    })
}

#[test]
fn agents_run_at_the_same_time(rt: HostRuntime) -> Result<(), Fail> {
    let first = held(&rt, 1)?.ok_or("agent 1 was held too long")?;
    assert!(rt;
        first.as_str().starts_with("0\n2.1 persisted ok false\n"),
        "{first}"
    );
    assert_eq!(rt; first.as_str().lines().count(), 5);
    let second = held(&rt, 2)?.ok_or("agent 2 was held too long")?;
    assert!(rt;
        second.as_str().starts_with("0\n1.1 persisted ok false\n"),
        "{second}"
    );
    assert_eq!(rt; second.as_str().lines().count(), 5);
    Ok(())
}

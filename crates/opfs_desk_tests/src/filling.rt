//! Scripts whose files fill the store: what agents on threads tell of them, evictions and refusals among it, is judged by the
//! plain machine.

use opfs_test_hosts::{Deck, judged, script_of, tried};
use std::alloc::AllocError;
use std::sync::Wait;
use std::test::Fail;
use std::thread::Threads;

// How many scripts are drawn at once.
const SCRIPTS: u64 = 20;

// One to four agents of three origins.
const DECK: Deck = Deck {
    agents: 4,
    origins: &[
        "https://a.example",
        "https://b.example",
        "https://c.example",
    ],
    apart: true,
    front: FRONT,
    least: 12,
    more: 18,
    steps: &STEPS,
    tail: TAIL,
};

// What each agent begins with.
const FRONT: &str = r#"","grants":["persistent-storage"],"steps":[{"do":"getDirectory","as":"d"}
,{"do":"getFileHandle","dir":"d","name":"a","create":true,"as":"f"}
,{"do":"getFileHandle","dir":"d","name":"b","create":true,"as":"g"}"#;

// What is drawn from. An origin may have 32 MiB, and all files together 64 MiB.
const STEPS: [&str; 57] = [
    // Files that are stored whole.
    r#"{"do":"createWritable","file":"f","as":"w"},
{"do":"truncate","stream":"w","size":27262976},
{"do":"close","stream":"w"}"#,
    r#"{"do":"createWritable","file":"f","as":"w"},
{"do":"write","stream":"w","data":{"fill":65,"count":3145728}},
{"do":"write","stream":"w","data":{"fill":66,"count":1000},"position":25165000},
{"do":"close","stream":"w"}"#,
    r#"{"do":"createWritable","file":"g","as":"w"},
{"do":"write","stream":"w","data":{"fill":67,"count":2097153}},
{"do":"truncate","stream":"w","size":12582912},
{"do":"close","stream":"w"}"#,
    r#"{"do":"createWritable","file":"g","as":"w"},
{"do":"write","stream":"w","data":{"fill":68,"count":1048576},"position":22020096},
{"do":"close","stream":"w"}"#,
    r#"{"do":"createWritable","file":"f","keepExistingData":true,"as":"w"},
{"do":"write","stream":"w","data":{"fill":69,"count":2097152},"position":1048000},
{"do":"close","stream":"w"}"#,
    r#"{"do":"createWritable","file":"g","keepExistingData":true,"as":"w"},
{"do":"seek","stream":"w","position":4194304},
{"do":"write","stream":"w","data":{"fill":70,"count":1048577}},
{"do":"close","stream":"w"}"#,
    // Streams that stay open.
    r#"{"do":"createWritable","file":"f","keepExistingData":true,"as":"v"}"#,
    r#"{"do":"createWritable","file":"g","as":"v"},
{"do":"truncate","stream":"v","size":20971520}"#,
    r#"{"do":"createWritable","file":"f","as":"v"},
{"do":"write","stream":"v","data":{"fill":71,"count":4096},"position":15728640}"#,
    r#"{"do":"write","stream":"v","data":{"fill":72,"count":1048576},"position":4095}"#,
    r#"{"do":"truncate","stream":"v","size":9437185}"#,
    r#"{"do":"close","stream":"v"}"#,
    r#"{"do":"close","stream":"v"}"#,
    r#"{"do":"abort","stream":"v"}"#,
    r#"{"do":"abort","stream":"v"}"#,
    // Access handles.
    r#"{"do":"createSyncAccessHandle","file":"f","as":"h"},
{"do":"syncTruncate","sync":"h","size":10485760}"#,
    r#"{"do":"createSyncAccessHandle","file":"f","as":"h"},
{"do":"syncTruncate","sync":"h","size":0}"#,
    r#"{"do":"createSyncAccessHandle","file":"g","as":"h"},
{"do":"syncTruncate","sync":"h","size":0}"#,
    r#"{"do":"syncWrite","sync":"h","data":{"fill":73,"count":2097152},"at":3000}"#,
    r#"{"do":"syncWrite","sync":"h","data":{"fill":74,"count":5000},"at":20971520}"#,
    r#"{"do":"syncTruncate","sync":"h","size":4194305}"#,
    r#"{"do":"syncFlush","sync":"h"}"#,
    r#"{"do":"syncFlush","sync":"h"}"#,
    r#"{"do":"syncClose","sync":"h"}"#,
    r#"{"do":"syncClose","sync":"h"}"#,
    r#"{"do":"syncRead","sync":"h","len":40,"at":2990}"#,
    r#"{"do":"syncGetSize","sync":"h"}"#,
    r#"{"do":"createSyncAccessHandle","file":"f","mode":"read-only","as":"k"}"#,
    r#"{"do":"syncRead","sync":"k","len":24,"at":1048568}"#,
    r#"{"do":"syncClose","sync":"k"}"#,
    // Files without bytes whose blocks an access handle keeps.
    r#"{"do":"getFileHandle","dir":"d","name":"y","create":true,"as":"m"},
{"do":"createWritable","file":"m","as":"w"},
{"do":"truncate","stream":"w","size":23068672},
{"do":"close","stream":"w"},
{"do":"createSyncAccessHandle","file":"m","as":"y"},
{"do":"syncTruncate","sync":"y","size":0}"#,
    r#"{"do":"getFileHandle","dir":"d","name":"z","create":true,"as":"m"},
{"do":"createWritable","file":"m","as":"w"},
{"do":"truncate","stream":"w","size":23068672},
{"do":"close","stream":"w"},
{"do":"createSyncAccessHandle","file":"m","as":"z"},
{"do":"syncTruncate","sync":"z","size":0}"#,
    // Another bucket.
    r#"{"do":"getDirectory","bucket":"x","as":"e"},
{"do":"getFileHandle","dir":"e","name":"c","create":true,"as":"g"}"#,
    r#"{"do":"getDirectory","bucket":"x","as":"e"},
{"do":"getFileHandle","dir":"e","name":"c","create":true,"as":"m"},
{"do":"createWritable","file":"m","as":"w"},
{"do":"truncate","stream":"w","size":23068672},
{"do":"write","stream":"w","data":{"fill":75,"count":1048576}},
{"do":"close","stream":"w"}"#,
    r#"{"do":"syncClose","sync":"y"},
{"do":"syncClose","sync":"z"}"#,
    r#"{"do":"persist","bucket":"x"}"#,
    r#"{"do":"persisted","bucket":"x"}"#,
    r#"{"do":"persisted"}"#,
    r#"{"do":"estimate"}"#,
    r#"{"do":"estimate"}"#,
    r#"{"do":"moment","ms":1700000000000}"#,
    // Directories, and what is seen of files.
    r#"{"do":"getDirectory","as":"d"}"#,
    r#"{"do":"getDirectoryHandle","dir":"d","name":"p","create":true,"as":"e"}"#,
    r#"{"do":"getDirectoryHandle","dir":"d","name":"p","create":true,"as":"e"},
{"do":"getFileHandle","dir":"e","name":"q","create":true,"as":"g"}"#,
    r#"{"do":"removeEntry","dir":"d","name":"p","recursive":true}"#,
    r#"{"do":"removeEntry","dir":"d","name":"p"}"#,
    r#"{"do":"removeEntry","dir":"d","name":"a"}"#,
    r#"{"do":"getFileHandle","dir":"d","name":"a","create":true,"as":"f"}"#,
    r#"{"do":"getFileHandle","dir":"d","name":"b","create":true,"as":"g"}"#,
    r#"{"do":"values","dir":"d","as":"i"}"#,
    r#"{"do":"next","iterator":"i","as":"x"}"#,
    r#"{"do":"next","iterator":"i","as":"f"}"#,
    r#"{"do":"resolve","dir":"d","entry":"g"}"#,
    r#"{"do":"isSameEntry","entry":"f","other":"g"}"#,
    r#"{"do":"getFile","file":"f","as":"s"}"#,
    r#"{"do":"getFile","file":"g","as":"s"},
{"do":"slice","snapshot":"s","at":1048000,"len":30}"#,
    r#"{"do":"slice","snapshot":"s","at":4194300,"len":30}"#,
];

// What each agent ends with: it looks at what is there, and at what stands in it.
const TAIL: &str = r#",
{"do":"abort","stream":"v"},
{"do":"abort","stream":"w"},
{"do":"syncClose","sync":"h"},
{"do":"syncClose","sync":"k"},
{"do":"estimate"},
{"do":"persisted"},
{"do":"getDirectory","as":"d"},
{"do":"values","dir":"d","as":"i"},
{"do":"next","iterator":"i","as":"x"},
{"do":"getFile","file":"x","as":"s"},
{"do":"slice","snapshot":"s","at":4080,"len":32},
{"do":"slice","snapshot":"s","at":1048560,"len":32},
{"do":"slice","snapshot":"s","at":14680048,"len":32},
{"do":"next","iterator":"i","as":"x"},
{"do":"getFile","file":"x","as":"s"},
{"do":"slice","snapshot":"s","at":4080,"len":32},
{"do":"slice","snapshot":"s","at":1048560,"len":32},
{"do":"slice","snapshot":"s","at":14680048,"len":32},
{"do":"next","iterator":"i","as":"x"},
{"do":"getFile","file":"x","as":"s"},
{"do":"slice","snapshot":"s","at":4080,"len":32},
{"do":"slice","snapshot":"s","at":1048560,"len":32},
{"do":"slice","snapshot":"s","at":14680048,"len":32},
{"do":"getDirectoryHandle","dir":"d","name":"p","as":"d"},
{"do":"values","dir":"d","as":"i"},
{"do":"next","iterator":"i","as":"x"},
{"do":"getFile","file":"x","as":"s"},
{"do":"slice","snapshot":"s","at":4080,"len":32},
{"do":"slice","snapshot":"s","at":1048560,"len":32},
{"do":"slice","snapshot":"s","at":14680048,"len":32},
{"do":"getDirectory","bucket":"x","as":"d"},
{"do":"values","dir":"d","as":"i"},
{"do":"next","iterator":"i","as":"x"},
{"do":"getFile","file":"x","as":"s"},
{"do":"slice","snapshot":"s","at":4080,"len":32},
{"do":"slice","snapshot":"s","at":1048560,"len":32},
{"do":"slice","snapshot":"s","at":14680048,"len":32},
{"do":"estimate"}]}"#;

// What was seen: the first script that is not judged to be right, and how many lines tell of evictions, of bytes over the
// quota, and of bytes that no block is left for.
#[derive(Drop)]
struct Seen {
    wrong: Option<u64>,
    evicted: usize,
    over: usize,
    full: usize,
}

// How many lines of a text have this.
fn lines_about(text: &str, what: &str) -> usize {
    let mut count = 0usize;
    for line in text.lines() {
        if line.contains(what) {
            count = count.saturating_add(1);
        }
    }
    count
}

// Looks at the script of a number.
fn look<R: AllocGlobal + Threads + Wait + Sync>(
    rt: &R,
    seed: u64,
    seen: &mut Seen,
) -> Result<(), AllocError> {
    let script = script_of(rt.alloc(), seed, &DECK)?;
    let told = tried(rt, script.as_str())?;
    let verdict = judged(rt, script.as_str(), told.as_str())?;
    if verdict.as_str() != "0\nyes\n" {
        seen.wrong = seen.wrong.or(Some(seed));
    }
    seen.evicted = seen
        .evicted
        .saturating_add(lines_about(told.as_str(), "evict "));
    seen.over = seen
        .over
        .saturating_add(lines_about(told.as_str(), " QuotaExceededError "));
    seen.full = seen
        .full
        .saturating_add(lines_about(told.as_str(), " DataFull "));
    Ok(())
}

// Looks at the scripts of the numbers from this one on.
fn seen_from<R: AllocGlobal + Threads + Wait + Sync>(
    rt: &R,
    first: u64,
) -> Result<Seen, AllocError> {
    let mut seen = Seen {
        wrong: None,
        evicted: 0,
        over: 0,
        full: 0,
    };
    for index in 0..SCRIPTS {
        look(rt, index.wrapping_add(first), &mut seen)?;
    }
    Ok(seen)
}

// What is wrong with the scripts of the numbers from this one on; nothing where all are right, and each happened often enough.
fn wrong_from<R: AllocGlobal + Threads + Wait + Sync>(
    rt: &R,
    first: u64,
) -> Result<String, AllocError> {
    let Seen {
        wrong,
        evicted,
        over,
        full,
    } = seen_from(rt, first)?;
    if let Some(seed) = wrong {
        return format!(in rt.alloc(); "script {seed}");
    }
    if evicted > 3 && over > 20 && full > 5 {
        return Ok(String::new(rt.alloc()));
    }
    format!(in rt.alloc(); "only {evicted} {over} {full}")
}

#[test]
fn a_store_that_fills_answers_as_the_plain_machine(rt: HostRuntime) -> Result<(), Fail> {
    assert_eq!(rt; wrong_from(&rt, 0)?.as_str(), "");
    Ok(())
}

#[test]
fn more_stores_that_fill_answer_as_the_plain_machine(rt: HostRuntime) -> Result<(), Fail> {
    assert_eq!(rt; wrong_from(&rt, 100)?.as_str(), "");
    Ok(())
}

#[test]
fn still_more_stores_that_fill_answer_as_the_plain_machine(rt: HostRuntime) -> Result<(), Fail> {
    assert_eq!(rt; wrong_from(&rt, 200)?.as_str(), "");
    Ok(())
}

//! Runs over images that are files of a folder.

use crate::gates::{Late, Signal};
use opfs_files::DirHost;
use opfs_memory::MemSource;
use opfs_outside::{Gate, Host};
use opfs_test_hosts::{Ask, asked, bytes_of, checked, done, first_other};
use std::alloc::AllocError;
use std::fs::{self, File, Files};
use std::sync::Wait;
use std::test::Fail;
use std::thread::Threads;

// One agent stores a file; the other, of another origin, only asks twice.
const SCRIPT: &str = r#"{"agents":[
{"origin":"https://a.example","steps":[{"do":"getDirectory","as":"d"},
{"do":"getFileHandle","dir":"d","name":"note","create":true,"as":"f"},
{"do":"createWritable","file":"f","as":"w"},
{"do":"write","stream":"w","data":"hello"},
{"do":"close","stream":"w"}]},
{"origin":"https://b.example","steps":[{"do":"persisted"},{"do":"persisted"}]}]}"#;

const CHECKED: &str =
    "0\nfile 2cf24dba5fb0a30e26e83b2ac5b9e29e1b161e5c1fa7425e73043362938b9824 https://a.example [\"note\"]\nok 1 1 1 1 132\n";

const SEEN: &str = "opfs_run_seen.image";

const SHARED: &str = "opfs_run_shared.image";

// Looks at the image's file when the first agent's close is answered, which has not ended then, and holds the second
// before its second step until it has looked.
#[derive(Drop)]
struct Looking<'a, R: Files<File = File> + AllocGlobal + Sync> {
    rt: &'a R,
    looked: Signal,
    found: Signal,
}

// Whether the file stands for an image with all that the first agent stores.
fn is_stored<R: Files<File = File> + AllocGlobal>(rt: &R) -> bool {
    let Ok(image) = fs::read(rt, SEEN) else {
        return false;
    };
    match checked(rt.alloc(), &image) {
        Ok(text) => text.as_str() == CHECKED,
        Err(_) => false,
    }
}

impl<R: Files<File = File> + AllocGlobal + Sync> Gate for Looking<'_, R> {
    fn before(&self, agent: u32, step: u32) {
        if agent == 2 && step == 2 {
            self.looked.wait();
        }
    }

    fn after(&self, agent: u32, step: u32) {
        if agent == 1 && step == 5 {
            if is_stored(self.rt) {
                self.found.tell();
            }
            self.looked.tell();
        }
    }
}

// What a run prints over a host that has a new image there.
fn ran_anew<R: AllocGlobal + Threads + Wait + Sync, H: Host, G: Gate>(
    rt: &R,
    host: &mut H,
    path: &str,
    gate: &G,
) -> Result<String, AllocError> {
    let alloc = rt.alloc();
    let command = format!(in alloc; "format {path} 16 4 8")?;
    let _ = done(alloc, command.as_str(), host)?;
    let command = format!(in alloc; "run {path}")?;
    let source = MemSource::make(bytes_of(alloc, SCRIPT)?, Vec::new(alloc));
    asked(rt, command.as_str(), host, gate, source, 65_536)
}

#[test]
fn a_close_stands_in_the_file_while_the_agents_run(rt: HostRuntime) -> Result<(), Fail> {
    let gate = Looking {
        rt: &rt,
        looked: Signal::make(),
        found: Signal::make(),
    };
    let mut host = DirHost::make(&rt);
    let text = ran_anew(&rt, &mut host, SEEN, &gate)?;
    assert!(rt; gate.looked.is_kept());
    assert!(rt; gate.found.is_kept());
    assert!(rt; text.as_str().starts_with("0\n"), "{text}");
    assert!(rt;
        text.as_str().contains("1.6 end ok\n") && text.as_str().contains("2.3 end ok\n"),
        "{text}"
    );
    fs::remove_file(&rt, SEEN)?;
    Ok(())
}

// Over a host at a path whose file is out, or is not there.
const SHARED_IS_OUT: [Ask; 2] = [
    ("run opfs_run_shared.image", SCRIPT, "4\nopfs: host fault\n"),
    ("list opfs_run_shared.image", "", "4\nopfs: host fault\n"),
];

const NOWHERE: [Ask; 2] = [
    (
        "run opfs_run_nowhere/image",
        SCRIPT,
        "4\nopfs: host fault\n",
    ),
    ("list opfs_run_nowhere/image", "", "4\nopfs: host fault\n"),
];

// The same where another host has it.
const SHARED_IS_THERE: [Ask; 1] = [("check opfs_run_shared.image", "", CHECKED)];

#[test]
fn an_image_serves_one_run_at_a_time(rt: HostRuntime) -> Result<(), Fail> {
    let mut first = DirHost::make(&rt);
    let mut second = DirHost::make(&rt);
    let open = Late {
        before: &[],
        after: &[],
    };
    let text = ran_anew(&rt, &mut first, SHARED, &open)?;
    assert!(rt; text.as_str().starts_with("0\n"), "{text}");
    let out = first.fetch(SHARED)?;
    assert_eq!(rt; first_other(&rt, &mut second, &SHARED_IS_OUT)?.as_str(), "");
    first.give_back(SHARED, out)?;
    assert_eq!(rt;
        first_other(&rt, &mut second, &SHARED_IS_THERE)?.as_str(),
        ""
    );
    fs::remove_file(&rt, SHARED)?;
    assert_eq!(rt; first_other(&rt, &mut second, &SHARED_IS_OUT)?.as_str(), "");
    assert_eq!(rt; first_other(&rt, &mut first, &NOWHERE)?.as_str(), "");
    Ok(())
}

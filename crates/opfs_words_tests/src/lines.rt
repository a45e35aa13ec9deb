//! Lines of transcripts, and status lines.

ghost use Rattle.std.specs.Prelude.{IsTrue};
ghost use Rattle.opfs_base.specs.Names.{is_valid_name};

use opfs_base::{Bytes, Key, Kind, Locator, Name, Path, Text, is_valid_name};
use opfs_hist::{Entries, Entry, Given, History, Op, Pending, Refusal, Reply, Room};
use opfs_locks::LockValue;
use opfs_print::{BadImage, BadScript, End, line, reply_text, status_line, transcript};
use std::alloc::{AllocError, Global};

// Whether a reply is printed so.
fn shows(alloc: Global, reply: Reply, wanted: &str) -> Result<bool, AllocError> {
    let text = reply_text(alloc, &reply);
    drop(reply);
    Ok(text?.as_str() == wanted)
}

// Refusals, and how they are printed.
const REFUSALS: [(Refusal, &str); 14] = [
    (
        Refusal::NoModificationAllowedError(LockValue::Shared, 2),
        "NoModificationAllowedError taken-shared 2",
    ),
    (
        Refusal::QuotaExceededError(2, 1, 2),
        "QuotaExceededError 2 1 2",
    ),
    (Refusal::MetaFull(3898, 277, 4096), "MetaFull 3898 277 4096"),
    (Refusal::DataFull(3, 2, 4), "DataFull 3 2 4"),
    (Refusal::TypeError, "TypeError"),
    (Refusal::NotFoundError, "NotFoundError"),
    (Refusal::TypeMismatchError, "TypeMismatchError"),
    (
        Refusal::InvalidModificationError,
        "InvalidModificationError",
    ),
    (Refusal::InvalidStateError, "InvalidStateError"),
    (Refusal::SecurityError, "SecurityError"),
    (Refusal::NameLimit, "NameLimit"),
    (Refusal::DiskFault, "DiskFault"),
    (Refusal::Stuck, "Stuck"),
    (Refusal::Unbound, "Unbound"),
];

#[test]
fn refusals_are_printed_with_what_they_carry(rt: HostRuntime) -> Result<(), AllocError> {
    for (refusal, text) in REFUSALS {
        assert!(rt; shows(rt.alloc(), Reply::No(refusal), text)?, "{text}");
    }
    Ok(())
}

// The bytes that were read.
fn read(alloc: Global, bytes: &[u8]) -> Result<Reply, AllocError> {
    Ok(Reply::Read(Bytes::copy_of(alloc, bytes)?))
}

// Which replies with numbers, or with nothing, are printed so.
fn plain_shown(alloc: Global) -> Result<[bool; 8], AllocError> {
    Ok([
        shows(alloc, Reply::Done, "ok")?,
        shows(alloc, Reply::Length(5), "ok 5")?,
        shows(alloc, Reply::Flag(true), "ok true")?,
        shows(alloc, Reply::Flag(false), "ok false")?,
        shows(alloc, Reply::Last, "ok end")?,
        shows(alloc, Reply::NoPath, "ok null")?,
        shows(
            alloc,
            Reply::FileInfo(11, 1_700_000_000_000),
            "ok 11 1700000000000",
        )?,
        shows(alloc, Reply::Estimate(8192, 4096), "ok 8192 4096")?,
    ])
}

// Which replies with bytes or names are printed so.
fn lists_shown(alloc: Global) -> Result<[bool; 3], AllocError> {
    Ok([
        shows(alloc, read(alloc, b"")?, "ok 0")?,
        shows(alloc, read(alloc, b"cd\x00")?, "ok 3 636400")?,
        shows(alloc, Reply::Names(Path::root(alloc)), "ok []")?,
    ])
}

#[test]
fn values_are_printed_behind_ok(rt: HostRuntime) -> Result<(), AllocError> {
    assert_eq!(rt; plain_shown(rt.alloc())?, [true; 8]);
    assert_eq!(rt; lists_shown(rt.alloc())?, [true; 3]);
    Ok(())
}

// Whether a name is printed so as a child.
fn shows_child(alloc: Global, name: &str, wanted: &str) -> Result<bool, AllocError>
    requires { IsTrue (is_valid_name name.now) }
{
    let text = format!(in alloc; "ok directory {wanted}")?;
    let name = Name::read(alloc, name)?;
    shows(alloc, Reply::Child(Kind::Directory, name), text.as_str())
}

// The path of a name in itself.
fn twice(alloc: Global, name: &str) -> Result<Path, AllocError>
    requires { IsTrue (is_valid_name name.now) }
{
    let name = Name::read(alloc, name)?;
    let first = Path::root(alloc).child(alloc, &name)?;
    first.child(alloc, &name)
}

// Whether a name, twice, is printed so as a path.
fn shows_path(alloc: Global, name: &str, wanted: &str) -> Result<bool, AllocError>
    requires { IsTrue (is_valid_name name.now) }
{
    let text = format!(in alloc; "ok [{wanted},{wanted}]")?;
    let path = twice(alloc, name)?;
    shows(alloc, Reply::Names(path), text.as_str())
}

// Whether a name is printed so, as a child and, twice, as a path.
fn shows_name(alloc: Global, name: &str, wanted: &str) -> Result<bool, AllocError> {
    if !is_valid_name(name) {
        return Ok(false);
    }
    let is_child = shows_child(alloc, name, wanted)?;
    Ok(is_child && shows_path(alloc, name, wanted)?)
}

#[test]
fn names_are_printed_as_json(rt: HostRuntime) -> Result<(), AllocError> {
    assert!(rt; shows_name(rt.alloc(), "b", r#""b""#)?);
    assert!(rt; shows_name(rt.alloc(), "a\"\\\n\u{1}é", r#""a\"\\\n\u0001é""#)?);
    Ok(())
}

// Adds an entry of an agent to a history that is short, in room for it.
fn put_in(history: &mut History, alloc: Global, room: Room, agent: u32, op: Op) {
    let entry = Entry {
        agent,
        number: 3,
        op,
        reply: Reply::Done,
        turn: true,
    };
    let mut pending = Pending::make(alloc);
    pending.add(room, entry);
    let sum = pending.sum();
    if history.len() < 9 && sum.entries == 1 {
        history.take_in(&mut pending);
    }
    drop(pending);
}

// Adds an entry of an agent to a history that is short.
fn put(history: &mut History, alloc: Global, agent: u32, op: Op) -> Result<(), AllocError> {
    match Room::make(alloc) {
        Ok(room) => {
            put_in(history, alloc, room, agent, op);
            Ok(())
        }
        Err(error) => {
            drop(op);
            Err(error)
        }
    }
}

fn root_of(alloc: Global, key: &str) -> Result<Locator, AllocError> {
    Ok(Locator {
        key: Key::of_text(alloc, key)?,
        path: Path::root(alloc),
        kind: Kind::Directory,
    })
}

// Adds a call, a wait, an eviction and an end.
fn put_all(history: &mut History, alloc: Global) -> Result<(), AllocError> {
    let dir = root_of(alloc, "https://a.example")?;
    put(history, alloc, 2, Op::Values { dir })?;
    let tag = Text::copy_of(alloc, "t")?;
    put(history, alloc, 2, Op::Wait { tag })?;
    let key = Key::of_text(alloc, "https://b.example#x")?;
    put(history, alloc, 0, Op::Evict { key })?;
    put(history, alloc, 1, Op::End)
}

// A history of a call, a wait, an eviction and an end.
fn history(alloc: Global) -> Result<History, AllocError> {
    let mut history = History::make(alloc);
    match put_all(&mut history, alloc) {
        Ok(()) => Ok(history),
        Err(error) => Err(error),
    }
}

// The transcript of entries behind other bytes.
fn transcript_of(alloc: Global, entries: &Entries) -> Result<Vec<u8>, AllocError> {
    let mut text = Vec::from_slice(alloc, b"> ")?;
    transcript(alloc, entries, &mut text)?;
    Ok(text)
}

// The lines of entries.
fn lines_of(alloc: Global, entries: &Entries) -> Result<Vec<u8>, AllocError> {
    let mut text = Vec::new(alloc);
    for entry in entries.entries(alloc)? {
        line(alloc, entry, &mut text)?;
    }
    Ok(text)
}

// Whether a history gives out from a place what has this transcript behind other bytes, and whether its lines are these.
fn told_from(
    alloc: Global,
    history: &mut History,
    wanted: &[u8],
    lines: &[u8],
) -> Result<(usize, bool, bool), AllocError> {
    let Given { place, entries } = history.give_out(alloc);
    let text = transcript_of(alloc, &entries);
    let alone = lines_of(alloc, &entries);
    drop(entries);
    Ok((
        place,
        text?.as_slice() == wanted,
        alone?.as_slice() == lines,
    ))
}

// What a history says of itself.
fn sizes(history: &History) -> (usize, bool) {
    (history.len(), history.is_empty())
}

// What such a history says of itself and gives out.
fn told(
    alloc: Global,
    wanted: &[u8],
    lines: &[u8],
) -> Result<((usize, bool), (usize, bool, bool)), AllocError> {
    let mut history = history(alloc)?;
    let sizes = sizes(&history);
    let told = told_from(alloc, &mut history, wanted, lines);
    drop(history);
    Ok((sizes, told?))
}

#[test]
fn transcripts_leave_waits_out(rt: HostRuntime) -> Result<(), AllocError> {
    let wanted = b"> 2.3 values ok\nevict https://b.example#x\n1.3 end ok\n";
    let told = told(rt.alloc(), wanted, &wanted[2..])?;
    assert_eq!(rt; told, ((4, false), (0, true, true)));
    Ok(())
}

// Adds an `End` of agent 1 and another of agent 2, and lets the first be given out before the second comes, or not.
fn put_ends(history: &mut History, alloc: Global, early: bool) -> Result<(), AllocError> {
    put(history, alloc, 1, Op::End)?;
    if early {
        drop(history.give_out(alloc));
    }
    put(history, alloc, 2, Op::End)
}

// A history of both, of which the first was given out before the second came, or not.
fn given_before(alloc: Global, early: bool) -> Result<History, AllocError> {
    let mut history = History::make(alloc);
    match put_ends(&mut history, alloc, early) {
        Ok(()) => Ok(history),
        Err(error) => Err(error),
    }
}

// A history's length, the place and the number of what it gives out, the number of what it gives out then, and its length then.
fn given_twice(alloc: Global, history: &mut History) -> [usize; 5] {
    let before = history.len();
    let Given { place, entries } = history.give_out(alloc);
    let first = entries.iter().count();
    drop(entries);
    let Given { entries, .. } = history.give_out(alloc);
    let then = entries.iter().count();
    drop(entries);
    [before, place, first, then, history.len()]
}

// How many entries a whole history has, if none were given out.
fn whole_count(history: History) -> Option<usize> {
    match history.whole() {
        Some(entries) => {
            let count = entries.iter().count();
            drop(entries);
            Some(count)
        }
        None => None,
    }
}

// How many entries a history has as a whole of which none were given out before.
fn given_whole(alloc: Global) -> Result<Option<usize>, AllocError> {
    let history = given_before(alloc, false)?;
    Ok(whole_count(history))
}

// What a history gives out of which an entry was given out before, and how many it has as a whole.
fn given(alloc: Global) -> Result<([usize; 5], Option<usize>), AllocError> {
    let mut history = given_before(alloc, true)?;
    let given = given_twice(alloc, &mut history);
    Ok((given, whole_count(history)))
}

#[test]
fn a_history_gives_its_entries_out_once(rt: HostRuntime) -> Result<(), AllocError> {
    assert_eq!(rt; given(rt.alloc())?, ([2, 1, 1, 0, 2], None));
    assert_eq!(rt; given_whole(rt.alloc())?, Some(2));
    Ok(())
}

// Whether a status line is so.
fn is_status(alloc: Global, end: &End, wanted: &str) -> Result<bool, AllocError> {
    let mut text = Vec::new(alloc);
    status_line(alloc, end, &mut text)?;
    Ok(text.as_slice() == wanted.as_bytes())
}

// Ends, and their status lines.
const ENDS: [(End, &str); 16] = [
    (End::Usage, "opfs: usage\n"),
    (
        End::Script(BadScript::NotJson),
        "opfs: script refused: NotJson\n",
    ),
    (
        End::Script(BadScript::BadShape(1, 2)),
        "opfs: script refused: BadShape 1 2\n",
    ),
    (
        End::Script(BadScript::UnknownStep(1, 1)),
        "opfs: script refused: UnknownStep 1 1\n",
    ),
    (
        End::Script(BadScript::BadOrigin(1)),
        "opfs: script refused: BadOrigin 1\n",
    ),
    (
        End::Script(BadScript::TooMany),
        "opfs: script refused: TooMany\n",
    ),
    (End::Image(BadImage::Short), "opfs: image refused: Short\n"),
    (End::Image(BadImage::Magic), "opfs: image refused: Magic\n"),
    (
        End::Image(BadImage::Geometry),
        "opfs: image refused: Geometry\n",
    ),
    (End::Image(BadImage::Old), "opfs: image refused: Old\n"),
    (
        End::Image(BadImage::NotOld),
        "opfs: image refused: NotOld\n",
    ),
    (
        End::Image(BadImage::NoArea),
        "opfs: image refused: NoArea\n",
    ),
    (
        End::Image(BadImage::BadRecord(4096)),
        "opfs: image refused: BadRecord 4096\n",
    ),
    (
        End::Image(BadImage::Overfull(9, 8)),
        "opfs: image refused: Overfull 9 8\n",
    ),
    (End::Host, "opfs: host fault\n"),
    (End::Source, "opfs: source fault\n"),
];

#[test]
fn status_lines_have_their_numbers(rt: HostRuntime) -> Result<(), AllocError> {
    for (end, wanted) in ENDS {
        assert!(rt; is_status(rt.alloc(), &end, wanted)?, "{wanted}");
    }
    Ok(())
}

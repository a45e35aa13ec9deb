//! Names, paths and locators.

ghost use Rattle.std.specs.Prelude.{IsTrue};
ghost use Rattle.opfs_base.specs.Names.{is_valid_name};

use opfs_base::{Key, Kind, Locator, Name, Path, is_valid_name, resolve, same};
use std::alloc::{AllocError, Global};

// Whether a name and a copy of it are a text.
fn are_text(name: &Name, copy: &Name, text: &str) -> bool {
    name.as_str() == text && copy == name && name.as_bytes() == text.as_bytes()
}

// Whether a text is a name and reads back as itself.
fn is_name(alloc: Global, text: &str) -> Result<bool, AllocError> {
    if !is_valid_name(text) {
        return Ok(false);
    }
    let name = Name::read(alloc, text)?;
    let copy = name.copy(alloc)?;
    Ok(are_text(&name, &copy, text))
}

// Texts, and whether they are names.
const TEXTS: [(&str, bool); 11] = [
    ("", false),
    (".", false),
    ("..", false),
    ("a/b", false),
    ("/", false),
    ("a\\b", true),
    ("...", true),
    ("note", true),
    (" ", true),
    ("\u{0}\n", true),
    ("é𝄞", true),
];

#[test]
fn names_are_told_from_other_texts(rt: HostRuntime) -> Result<(), AllocError> {
    for (text, wanted) in TEXTS {
        assert_eq!(rt; is_name(rt.alloc(), text)?, wanted, "{text}");
    }
    Ok(())
}

// Whether a text of 256 letters is a name.
fn is_long_name(alloc: Global) -> Result<bool, AllocError> {
    let mut text = String::new(alloc);
    for _ in 0..256 {
        text.push('a')?;
    }
    is_name(alloc, text.as_str())
}

#[test]
fn long_texts_are_names_too(rt: HostRuntime) -> Result<(), AllocError> {
    assert!(rt; is_long_name(rt.alloc())?);
    Ok(())
}

// The path of a child.
fn below(alloc: Global, path: &Path, name: &str) -> Result<Path, AllocError>
    requires { IsTrue (is_valid_name name.now) }
{
    let name = Name::read(alloc, name)?;
    path.child(alloc, &name)
}

// The path of names with a blank between them.
fn path_of(alloc: Global, names: &str) -> Result<Path, AllocError> {
    let mut path = Path::root(alloc);
    for name in names.split(' ') {
        if is_valid_name(name) {
            path = below(alloc, &path, name)?;
        }
    }
    Ok(path)
}

fn at(alloc: Global, key: &str, names: &str, kind: Kind) -> Result<Locator, AllocError> {
    Ok(Locator {
        key: Key::of_text(alloc, key)?,
        path: path_of(alloc, names)?,
        kind,
    })
}

// The names of a path with a blank behind each.
fn names_text(alloc: Global, path: &Path) -> Result<String, AllocError> {
    let mut text = String::new(alloc);
    for name in path.names() {
        text.push_str(name.as_str())?;
        text.push(' ')?;
    }
    Ok(text)
}

// The names from one locator to another with a blank between them, or `null`.
fn between(alloc: Global, dir: &Locator, entry: &Locator) -> Result<String, AllocError> {
    match resolve(alloc, dir, entry)? {
        None => String::from_str(alloc, "null"),
        Some(path) => names_text(alloc, &path),
    }
}

// The names from a directory to an entry with a blank between them, or `null`.
fn resolved(alloc: Global, dir: &str, entry: &str, key: &str) -> Result<String, AllocError> {
    let dir = at(alloc, "https://a.example", dir, Kind::Directory)?;
    let entry = at(alloc, key, entry, Kind::File)?;
    between(alloc, &dir, &entry)
}

// Whether the names from a directory to an entry are these.
fn resolves(
    alloc: Global,
    dir: &str,
    entry: &str,
    key: &str,
    wanted: &str,
) -> Result<bool, AllocError> {
    let text = resolved(alloc, dir, entry, key)?;
    Ok(text.as_str() == wanted)
}

#[test]
fn resolving_gives_the_names_between(rt: HostRuntime) -> Result<(), AllocError> {
    let here = "https://a.example";
    let cases = [
        ("", "p q", here, "p q "),
        ("", "", here, ""),
        ("p", "", here, "null"),
        ("p", "p q r", here, "q r "),
        ("p", "q p", here, "null"),
        ("p q", "p", here, "null"),
        ("", "p", "https://a.example#drafts", "null"),
    ];
    for (dir, entry, key, wanted) in cases {
        assert!(rt;
            resolves(rt.alloc(), dir, entry, key, wanted)?,
            "{dir} to {entry}"
        );
    }
    Ok(())
}

// Whether a locator is the same as another.
fn is_at(
    alloc: Global,
    file: &Locator,
    key: &str,
    names: &str,
    kind: Kind,
) -> Result<bool, AllocError> {
    let other = at(alloc, key, names, kind)?;
    Ok(same(file, &other))
}

// Whether a locator is the same as a copy of it.
fn is_its_copy(alloc: Global, file: &Locator) -> Result<bool, AllocError> {
    let copy = file.copy(alloc)?;
    Ok(same(file, &copy))
}

// Whether a locator is the same as its copy, and as one of another kind, of another path and of another unit.
fn same_parts(alloc: Global) -> Result<[bool; 4], AllocError> {
    let file = at(alloc, "https://a.example", "p q", Kind::File)?;
    let copy = is_its_copy(alloc, &file);
    let kind = is_at(alloc, &file, "https://a.example", "p q", Kind::Directory);
    let path = is_at(alloc, &file, "https://a.example", "p", Kind::File);
    let unit = is_at(alloc, &file, "https://b.example", "p q", Kind::File);
    drop(file);
    Ok([copy?, kind?, path?, unit?])
}

#[test]
fn locators_are_the_same_in_all_three_parts(rt: HostRuntime) -> Result<(), AllocError> {
    assert_eq!(rt; same_parts(rt.alloc())?, [true, false, false, false]);
    Ok(())
}

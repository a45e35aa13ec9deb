//! What rows and modes add to the charge, and how places stand to each other.

use opfs_base::{Key, Kind, Name, Path, blocks, child_name, is_within, mode_charge, place_charge};
use std::alloc::{AllocError, Global};

// The path of these names.
fn path_of(alloc: Global, names: &[&str]) -> Result<Path, AllocError> {
    let mut path = Vec::new(alloc);
    for name in names {
        if opfs_base::is_valid_name(*name) {
            path.push(Name::read(alloc, *name)?)?;
        }
    }
    Ok(Path::from_vec(path))
}

// A place in a unit.
fn place_of(alloc: Global, unit: &str, names: &[&str]) -> Result<(Key, Path), AllocError> {
    let unit = Key::of_text(alloc, unit)?;
    let path = path_of(alloc, names)?;
    Ok((unit, path))
}

// The charges of a mode, and of a directory and a file at a place.
fn charges_at(place: &(Key, Path)) -> Result<[u64; 3], AllocError> {
    let mode = mode_charge(&place.0)?;
    let directory = place_charge(Kind::Directory, place)?;
    let file = place_charge(Kind::File, place)?;
    Ok([mode, directory, file])
}

// The same of a unit and a path in it.
fn charges(alloc: Global, unit: &str, names: &[&str]) -> Result<[u64; 3], AllocError> {
    let place = place_of(alloc, unit, names)?;
    charges_at(&place)
}

#[test]
fn rows_are_charged_by_their_bytes(rt: HostRuntime) -> Result<(), AllocError> {
    // The unit has 25 bytes in a change, that of a bucket of six letters 24; `a` has 2 of a path, `bc` 3.
    let cases: [(&str, &[&str], [u64; 3]); 4] = [
        ("https://a.example", &[], [28, 28, 86]),
        ("https://a.example", &["a"], [28, 31, 90]),
        ("https://a.example", &["a", "bc"], [28, 34, 96]),
        ("https://a.example#drafts", &["a"], [27, 30, 88]),
    ];
    for (unit, names, wanted) in cases {
        assert_eq!(rt; charges(rt.alloc(), unit, names)?, wanted, "{unit}");
    }
    Ok(())
}

#[test]
fn blocks_hold_4096_bytes(rt: HostRuntime) -> Result<(), AllocError> {
    let cases = [
        (0, 0),
        (1, 1),
        (4_096, 1),
        (4_097, 2),
        (u64::MAX, 4_503_599_627_370_496),
    ];
    for (bytes, wanted) in cases {
        assert_eq!(rt; blocks(bytes), wanted, "{bytes}");
    }
    Ok(())
}

// How a place stands to a directory.
fn standing_in(
    alloc: Global,
    dir: &(Key, Path),
    place: &(Key, Path),
) -> Result<String, AllocError> {
    let within = is_within(&dir.0, &dir.1, place);
    let child = match child_name(&dir.0, &dir.1, place) {
        Some(name) => name.as_str(),
        None => "none",
    };
    format!(in alloc; "{within} {child}")
}

// How a place stands to `/a`: whether it is within, and the name of the child that it is.
fn standing(alloc: Global, unit: &str, names: &[&str]) -> Result<String, AllocError> {
    let dir = place_of(alloc, "https://a.example", &["a"])?;
    let place = place_of(alloc, unit, names)?;
    standing_in(alloc, &dir, &place)
}

// Whether a place stands so to `/a`.
fn stands(alloc: Global, unit: &str, names: &[&str], wanted: &str) -> Result<bool, AllocError> {
    let text = standing(alloc, unit, names)?;
    Ok(text.as_str() == wanted)
}

#[test]
fn children_stand_one_name_below(rt: HostRuntime) -> Result<(), AllocError> {
    let cases: [(&str, &[&str], &str); 5] = [
        ("https://a.example", &["a"], "true none"),
        ("https://a.example", &["a", "b"], "true b"),
        ("https://a.example", &["a", "b", "c"], "true none"),
        ("https://a.example", &["ab"], "false none"),
        ("https://b.example", &["a", "b"], "false none"),
    ];
    for (unit, names, wanted) in cases {
        assert!(rt; stands(rt.alloc(), unit, names, wanted)?, "{unit} {wanted}");
    }
    Ok(())
}

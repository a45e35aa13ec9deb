//! Images of texts that are drawn by number.

ghost use Rattle.std.specs.Prelude.{◌<◌};

use crate::dumps::images::{answer, laid_text};
use std::alloc::{AllocError, Global};
use std::test::Fail;

// The units that an image may have, in their order.
const UNITS: [&str; 4] = [
    "https://a.example",
    "https://a.example#inbox",
    "https://b.example",
    "https://c.example#x",
];

// A number below another.
fn draw(state: &mut u64, below: u64) -> u64
    requires { 0 < below }
    ensures { result < below }
{
    *state = state
        .wrapping_mul(6_364_136_223_846_793_005)
        .wrapping_add(1_442_695_040_888_963_407);
    (*state >> 33) % below
}

// Adds a directory.
fn add_folder(alloc: Global, rows: &mut String, key: &str, path: &str) -> Result<(), AllocError> {
    if !rows.is_empty() {
        rows.push_str(",")?;
    }
    let row = format!(in alloc; r#"{{"key":"{key}","path":[{path}]}}"#)?;
    rows.push_str(row.as_str())
}

// The drawn bytes of a file, as digits.
fn drawn_digits(alloc: Global, state: &mut u64) -> Result<String, AllocError> {
    let mut digits = String::new(alloc);
    let count = if draw(state, 6) == 0 {
        draw(state, 5000)
    } else {
        draw(state, 300)
    };
    for _ in 0..count {
        let digit = format!(in alloc; "{:02x}", draw(state, 256))?;
        digits.push_str(digit.as_str())?;
    }
    Ok(digits)
}

// Adds a file of drawn bytes.
fn add_file(
    alloc: Global,
    rows: &mut String,
    key: &str,
    path: &str,
    state: &mut u64,
) -> Result<(), AllocError> {
    let digits = drawn_digits(alloc, state)?;
    let stamp = draw(state, 2_000_000_000);
    let row = format!(in alloc;
        r#",{{"hex":"{}","key":"{key}","path":[{path}],"stamp":{stamp}}}"#,
        digits.as_str()
    )?;
    rows.push_str(row.as_str())
}

// Adds the rows of a unit.
fn add_unit(
    alloc: Global,
    rows: &mut String,
    key: &str,
    state: &mut u64,
) -> Result<(), AllocError> {
    add_folder(alloc, rows, key, "")?;
    if draw(state, 2) == 0 {
        add_folder(alloc, rows, key, "\"a\"")?;
        if draw(state, 2) == 0 {
            add_file(alloc, rows, key, "\"a\",\"f\"", state)?;
        }
        if draw(state, 3) == 0 {
            add_folder(alloc, rows, key, "\"a\",\"g\"")?;
            add_file(alloc, rows, key, "\"a\",\"g\",\"\u{e9} \\\"\"", state)?;
        }
    }
    if draw(state, 2) == 0 {
        add_file(alloc, rows, key, "\"b\"", state)?;
    }
    Ok(())
}

// Adds a unit that is persistent.
fn add_persistent(alloc: Global, persistent: &mut String, key: &str) -> Result<(), AllocError> {
    if !persistent.is_empty() {
        persistent.push_str(",")?;
    }
    let unit = format!(in alloc; "\"{key}\"")?;
    persistent.push_str(unit.as_str())
}

// Adds what is drawn of each unit.
fn add_units(
    alloc: Global,
    rows: &mut String,
    persistent: &mut String,
    state: &mut u64,
) -> Result<(), AllocError> {
    for key in UNITS {
        if draw(state, 3) < 2 {
            add_unit(alloc, rows, key, state)?;
        }
        if draw(state, 4) == 0 {
            add_persistent(alloc, persistent, key)?;
        }
    }
    Ok(())
}

// The text of the image with a number.
fn drawn(alloc: Global, number: u64) -> Result<String, AllocError> {
    let mut state = number;
    let mut rows = String::new(alloc);
    let mut persistent = String::new(alloc);
    add_units(alloc, &mut rows, &mut persistent, &mut state)?;
    let (areas, quota) = (1 + draw(&mut state, 5), 1 + draw(&mut state, 65_536));
    format!(in alloc;
        "{{\"areas\":{areas},\"blocks\":40,\"persistent\":[{}],\"quota\":{quota},\"rows\":[{}],\"version\":2}}\n",
        persistent.as_str(),
        rows.as_str()
    )
}

// What is told of a text whose image is not dumped as the text.
fn other(alloc: Global, text: &str) -> Result<Option<String>, AllocError> {
    let told = answer(alloc, text.as_bytes())?;
    if !told.starts_with("loaded ") {
        return Ok(Some(told));
    }
    let again = laid_text(alloc, text.as_bytes())?;
    if again.as_slice() == text.as_bytes() {
        return Ok(None);
    }
    let line = format!(in alloc; "another text of {} bytes", again.len())?;
    Ok(Some(line))
}

// What is told of the first such text with a number in a range, and nothing where there is none.
fn first_other(alloc: Global, from: u64, to: u64) -> Result<String, AllocError> {
    for number in from..to {
        let text = drawn(alloc, number)?;
        if let Some(told) = other(alloc, text.as_str())? {
            return format!(in alloc; "{number}: {}", told.as_str());
        }
    }
    Ok(String::new(alloc))
}

#[test]
fn drawn_images_come_back(rt: HostRuntime) -> Result<(), Fail> {
    let alloc = rt.alloc();
    assert_eq!(rt; first_other(alloc, 0, 40)?.as_str(), "");
    Ok(())
}

#[test]
fn more_drawn_images_come_back(rt: HostRuntime) -> Result<(), Fail> {
    let alloc = rt.alloc();
    assert_eq!(rt; first_other(alloc, 40, 80)?.as_str(), "");
    Ok(())
}

#[test]
fn even_more_drawn_images_come_back(rt: HostRuntime) -> Result<(), Fail> {
    let alloc = rt.alloc();
    assert_eq!(rt; first_other(alloc, 80, 120)?.as_str(), "");
    Ok(())
}

//! Keys of URLs and units.

ghost use Rattle.std.specs.Prelude.{IsTrue};
ghost use Rattle.opfs_base.specs.Keys.{is_origin};

use opfs_base::{Key, KeyRefusal, UnitRefusal, same_origin};
use std::alloc::{AllocError, Global};

// The key of a URL, or the name of the refusal.
fn key_text(alloc: Global, url: &str) -> Result<String, AllocError> {
    match Key::of_url(alloc, url) {
        Ok(key) => String::from_str(alloc, key.as_str()),
        Err(KeyRefusal::BadUrl) => String::from_str(alloc, "BadUrl"),
        Err(KeyRefusal::Opaque) => String::from_str(alloc, "Opaque"),
        Err(KeyRefusal::TooLong) => String::from_str(alloc, "TooLong"),
        Err(KeyRefusal::NoMemory) => Err(AllocError),
    }
}

// Whether a URL has this key, or this refusal.
fn has_key(alloc: Global, url: &str, wanted: &str) -> Result<bool, AllocError> {
    let text = key_text(alloc, url)?;
    Ok(text.as_str() == wanted)
}

// URLs, and their key or why they have none.
const URLS: [(&str, &str); 11] = [
    ("https://A.example:443/x", "https://a.example"),
    ("http://a.example:8080", "http://a.example:8080"),
    ("ws://u:p@a.example:81/?q#f", "ws://a.example:81"),
    ("wss://[::1]/", "wss://[::1]"),
    ("ftp://a%2Eb/", "ftp://a.b"),
    ("data:,x", "Opaque"),
    ("file:///x", "Opaque"),
    ("blob:https://a.example/x", "Opaque"),
    ("nonsense", "BadUrl"),
    ("", "BadUrl"),
    ("foo://[::", "BadUrl"),
];

#[test]
fn urls_give_their_origin(rt: HostRuntime) -> Result<(), AllocError> {
    for (url, wanted) in URLS {
        assert!(rt; has_key(rt.alloc(), url, wanted)?, "{url}");
    }
    Ok(())
}

// A URL whose host has so many letters and dots.
fn long_url(alloc: Global, letters: usize) -> Result<String, AllocError> {
    let mut url = String::from_str(alloc, "https://")?;
    for place in 0..letters {
        url.push(if place % 60 == 59 { '.' } else { 'a' })?;
    }
    Ok(url)
}

// Whether such a URL has a key that is not too long.
fn fits_key(alloc: Global, letters: usize) -> Result<bool, AllocError> {
    let url = long_url(alloc, letters)?;
    let text = key_text(alloc, url.as_str())?;
    Ok(text.as_str() != "TooLong")
}

#[test]
fn keys_end_at_255_bytes(rt: HostRuntime) -> Result<(), AllocError> {
    for (letters, fits) in [(247usize, true), (248usize, false)] {
        assert_eq!(rt; fits_key(rt.alloc(), letters)?, fits, "{letters}");
    }
    Ok(())
}

// Whether a unit and a copy of it are of an origin.
fn is_kept(alloc: Global, origin: &Key, unit: &Key) -> Result<bool, AllocError> {
    let copy = unit.copy(alloc)?;
    Ok(same_origin(origin, unit) && same_origin(unit, &copy))
}

// The text of a unit, if it is of an origin.
fn kept_text(alloc: Global, origin: &Key, unit: &Key) -> Result<String, AllocError> {
    let text = if is_kept(alloc, origin, unit)? {
        unit.as_str()
    } else {
        "another origin"
    };
    String::from_str(alloc, text)
}

// The unit of a bucket of an origin, or `BadBucket`.
fn bucket_text(alloc: Global, origin: &Key, bucket: &str) -> Result<String, AllocError>
    requires { IsTrue (is_origin origin.now) }
{
    match Key::unit(alloc, origin, bucket) {
        Ok(unit) => kept_text(alloc, origin, &unit),
        Err(UnitRefusal::BadBucket) => String::from_str(alloc, "BadBucket"),
        Err(UnitRefusal::NoMemory) => Err(AllocError),
    }
}

// The unit of a bucket, or `BadBucket`, or nothing where the text is no origin.
fn unit_text(alloc: Global, url: &str, bucket: &str) -> Result<String, AllocError> {
    match Key::of_url(alloc, url) {
        Ok(origin) => bucket_text(alloc, &origin, bucket),
        Err(_) => String::from_str(alloc, "no origin"),
    }
}

// Whether a bucket has this unit, or this refusal.
fn has_unit(alloc: Global, bucket: &str, wanted: &str) -> Result<bool, AllocError> {
    let text = unit_text(alloc, "https://a.example", bucket)?;
    Ok(text.as_str() == wanted)
}

// Buckets, and their unit or that they are none.
const BUCKETS: [(&str, &str); 10] = [
    ("default", "https://a.example"),
    ("drafts", "https://a.example#drafts"),
    ("0-_", "https://a.example#0-_"),
    ("", "BadBucket"),
    ("-x", "BadBucket"),
    ("_x", "BadBucket"),
    ("Drafts", "BadBucket"),
    ("a#b", "BadBucket"),
    ("a b", "BadBucket"),
    ("é", "BadBucket"),
];

#[test]
fn buckets_have_units(rt: HostRuntime) -> Result<(), AllocError> {
    for (bucket, wanted) in BUCKETS {
        assert!(rt; has_unit(rt.alloc(), bucket, wanted)?, "{bucket}");
    }
    Ok(())
}

// A text of so many letters.
fn letters_of(alloc: Global, letters: usize) -> Result<String, AllocError> {
    let mut text = String::new(alloc);
    for _ in 0..letters {
        text.push('b')?;
    }
    Ok(text)
}

// Whether such a text is a bucket.
fn fits_bucket(alloc: Global, letters: usize) -> Result<bool, AllocError> {
    let bucket = letters_of(alloc, letters)?;
    let text = unit_text(alloc, "https://a.example", bucket.as_str())?;
    Ok(text.as_str() != "BadBucket")
}

#[test]
fn bucket_names_end_at_64_bytes(rt: HostRuntime) -> Result<(), AllocError> {
    for (letters, fits) in [(64usize, true), (65usize, false)] {
        assert_eq!(rt; fits_bucket(rt.alloc(), letters)?, fits, "{letters}");
    }
    Ok(())
}

// Whether two units are of one origin.
fn are_of_one(alloc: Global, first: &str, second: &str) -> Result<bool, AllocError> {
    let first = Key::of_text(alloc, first)?;
    let second = Key::of_text(alloc, second)?;
    Ok(same_origin(&first, &second))
}

#[test]
fn units_of_two_origins_differ(rt: HostRuntime) -> Result<(), AllocError> {
    let cases = [
        ("https://a.example#x", "https://a.example#y", true),
        ("https://a.example", "https://a.example#y", true),
        ("https://a.example", "https://a.example:8080", false),
        ("https://a.example#x", "https://b.example#x", false),
    ];
    for (a, b, wanted) in cases {
        assert_eq!(rt; are_of_one(rt.alloc(), a, b)?, wanted, "{a} and {b}");
    }
    Ok(())
}

//! Status lines.

ghost use Rattle.std.specs.Prelude.{◌≡◌, ◌++◌, IfOk, OnOk, OnErr, string_bytes};
ghost use Rattle.opfs_print.specs.Status.{bad_script_text, bad_image_text, status_text};

use crate::end::{BadImage, BadScript, End};
use std::alloc::{AllocError, Global};

/// Appends the line with which a command ends that did not do what was asked.
pub fn status_line(alloc: Global, end: &End, into: &mut Vec<u8>) -> Result<(), AllocError>
    ensures ok { OnOk result (into.new.items ≡ into.old.items ++ status_text end.now) }
    ensures err { OnErr result (into.new.items ≡ into.old.items) }
{
    let text = status_text(alloc, end)?;
    into.extend_from_slice(text.as_bytes())
}

// The status line.
fn status_text(alloc: Global, end: &End) -> Result<String, AllocError>
    ensures { IfOk result (λ text. string_bytes text ≡ status_text end.now) }
{
    match end {
        End::Usage => String::from_str(alloc, "opfs: usage\n"),
        End::Script(why) => {
            let why = bad_script_text(alloc, *why)?;
            format!(in alloc; "opfs: script refused: {}\n", why.as_str())
        }
        End::Image(why) => {
            let why = bad_image_text(alloc, *why)?;
            format!(in alloc; "opfs: image refused: {}\n", why.as_str())
        }
        End::Host => String::from_str(alloc, "opfs: host fault\n"),
        End::Source => String::from_str(alloc, "opfs: source fault\n"),
    }
}

// Why a script is refused.
fn bad_script_text(alloc: Global, why: BadScript) -> Result<String, AllocError>
    ensures { IfOk result (λ text. string_bytes text ≡ bad_script_text why) }
{
    match why {
        BadScript::NotJson => String::from_str(alloc, "NotJson"),
        BadScript::BadShape(agent, step) => format!(in alloc; "BadShape {agent} {step}"),
        BadScript::UnknownStep(agent, step) => format!(in alloc; "UnknownStep {agent} {step}"),
        BadScript::BadOrigin(agent) => format!(in alloc; "BadOrigin {agent}"),
        BadScript::TooMany => String::from_str(alloc, "TooMany"),
    }
}

// Why an image is refused.
fn bad_image_text(alloc: Global, why: BadImage) -> Result<String, AllocError>
    ensures { IfOk result (λ text. string_bytes text ≡ bad_image_text why) }
{
    match why {
        BadImage::Short => String::from_str(alloc, "Short"),
        BadImage::Magic => String::from_str(alloc, "Magic"),
        BadImage::Geometry => String::from_str(alloc, "Geometry"),
        BadImage::Old => String::from_str(alloc, "Old"),
        BadImage::NotOld => String::from_str(alloc, "NotOld"),
        BadImage::NoArea => String::from_str(alloc, "NoArea"),
        BadImage::BadRecord(place) => format!(in alloc; "BadRecord {place}"),
        BadImage::Overfull(charge, area) => format!(in alloc; "Overfull {charge} {area}"),
    }
}

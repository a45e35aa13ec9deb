//! A script and a transcript in one input, with a byte 0 between them.

ghost use Rattle.std.specs.Prelude.{◌≡◌, ◌≤◌, length};
ghost use Rattle.opfs_top.specs.Doing.{script_part, transcript_part};

/// How many bytes stand before the first 0; all, where there is none.
fn script_length(bytes: &[u8]) -> usize
    ensures front { result ≡ length (script_part bytes.now) }
    ensures within { result ≤ length bytes.now }
{
    let mut rest = bytes;
    while let [byte, more @ ..] = rest {
        if *byte == 0 {
            return bytes.len() - rest.len();
        }
        rest = more;
    }
    bytes.len() - rest.len()
}

/// What stands before the first 0, and what behind it.
pub fn parts(bytes: &[u8]) -> (&[u8], &[u8])
    ensures script { result.0.now ≡ script_part bytes.now }
    ensures transcript { result.1.now ≡ transcript_part bytes.now }
{
    let (script, rest) = bytes.split_at(script_length(bytes));
    match rest {
        [_, transcript @ ..] => (script, transcript),
        [] => (script, rest),
    }
}

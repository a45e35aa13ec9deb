//! The bytes behind a gate.

ghost use Rattle.std.specs.Prelude.{◌≡◌, ◌+◌, ◌^◌, ◌<◌, ◌≤◌, ◌++◌, length, vec_capacity};
ghost use Rattle.opfs_journal.specs.Format.{framed};

/// Puts into the buffer what stands behind the gate of a record whose body is `head` and then `body`: the length,
/// the body and a closed gate.
pub fn frame(buffer: &mut Vec<u8>, head: &[u8], body: &[u8])
    requires small { length head.now + length body.now < 2 ^ 32 }
    requires room { length head.now + length body.now + 5 ≤ vec_capacity buffer.old }
    ensures bytes { buffer.new.items ≡ framed (head.now ++ body.now) }
    ensures capacity { vec_capacity buffer.old ≤ vec_capacity buffer.new }
{
    let len = (head.len() + body.len()) as u32;
    buffer.clear();
    buffer.extend_from_slice(&len.to_le_bytes()).unwrap();
    buffer.extend_from_slice(head).unwrap();
    buffer.extend_from_slice(body).unwrap();
    buffer.push(0).unwrap();
}

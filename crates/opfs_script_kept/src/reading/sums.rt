//! How much a script asks for so far.

ghost use Rattle.std.specs.Prelude.{◌≡◌, ◌+◌, IfSome};
ghost use Rattle.opfs_script_kept.specs.Reading.Sums.{IsWithin};

/// How many steps there are, and how many bytes they write or ask to read.
#[derive(Clone, Copy)]
pub struct Sums {
    pub steps: u64,
    pub bytes: u64,
}

impl Sums {
    /// One step more, which asks for so many bytes, unless that is more than a script may ask.
    pub fn with(self, asked: u64) -> Option<Sums>
        ensures steps { IfSome result (λ sums. sums.steps ≡ self.steps + 1) }
        ensures bytes { IfSome result (λ sums. sums.bytes ≡ self.bytes + asked) }
        ensures within { IfSome result IsWithin }
    {
        let steps = self.steps.checked_add(1)?;
        let bytes = self.bytes.checked_add(asked)?;
        if steps <= 20_000 && bytes <= 67_108_864 {
            Some(Sums { steps, bytes })
        } else {
            None
        }
    }
}

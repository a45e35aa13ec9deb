//! The ends that a command may come to where a call of the disk fails.

ghost use Rattle.std.specs.Prelude.{◌≡◌, ◌↔◌, ◌≤◌, true};

/// An end: what is told, with the status; the marks that the image may then have, and those that a crash at any moment from the
/// failed call on may leave; how often it was met, and how often it is to be.
#[derive(Drop)]
pub struct End {
    pub told: String,
    pub left: String,
    pub crashed: String,
    /// Whether any front of the text may be told, and the line of a fault behind it.
    pub is_front: bool,
    pub least: u64,
    pub most: u64,
    pub met: u64,
}

impl End {
    /// Whether a text is told at this end.
    pub fn has(&self, told: &str) -> bool {
        if !self.is_front {
            return self.told.as_str() == told;
        }
        match told.strip_suffix("opfs: host fault\n") {
            Some(front) => self.told.as_str().starts_with(front),
            None => false,
        }
    }

    /// Whether it was met as often as it is to be.
    pub fn is_met(&self) -> bool
        ensures { result ≡ true ↔ ((self.now.least ≤ self.now.met) × (self.now.met ≤ self.now.most)) }
    {
        self.least <= self.met && self.met <= self.most
    }
}

/// Whether all marks are among those.
pub fn are_among(marks: &str, allowed: &str) -> bool {
    marks.chars().all(|mark| allowed.contains(mark))
}

//! A run of page numbers.

ghost use Rattle.std.specs.Prelude.{◌≡◌, ℕ, ◌<◌, ◌≤◌, min, max};

/// The page numbers from one on and below another.
#[derive(Drop)]
pub struct Span {
    /// The first.
    pub from: u64,
    /// The one behind the last; no page is in the run where it is not past the first.
    pub to: u64,
}

impl Span {
    /// No pages.
    pub fn none() -> Span
        ensures { result ≡ record { from = 0; to = 0 } }
    {
        Span { from: 0, to: 0 }
    }

    /// Takes in the pages from one on and below another, and those between.
    pub fn add(&mut self, from: u64, to: u64)
        ensures kept { (k : ℕ) → self.old.from ≤ k → k < self.old.to → (self.new.from ≤ k) × (k < self.new.to) }
        ensures added { (k : ℕ) → from ≤ k → k < to → (self.new.from ≤ k) × (k < self.new.to) }
        ensures nothing { to ≤ from → self.new ≡ self.old }
        ensures first { self.old.to ≤ self.old.from → from < to → self.new ≡ record { from = from; to = to } }
        ensures between { (min self.old.from from ≤ self.new.from) × (self.new.to ≤ max self.old.to to) }
    {
        if to <= from {
            return;
        }
        if self.to <= self.from {
            self.from = from;
            self.to = to;
            return;
        }
        self.from = self.from.min(from);
        self.to = self.to.max(to);
    }
}

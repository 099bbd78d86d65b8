ghost use Rattle.std.specs.Prelude.{◌≡◌, ℕ, List, length};

/// A value that stands for a list of entries, which only grows.
pub trait Counted {
    /// What one entry says.
    type Entry;

    /// What no turn changes.
    type Root;

    /// The entries, each with the number of the worker that made it.
    ghost entries: { Self → List (ℕ × Self.Entry) };

    /// What the value keeps from the start.
    ghost root: { Self → Self.Root };

    /// How many entries there are. It takes no memory.
    fn count(&self) -> u64
        ensures { result ≡ length (entries self.now) };
}

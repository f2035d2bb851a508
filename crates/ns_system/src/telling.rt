//! What a shelf and a sink tell of their faults.

ghost use Rattle.std.specs.Prelude.{◌≡◌, ℕ, List, Option, option_map};

use ns_base::shelf::Shelf;
use ns_base::sink::Sink;

/// A shelf that tells where it failed last, and how often a store did.
pub trait TellingShelf: Shelf {
    /// The name of the file whose load failed last, where it was kept.
    ghost unread: { Self → Option (List ℕ) };

    /// The name of the file whose store failed last, where it was kept.
    ghost unstored: { Self → Option (List ℕ) };

    /// The name of the file whose load failed last.
    fn unread(&self) -> Option<&str>
        ensures { option_map (λ name. name.now) result ≡ unread self.now };

    /// The name of the file whose store failed last.
    fn unstored(&self) -> Option<&str>
        ensures { option_map (λ name. name.now) result ≡ unstored self.now };

    /// How many stores failed.
    fn failed_stores(&self) -> u64
        ensures { result ≡ Self.store_faults self.now };
}

/// A sink that tells how many puts failed.
pub trait TellingSink: Sink {
    /// How many puts failed.
    fn failed_puts(&self) -> u64
        ensures { result ≡ Self.faults self.now };
}

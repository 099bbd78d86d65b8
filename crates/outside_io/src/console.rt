ghost use Rattle.std.specs.Prelude.{◌≡◌, ℕ, ◌≤◌, ◌<◌, List, length, take, Option, IfOk, OnOk};
ghost use Rattle.std.specs.Prelude.{OnErr};
ghost use Rattle.outside_io.specs.Counts.{HasRisen};
ghost use Rattle.outside_io.specs.Console.{TookNow, with_more};

use crate::files::Failed;

/// A console. No call takes memory.
pub trait Console {
    /// All bytes that it took, where the object tells them.
    ghost took: { Self → Option (List ℕ) };

    /// How many writes have failed.
    ghost failed_writes: { Self → ℕ };

    /// Takes first bytes of `bytes`, and answers how many: at least one. Where it fails, it took
    /// none.
    fn write(&mut self, bytes: &[u8]) -> Result<usize, Failed>
        requires { 0 < length bytes.now }
        ensures some { IfOk result (λ n. (0 < n) × (n ≤ length bytes.now)) }
        ensures ok { IfOk result (λ n. TookNow (with_more (take n bytes.now) (took self.old))
            (took self.new)) }
        ensures err { OnErr result (TookNow (took self.old) (took self.new)) }

        // It fails only where the count rose.
        ensures cause { OnErr result (HasRisen (failed_writes self.old) (failed_writes self.new)) }
        ensures count { failed_writes self.old ≤ failed_writes self.new }
        ensures count_ok { OnOk result (failed_writes self.new ≡ failed_writes self.old) };
}

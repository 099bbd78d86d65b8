ghost use Rattle.std.specs.Prelude.{◌≡◌, ◌⊎◌, ℕ, ◌≤◌, ◌<◌, List, [], length, take, Option, None};
ghost use Rattle.std.specs.Prelude.{IfOk, OnOk, OnErr};
ghost use Rattle.outside_io.specs.Calls.{Call, ReadCall, BeginCall, AppendCall, followed_by_call};
ghost use Rattle.outside_io.specs.Calls.{taken_by};
ghost use Rattle.outside_io.specs.Counts.{HasRisen, NoneFalls, NoneRises};
ghost use Rattle.outside_io.specs.Files.{Holding, Leaves, LeavesOthers, LeavesAll, GivesBytes};
ghost use Rattle.outside_io.specs.Files.{EndsBy, replaced_by, followed_by};

/// The outside failed a call. The object's count of failed calls of that kind has risen.
#[derive(Clone, Copy, Debug, PartialEq, Eq)]
pub struct Failed;

/// Files, named by paths. No call takes memory.
pub trait Files {
    /// What each path holds, as far as the object tells it.
    ghost holds: { Self → List ℕ → Holding };

    /// For each path, how many reads have failed. One number may serve all paths.
    ghost failed_reads: { Self → List ℕ → ℕ };

    /// For each path, how many calls of `begin` and `append` have failed. One number may serve all
    /// paths.
    ghost failed_writes: { Self → List ℕ → ℕ };

    /// What was asked so far, in the order of the calls, where the object tells it.
    ghost calls: { Self → Option (List Call) } = { λ _. None };

    /// Reads some bytes of a path from a place on, and answers how many bytes of `into` it wrote,
    /// from the front. The answer 0 for an `into` that isn't empty says that the path ends at or
    /// before the place. What stands in `into` behind those bytes, and in all of it after an error,
    /// is left open.
    fn read_some(&mut self, path: &str, place: u64, into: &mut [u8]) -> Result<usize, Failed>
        ensures fits { IfOk result (λ n. n ≤ length into.old) }
        ensures bytes { IfOk result (λ n. GivesBytes (holds self.old path.now) place n into.new) }
        ensures end { result ≡ Ok 0 → 0 < length into.old → EndsBy (holds self.old path.now) place }
        ensures paths { LeavesAll (holds self.old) (holds self.new) }

        // It fails only where the count of failed reads of this path rose, and that of writes never
        // rises.
        ensures cause { OnErr result (HasRisen (failed_reads self.old path.now)
            (failed_reads self.new path.now)) }
        ensures reads { NoneFalls (failed_reads self.old) (failed_reads self.new) }
        ensures reads_ok { OnOk result (NoneRises (failed_reads self.old) (failed_reads self.new)) }
        ensures writes { NoneRises (failed_writes self.old) (failed_writes self.new) }
        ensures called { calls self.new ≡ followed_by_call (ReadCall path.now (length into.old))
            (calls self.old) };

    /// Makes a path hold no bytes, whether or not it was there. Where that fails, the path is as
    /// before or empty.
    fn begin(&mut self, path: &str) -> Result<(), Failed>
        ensures ok { OnOk result (Leaves (replaced_by [] (holds self.old path.now))
            (holds self.new path.now)) }
        ensures err { OnErr result (Leaves (holds self.old path.now) (holds self.new path.now)
            ⊎ Leaves (replaced_by [] (holds self.old path.now)) (holds self.new path.now)) }
        ensures others { LeavesOthers path.now (holds self.old) (holds self.new) }

        // It fails only where the count of failed writes of this path rose, and that of reads never
        // rises.
        ensures cause { OnErr result (HasRisen (failed_writes self.old path.now)
            (failed_writes self.new path.now)) }
        ensures writes { NoneFalls (failed_writes self.old) (failed_writes self.new) }
        ensures writes_ok { OnOk result (NoneRises (failed_writes self.old)
            (failed_writes self.new)) }
        ensures reads { NoneRises (failed_reads self.old) (failed_reads self.new) }
        ensures called { calls self.new ≡ followed_by_call (BeginCall path.now) (calls self.old) };

    /// Adds first bytes of `bytes` at the end of a path, and answers how many it took: at least
    /// one. Where it fails, it took none.
    fn append(&mut self, path: &str, bytes: &[u8]) -> Result<usize, Failed>
        requires { 0 < length bytes.now }
        ensures some { IfOk result (λ n. (0 < n) × (n ≤ length bytes.now)) }
        ensures ok { IfOk result (λ n. Leaves
            (followed_by (take n bytes.now) (holds self.old path.now)) (holds self.new path.now)) }
        ensures err { OnErr result (Leaves (holds self.old path.now) (holds self.new path.now)) }
        ensures others { LeavesOthers path.now (holds self.old) (holds self.new) }

        // It fails only where the count of failed writes of this path rose, and that of reads never
        // rises.
        ensures cause { OnErr result (HasRisen (failed_writes self.old path.now)
            (failed_writes self.new path.now)) }
        ensures writes { NoneFalls (failed_writes self.old) (failed_writes self.new) }
        ensures writes_ok { OnOk result (NoneRises (failed_writes self.old)
            (failed_writes self.new)) }
        ensures reads { NoneRises (failed_reads self.old) (failed_reads self.new) }
        ensures called { calls self.new ≡ followed_by_call
            (AppendCall path.now bytes.now (taken_by result)) (calls self.old) };
}

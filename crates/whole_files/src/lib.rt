//! Reads a path whole, and writes one whole, over any files; prints lines whole on any console.
#![tactic(auto)]

ghost use Rattle.std.specs.Prelude.{◌≡◌, ◌≢◌, ◌⊎◌, ℕ, ◌<◌, ◌≤◌, ◌^◌, ◌+◌, take, drop, length};
ghost use Rattle.std.specs.Prelude.{vec_len, Ok, IfOk, IfSome, OnOk, OnErr, Err, IsErrOf};
ghost use Rattle.outside_io.specs.Counts.{HasRisen, NoneFalls, NoneRises};
ghost use Rattle.outside_io.specs.Files.{Leaves, LeavesOthers, LeavesAll, told_bytes, replaced_by};
ghost use Rattle.outside_io.specs.Calls.{ReadCall, followed_by_call};
ghost use Rattle.whole_files.specs.Transfers.{BeginsWith};
ghost use Rattle.whole_files.specs.Requests.{Since, least_room, AreRoomyReads, AreWholeOffers};
ghost use Rattle.whole_files.specs.declared.ReadWholeError.TheVariants as whole_errors;

mod printing;

use outside_io::{Failed, Files};
pub use printing::print_whole;
use std::alloc::{AllocError, Global};

/// How many bytes a read offers room for.
const READ_ROOM: usize = 65536;

/// Why a path could not be read whole.
#[derive(Clone, Copy, Debug, PartialEq, Eq)]
pub enum ReadWholeError {
    /// It holds more bytes than the limit.
    TooLong,
    /// The outside failed a read.
    Failed,
    /// Memory ran out.
    NoMemory,
}

impl From<AllocError> for ReadWholeError {
    ghost from_gives = { λ _ e. e ≡ whole_errors.NoMemory };

    fn from(_e: AllocError) -> ReadWholeError {
        ReadWholeError::NoMemory
    }
}

/// All bytes that a path holds, where there are at most `limit` of them. It reads to the end, or
/// past the limit.
///
/// `TooLong` says that there are more, `Failed` that a read failed, and `NoMemory` that memory ran
/// out. Whatever it answers, each path is as before.
#[tactic(auto, using(crate::proofs::Asked::no_reads_yet, crate::proofs::Asked::read_with_room))]
pub fn read_whole<F: Files>(
    alloc: Global,
    files: &mut F,
    path: &str,
    limit: usize,
) -> Result<Vec<u8>, ReadWholeError>
    requires { limit < 2 ^ 62 }
    ensures fits { IfOk result (λ v. length v.items ≤ limit) }
    ensures ok { IfOk result (λ v. IfSome (told_bytes (F.holds files.old path.now))
        (λ bytes. v.items ≡ bytes)) }
    ensures too_long { IsErrOf result ReadWholeError.TooLong
        → IfSome (told_bytes (F.holds files.old path.now)) (λ bytes. limit < length bytes) }
    ensures paths { LeavesAll (F.holds files.old) (F.holds files.new) }

    // It fails only where the count of failed reads of this path rose.
    ensures cause { IsErrOf result ReadWholeError.Failed
        → HasRisen (F.failed_reads files.old path.now) (F.failed_reads files.new path.now) }
    ensures reads { NoneFalls (F.failed_reads files.old) (F.failed_reads files.new) }
    ensures reads_ok { result ≢ Err ReadWholeError.Failed
        → NoneRises (F.failed_reads files.old) (F.failed_reads files.new) }
    ensures writes { NoneRises (F.failed_writes files.old) (F.failed_writes files.new) }

    // Each read offers room for at least 4,096 bytes.
    ensures asked { Since (AreRoomyReads path.now) (F.calls files.old) (F.calls files.new) }
{
    let mut buffer = zeros(alloc, READ_ROOM)?;
    let mut bytes = Vec::new(alloc);
    loop {
        let count = read_onto(files, path, &mut buffer, &mut bytes)?;
        if count == 0 {
            return Ok(bytes);
        }
        if bytes.len() > limit {
            return Err(ReadWholeError::TooLong);
        }
    }
}

/// So many zeros.
fn zeros(alloc: Global, count: usize) -> Result<Vec<u8>, AllocError>
    ensures { IfOk result (λ v. length v.items ≡ count) }
{
    vec![in alloc; 0u8; count]
}

/// Reads more of a path behind first bytes of it, and answers how many bytes came. None came where
/// the path ends there.
fn read_onto<F: Files>(
    files: &mut F,
    path: &str,
    buffer: &mut [u8],
    bytes: &mut Vec<u8>,
) -> Result<usize, ReadWholeError>
    requires room { least_room ≤ length buffer.old }
    requires front { BeginsWith (F.holds files.old path.now) bytes.old.items }
    ensures front { OnOk result (BeginsWith (F.holds files.old path.now) bytes.new.items) }
    ensures more { IfOk result (λ count. vec_len bytes.new ≡ vec_len bytes.old + count) }
    ensures end { result ≡ Ok 0 → IfSome (told_bytes (F.holds files.old path.now))
        (λ whole. bytes.new.items ≡ whole) }
    ensures paths { LeavesAll (F.holds files.old) (F.holds files.new) }
    ensures not_long { IsErrOf result ReadWholeError.TooLong → ⊥ }
    ensures cause { IsErrOf result ReadWholeError.Failed
        → HasRisen (F.failed_reads files.old path.now) (F.failed_reads files.new path.now) }
    ensures reads { NoneFalls (F.failed_reads files.old) (F.failed_reads files.new) }
    ensures reads_ok { result ≢ Err ReadWholeError.Failed
        → NoneRises (F.failed_reads files.old) (F.failed_reads files.new) }
    ensures writes { NoneRises (F.failed_writes files.old) (F.failed_writes files.new) }
    ensures called { F.calls files.new ≡ followed_by_call (ReadCall path.now (length buffer.old))
        (F.calls files.old) }
{
    match files.read_some(path, bytes.len() as u64, buffer) {
        Ok(count) => match bytes.extend_from_slice(&buffer[..count]) {
            Ok(()) => Ok(count),
            Err(_) => Err(ReadWholeError::NoMemory),
        },
        Err(_) => Err(ReadWholeError::Failed),
    }
}

/// Makes a path hold these bytes and no others. Where that fails, the path is as before, or holds
/// first bytes of them.
#[tactic(auto, using(crate::proofs::Asked::begun_with, crate::proofs::Asked::some_offers, crate::proofs::Asked::offered))]
pub fn write_whole<F: Files>(files: &mut F, path: &str, bytes: &[u8]) -> Result<(), Failed>
    ensures ok { OnOk result (Leaves (replaced_by bytes.now (F.holds files.old path.now))
        (F.holds files.new path.now)) }
    ensures err { OnErr result (Leaves (F.holds files.old path.now) (F.holds files.new path.now)
        ⊎ ((n : ℕ) × Leaves (replaced_by (take n bytes.now) (F.holds files.old path.now))
        (F.holds files.new path.now))) }
    ensures others { LeavesOthers path.now (F.holds files.old) (F.holds files.new) }

    // It fails only where the count of failed writes of this path rose.
    ensures cause { OnErr result (HasRisen (F.failed_writes files.old path.now)
        (F.failed_writes files.new path.now)) }
    ensures writes { NoneFalls (F.failed_writes files.old) (F.failed_writes files.new) }
    ensures writes_ok { OnOk result (NoneRises (F.failed_writes files.old)
        (F.failed_writes files.new)) }
    ensures reads { NoneRises (F.failed_reads files.old) (F.failed_reads files.new) }

    // Each append offers all that is left.
    ensures asked { Since (AreWholeOffers path.now bytes.now) (F.calls files.old)
        (F.calls files.new) }
{
    files.begin(path)?;
    let mut rest = bytes;
    while !rest.is_empty() {
        let count = files.append(path, rest)?;
        rest = behind(rest, count);
    }
    Ok(())
}

/// The bytes behind the first `count` ones.
pub(crate) fn behind(bytes: &[u8], count: usize) -> &[u8]
    requires { count ≤ length bytes.now }
    ensures { result.now ≡ drop count bytes.now }
{
    bytes.split_at(count).1
}

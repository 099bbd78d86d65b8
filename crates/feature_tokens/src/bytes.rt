ghost use Rattle.std.specs.Prelude.{◌≡◌, ◌≤◌, length};
ghost use Rattle.std.specs.List.{prefix_len};
ghost use Rattle.feature_tokens.specs.Bytes.{starts_name, belongs};

/// Bytes that go on: each run of a text is as long as it can be.
#[derive(Clone, Copy, Debug, PartialEq, Eq)]
pub(crate) enum Run {
    /// White space: space, tab, carriage return and line feed.
    Space,
    /// What follows the `#` of a comment, up to the line's end.
    Comment,
    /// Letters, digits, `_`, `.` and `-`.
    Name,
    /// Digits.
    Digits,
}

/// Whether a name can start with this byte.
#[tactic(auto, unfolding(crate::specs::Bytes::starts_name))]
pub(crate) fn starts_name(byte: u8) -> bool
    ensures { result ≡ starts_name byte }
{
    byte.is_ascii_alphabetic() || byte == b'_' || byte == b'.'
}

/// Whether a run of this kind goes on with this byte.
#[tactic(auto, unfolding(crate::specs::Bytes::belongs, crate::specs::Bytes::starts_name))]
pub(crate) fn belongs(run: Run, byte: u8) -> bool
    ensures { result ≡ belongs run byte }
{
    match run {
        Run::Space => byte == b' ' || byte == b'\t' || byte == b'\r' || byte == b'\n',
        Run::Comment => byte != b'\r' && byte != b'\n',
        Run::Name => starts_name(byte) || byte.is_ascii_digit() || byte == b'-',
        Run::Digits => byte.is_ascii_digit(),
    }
}

/// How many bytes at the front are a run of this kind.
pub(crate) fn run_length(run: Run, bytes: &[u8]) -> usize
    ensures longest { result ≡ prefix_len (belongs run) bytes.now }
    ensures within { result ≤ length bytes.now }
{
    let mut count = 0;
    while count < bytes.len() && belongs(run, bytes[count]) {
        count += 1;
    }
    count
}

//! Which lines of a Stats only the setup and the status give.
ghost use Rattle.std.specs.Prelude.{◌≡◌};
ghost use Rattle.std.specs.List.{position};
ghost use Rattle.wire_proto.specs.Telling.{ends_name, is_pinned, is_further, line_name};

/// The names of the lines that the setup and the status give.
static PINNED_NAMES: [&[u8]; 10] = [
    b"rows",
    b"cols",
    b"cuts",
    b"layer_cut_entries",
    b"shards",
    b"limit",
    b"max_batches",
    b"batches",
    b"folded",
    b"total",
];

/// Whether the setup or the status gives lines of this name.
#[tactic(auto, unfolding(crate::specs::Telling::is_pinned))]
fn is_pinned_name(name: &[u8]) -> bool
    ensures { result ≡ is_pinned name.now }
{
    PINNED_NAMES.contains(&name)
}

/// Whether a byte ends the name of a line: a space or a brace.
fn is_after_name(byte: u8) -> bool
    ensures { result ≡ ends_name byte }
{
    byte == b' ' || byte == b'{'
}

/// Where the name of a line ends, if a byte ends it.
fn end_of_name(line: &[u8]) -> Option<usize>
    ensures { result ≡ position ends_name line.now }
{
    line.iter().position(|byte| is_after_name(*byte))
}

/// The name of a line: what stands before its first space or brace.
fn name_of(line: &[u8]) -> &[u8]
    ensures { result.now ≡ line_name line.now }
{
    match end_of_name(line) {
        Some(end) => &line[..end],
        None => line,
    }
}

/// Whether these bytes are one line, and its name isn't pinned.
#[tactic(auto, unfolding(crate::specs::Telling::is_further))]
pub fn is_further_line(line: &[u8]) -> bool
    ensures { result ≡ is_further line.now }
{
    !line.contains(&b'\n') && !is_pinned_name(name_of(line))
}

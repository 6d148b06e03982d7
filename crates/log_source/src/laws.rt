//! What a run of reads gives.
ghost use Rattle.std.specs.Prelude.{◌≡◌, ℕ, ◌+◌, ◌<◌, List, length, slice_index};
ghost use Rattle.byte_io.specs.Streams.{Answer, Calls, bytes_of_calls};
ghost use Rattle.log_source.specs.Sources.{GivesFrom};

/// Reads of a file, one after another, give its bytes from the first one's place on, and nothing else.
pub fn reads_give_the_file()
    ensures next { (file : List ℕ) (answers : List Answer) (at next : ℕ) → Calls (GivesFrom file) at answers next →
        next ≡ at + length (bytes_of_calls answers) }
    ensures bytes { (file : List ℕ) (answers : List Answer) (at next : ℕ) → Calls (GivesFrom file) at answers next →
        (j : ℕ) → j < length (bytes_of_calls answers) →
        slice_index (bytes_of_calls answers) j ≡ slice_index file (at + j) }
{}

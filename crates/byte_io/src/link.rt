//! A device for both ways.
ghost use Rattle.std.specs.Prelude.{◌≡◌, refl};

use crate::devices::{Counted, Sink, Source};
use crate::script::Script;
use std::io::{Read, Write};

/// A source and a sink in one, as a connection is: its failed reads and its failed writes are one count.
///
/// Without that law a read would say nothing of the sink's count, and a write nothing of the source's.
pub trait Link: Source + Sink {
    ghost one_count: { (s : Self) → Self.Source.failure_count s ≡ Self.Sink.failure_count s };
}

impl<T: Read + Write> Link for Counted<T> {
    ghost one_count = { λ s. refl };
}

impl Link for Script {
    ghost one_count = { λ s. refl };
}

//! A source that is watched.
ghost use Rattle.std.specs.Prelude.{◌≡◌};

use crate::watch::Watch;
use byte_io::{DeviceFault, Source};

/// A source, and who is told of what it gives. What it gives, and when it fails, is the source's own.
#[derive(Drop)]
pub struct Watched<'w, S: Source, W: Watch> {
    source: S,
    watch: &'w mut W,
}

impl<'w, S: Source, W: Watch> Watched<'w, S, W> {
    /// A source of which no read was watched yet.
    pub fn new(source: S, watch: &'w mut W) -> Watched<'w, S, W>
        ensures { result.source ≡ source }
    {
        Watched { source, watch }
    }
}

impl<'w, S: Source, W: Watch> Source for Watched<'w, S, W> {
    ghost read_gives = { λ s answer t. S.read_gives s.source answer t.source };

    ghost at_end = { λ s. S.at_end s.source };

    ghost failure_count = { λ s. S.failure_count s.source };

    fn read(&mut self, buf: &mut [u8]) -> Result<usize, DeviceFault> {
        match self.source.read(buf) {
            Ok(count) => {
                self.watch.saw(&buf[..count]);
                Ok(count)
            }
            Err(fault) => Err(fault),
        }
    }

    fn failures(&self) -> u64 {
        self.source.failures()
    }
}

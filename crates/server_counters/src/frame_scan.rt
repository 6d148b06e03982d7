//! Which frames stand in a stream of bytes, told as the bytes go by in pieces.

/// The bytes of a header: the length of the body in four bytes, the high one first, and the kind.
const HEAD: usize = 5;

/// The most bytes of a frame that are looked at: a header and a number of eight bytes.
const LOOKED: usize = 13;

/// Which way the bytes go.
#[derive(Clone, Copy, Debug, PartialEq, Eq)]
pub enum Way {
    /// Requests, of which the kind is looked at.
    In,
    /// Replies, of which the number is looked at too with which a refusal or the answer to a save begins.
    Out,
}

/// A frame that has begun.
#[derive(Clone, Copy, Debug, PartialEq, Eq)]
pub enum Seen {
    /// A request of this kind, or a reply that isn't told apart.
    Kind(u8),
    /// The refusal of this code.
    Refused(u16),
    /// The answer to a save: so many batches.
    Saved(u64),
}

/// The kind of a reply that tells a save.
const SAVED: u8 = 0x86;

/// The kind of a reply that refuses.
const REFUSED: u8 = 0xff;

/// The frames of one stream, of which so much has gone by. Bytes may come in any pieces.
#[derive(Drop)]
pub struct FrameScan {
    way: Way,
    // The front of the frame that goes by, and how many bytes of it have.
    front: [u8; LOOKED],
    have: usize,
    // How many bytes of the body are still to go by, once the front was looked at.
    skip: u64,
}

impl FrameScan {
    /// A stream of which nothing has gone by.
    pub fn new(way: Way) -> FrameScan {
        FrameScan {
            way,
            front: [0; LOOKED],
            have: 0,
            skip: 0,
        }
    }

    // How many bytes of the frame are looked at.
    fn looked(&self) -> usize {
        if self.way == Way::In || self.have < HEAD {
            return HEAD;
        }
        match self.front[4] {
            SAVED => HEAD + 8,
            REFUSED => HEAD + 2,
            _ => HEAD,
        }
    }

    // The number of eight bytes behind the header.
    fn number(&self) -> u64 {
        match self.front[HEAD..].first_chunk::<8>() {
            Some(bytes) => u64::from_be_bytes(*bytes),
            None => 0,
        }
    }

    // The length of the body.
    fn length(&self) -> u64 {
        match self.front.first_chunk::<4>() {
            Some(bytes) => u32::from_be_bytes(*bytes) as u64,
            None => 0,
        }
    }

    // What has begun, by its front.
    fn seen(&self) -> Seen {
        match (self.way, self.front[4]) {
            (Way::Out, SAVED) => Seen::Saved(self.number()),
            (Way::Out, REFUSED) => Seen::Refused((self.number() >> 48) as u16),
            (_, kind) => Seen::Kind(kind),
        }
    }

    // Lets bytes of a body go by, and gives what is behind them.
    fn skipped<'b>(&mut self, bytes: &'b [u8]) -> &'b [u8] {
        let count = self.skip.min(bytes.len() as u64);
        self.skip -= count;
        &bytes[count as usize..]
    }

    // Takes bytes of a front, and gives what is behind them.
    fn taken<'b>(&mut self, bytes: &'b [u8]) -> &'b [u8] {
        let wanted = self.looked();
        let have = self.have.min(LOOKED);
        let count = wanted.saturating_sub(have).min(bytes.len());
        let (new, rest) = bytes.split_at(count);
        for (place, byte) in self.front[have..].iter_mut().zip(new.iter()) {
            *place = *byte;
        }
        self.have = have + count;
        rest
    }

    /// Lets bytes go by up to the front of the next frame, and gives what that is, if it is there, and what is behind
    /// the bytes that went by.
    pub fn next<'b>(&mut self, bytes: &'b [u8]) -> (Option<Seen>, &'b [u8]) {
        let mut rest = self.skipped(bytes);
        for _ in 0..LOOKED {
            if rest.is_empty() || self.have >= self.looked() {
                break;
            }
            rest = self.taken(rest);
        }
        if self.have < HEAD || self.have < self.looked() {
            return (None, rest);
        }
        let seen = self.seen();
        let behind = self.have - HEAD;
        self.skip = self.length().saturating_sub(behind as u64);
        self.have = 0;
        (Some(seen), rest)
    }
}

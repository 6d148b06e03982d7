//! At which call a life goes wrong.

/// How many devices a life has at most: the names, and a file for each log that it may make.
pub const DEVICES: usize = 6;

/// How many calls each has at most.
const CALLS: usize = 64;

/// A call, counted from 0 over those of its device. Device 0 are the names, and device n + 1 is file number n.
#[derive(Clone, Copy, Debug, PartialEq, Eq)]
pub struct Place {
    pub device: usize,
    pub call: u64,
}

/// What happens at that call.
#[derive(Clone, Copy, Debug, PartialEq, Eq)]
pub enum Fault {
    None,
    /// It fails, and may be done in part.
    Fails(Place),
    /// It is done, and then the program ends: no later call does anything.
    Ends(Place),
}

impl Fault {
    /// The faults in an order: device by device, and of each its calls from the first on.
    pub fn all() -> usize {
        2 * CALLS * DEVICES
    }

    /// The fault of this number.
    pub fn number(n: usize) -> Fault {
        let place = Place {
            device: n / (2 * CALLS),
            call: (n / 2 % CALLS) as u64,
        };
        if n % 2 == 0 {
            Fault::Fails(place)
        } else {
            Fault::Ends(place)
        }
    }

    /// Which call of a file fails, if one does.
    pub fn failing_in(&self, file: usize) -> Option<u64> {
        match self {
            Fault::Fails(place) if place.device == file.saturating_add(1) => Some(place.call),
            Fault::Fails(_) | Fault::Ends(_) | Fault::None => None,
        }
    }

    /// Whose call it is, of a life that goes wrong.
    pub fn device(&self) -> Option<usize> {
        match self {
            Fault::Fails(place) | Fault::Ends(place) => Some(place.device),
            Fault::None => None,
        }
    }
}

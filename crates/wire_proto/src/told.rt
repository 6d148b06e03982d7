//! What a store tells of itself.

use crate::figures::Figure;
use batch_store::Setup;
use plain_engine::Status;
use std::marker::Model;

/// What a store tells of itself: its setup, how many batches it has accepted, how many of them are folded, and their
/// total, as they were at one moment, and further numbers. Of these nothing is proved but that none has the name of a
/// line of the setup or of the status in the text.
#[derive(Drop)]
pub struct Told {
    pub setup: Setup,
    pub status: Status,
    pub folded: u64,
    pub figures: Vec<Figure>,
}

impl Model for Told {
    ghost use Rattle.wire_proto.specs.Telling.{Telling, telling};

    ghost Value = { Telling };

    ghost view = { λ t. telling t.setup t.status t.folded t.figures.items };
}

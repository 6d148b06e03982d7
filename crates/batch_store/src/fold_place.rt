//! A place for a base that is made outside all locks, and who makes it.
//!
//! Who seals keeps the place, and whoever makes the base has it too, with what the base is made of. The place takes
//! nothing but the matrix that its tag tells, so whoever finds it full knows what it has: nothing is compared.
ghost use Rattle.std.specs.Prelude.{◌≡◌, IfOk, IfSome};
ghost use Rattle.std.specs.Arc.{arc_value};
ghost use Rattle.layer_compaction.specs.Due.{numbers_of};

use crate::pieces::Pieces;
use boxcar::slot::{OnceSlot, SlotRule};
use boxcar::tag::{Names, Tag};
use hyper_matrix::Hyper;
use layer_compaction::Layer;
use std::alloc::{AllocError, Global};
use std::marker::Model;
use std::sync::Arc;

/// A base that was made: the matrix, and the same below layers. Both share its cells.
#[derive(Drop)]
pub struct MadeBase {
    pub(crate) base: Arc<Hyper>,
    pub(crate) below: Arc<Layer>,
}

impl MadeBase {
    // Of this sum.
    fn of(alloc: Global, sum: Hyper) -> Result<MadeBase, AllocError>
        ensures base { IfOk result (λ made. arc_value made.base ≡ sum) }
        ensures below { IfOk result (λ made. arc_value made.below ≡ sum) }
    {
        let copy = sum.copy(alloc)?;
        let base = Arc::new(alloc, copy)?;
        let layer = Layer::base(alloc, sum)?;
        let below = Arc::new(alloc, layer)?;
        Ok(MadeBase { base, below })
    }

    // The same once more, shared.
    fn shared(&self) -> Option<MadeBase>
        ensures base { IfSome result (λ made. arc_value made.base ≡ arc_value self.now.base) }
        ensures below { IfSome result (λ made. arc_value made.below ≡ arc_value self.now.below) }
    {
        let base = Arc::try_clone(&self.base).ok()?;
        let below = Arc::try_clone(&self.below).ok()?;
        Some(MadeBase { base, below })
    }
}

/// What is put into a slot is the matrix that the slot's tag has the numbers of.
pub struct SameBase;

impl SlotRule<Arc<Pieces>> for SameBase {
    ghost use Rattle.std.specs.Prelude.{◌≡◌};
    ghost use Rattle.std.specs.Arc.{arc_value};
    ghost use Rattle.layer_compaction.specs.Due.{numbers_of};

    ghost holds = { λ tag base. numbers_of (arc_value base).whole ≡ tag };
}

impl SlotRule<MadeBase> for SameBase {
    ghost use Rattle.std.specs.Prelude.{◌≡◌};
    ghost use Rattle.std.specs.Arc.{arc_value};
    ghost use Rattle.layer_compaction.specs.Due.{numbers_of};

    ghost holds = { λ tag made.
        (numbers_of (arc_value made.base) ≡ tag) × (numbers_of (arc_value made.below) ≡ tag) };
}

/// A place for the book's base, which is filled once. Contracts see the base's numbers.
#[derive(Drop)]
pub struct BasePlace {
    base: OnceSlot<Arc<Pieces>, SameBase>,
}

impl Model for BasePlace {
    ghost use Rattle.std.specs.Prelude.{List, ℕ};

    ghost Value = { List ℕ };

    ghost view = { λ p. p.base.tag };
}

impl BasePlace {
    /// An empty place for the base of this tag. It takes no memory.
    pub(crate) fn empty(tag: &Tag) -> BasePlace
        ensures { result ≡ tag.now.numbers }
    {
        let base = OnceSlot::new(tag);
        BasePlace { base }
    }

    /// The base, if it was made. It waits for nobody.
    pub(crate) fn base(&self) -> Option<&Arc<Pieces>>
        ensures { IfSome result (λ base. numbers_of (arc_value base.now).whole ≡ self.now) }
    {
        self.base.get()
    }

    /// Puts the base here, unless another has. It waits for nobody.
    pub(crate) fn fill(&self, base: Arc<Pieces>)
        requires { numbers_of (arc_value base).whole ≡ self.now }
    {
        let _ = self.base.set(base);
    }
}

/// A place for a shard's base, which is filled once. Contracts see the base's numbers.
#[derive(Drop)]
pub struct MadePlace {
    made: OnceSlot<MadeBase, SameBase>,
}

impl Model for MadePlace {
    ghost use Rattle.std.specs.Prelude.{List, ℕ};

    ghost Value = { List ℕ };

    ghost view = { λ p. p.made.tag };
}

impl MadePlace {
    // An empty place for the base of this tag. It takes no memory.
    fn empty(tag: &Tag) -> MadePlace
        ensures { result ≡ tag.now.numbers }
    {
        let made = OnceSlot::new(tag);
        MadePlace { made }
    }

    /// The base, if it was made, shared. It waits for nobody.
    pub(crate) fn made(&self) -> Option<MadeBase>
        ensures base { IfSome result (λ made. numbers_of (arc_value made.base) ≡ self.now) }
        ensures below { IfSome result (λ made. numbers_of (arc_value made.below) ≡ self.now) }
    {
        let made = self.made.get()?;
        made.shared()
    }

    // Puts the base here, unless another has. It waits for nobody.
    fn fill(&self, made: MadeBase)
        requires base { numbers_of (arc_value made.base) ≡ self.now }
        requires below { numbers_of (arc_value made.below) ≡ self.now }
    {
        let _ = self.made.set(made);
    }
}

/// A base that was made for the shard of this number.
#[derive(Drop)]
pub struct ShardBase {
    pub number: u64,
    pub base: Arc<Hyper>,
}

// The numbers of what was handed down.
struct OfLayer;

impl Names<Layer> for OfLayer {
    ghost use Rattle.layer_compaction.specs.Due.{numbers_of};

    ghost numbers = { λ layer. numbers_of layer };
}

/// What a shard handed down when its record was sealed, which the record's base is to be made of, and the place for it.
/// Whoever has it needs no lock.
///
/// To drop it is to give the fold up: the shard stays as it is.
#[derive(Drop)]
pub struct ShardFold {
    number: u64,
    below: Arc<Layer>,
    place: Arc<MadePlace>,
    ghost told: { arc_value place ≡ numbers_of (arc_value below) },
}

impl ShardFold {
    /// Of this shard, with a new place.
    pub(crate) fn begin(
        alloc: Global,
        number: u64,
        below: Arc<Layer>,
    ) -> Result<(Arc<MadePlace>, ShardFold), AllocError>
        ensures { IfOk result (λ r. arc_value r.0 ≡ numbers_of (arc_value below)) }
    {
        let tag = Tag::of::<Layer, OfLayer>(&below);
        let place = Arc::new(alloc, MadePlace::empty(&tag))?;
        let kept = Arc::try_clone(&place)?;
        Ok((
            kept,
            ShardFold {
                number,
                below,
                place,
            },
        ))
    }

    /// Adds up what was handed down, and puts the sum in its place, where the shard finds it. Takes the time and memory
    /// of the sum, and 1 to 2 bytes and some nanoseconds for each of its entries for the filter. It waits for nobody,
    /// and nobody for it. It answers the sum, shared.
    ///
    /// # Errors
    ///
    /// A growth was refused. All is as before, and it can be called again.
    pub fn run(&self, alloc: Global) -> Result<ShardBase, AllocError> {
        let sum = self.below.sum(alloc)?;
        let made = MadeBase::of(alloc, sum)?;
        let base = Arc::try_clone(&made.base)?;
        self.place.fill(made);
        Ok(ShardBase {
            number: self.number,
            base,
        })
    }
}

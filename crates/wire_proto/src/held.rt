//! Puts that are held back, so that they are settled together and one write sends their replies.
ghost use Rattle.std.specs.Prelude.{◌≡◌, ◌+◌, ◌*◌, ◌^◌, ◌<◌, ◌≤◌, ◌++◌, ◌∷◌, [], length, IfOk};
ghost use Rattle.std.specs.Bool.{OnFalse};
ghost use Rattle.arrayvec.specs.ArrayVec.{array_vec_len};
ghost use Rattle.wire_proto.specs.Settling.{settled_reply as reply_of, SettlesOne, SettlesAll, SendsSettled};

use crate::ended::Ended;
use crate::keeper::{Keeper, Settled};
use crate::limits::{HELD, HELD_BYTES};
use crate::replies::{Short, accepted, refused};
use crate::sending::send;
use arrayvec::ArrayVec;
use batch_store::Kept;
use byte_io::Sink;

/// What is held back of a put that was begun.
#[derive(Clone, Copy)]
pub enum Begun {
    /// It was accepted. Its reply is known once its place is settled.
    Accepted(Kept),
    /// It was refused.
    Refused { code: u16, detail: u64 },
}

impl Default for Begun {
    fn default() -> Begun {
        Begun::Refused { code: 0, detail: 0 }
    }
}

/// The last puts of a session, in order, which were begun and aren't answered yet: at most `HELD`.
#[derive(Drop)]
pub struct Held {
    pub(crate) begun: ArrayVec<Begun, HELD>,
    pub ghost few: { array_vec_len begun ≤ 64 },
}

impl Held {
    /// None.
    pub fn new() -> Held
        ensures { result.begun.items ≡ [] }
    {
        Held {
            begun: ArrayVec::new(),
        }
    }

    /// Whether no further put is held back.
    pub fn is_full(&self) -> bool
        ensures { OnFalse result (length self.now.begun.items < 64) }
    {
        self.begun.is_full()
    }

    /// Holds a put back, behind the others.
    pub fn push(&mut self, begun: Begun)
        requires { length self.old.begun.items < 64 }
        ensures { self.new.begun.items ≡ self.old.begun.items ++ begun ∷ [] }
    {
        self.begun.push(begun);
    }
}

/// The reply to a put that was accepted, once this is known of its place.
fn settled_reply(kept: Kept, known: Settled) -> Short
    ensures { result.items ≡ reply_of kept known }
{
    match known {
        Settled::Durable => accepted(kept),
        Settled::LogFailed => refused(35, 0),
        Settled::RecordsDiffer => refused(33, 0),
    }
}

/// The reply to a put that was begun, once it is settled.
fn settle_one<K: Keeper>(keeper: &mut K, begun: Begun) -> Short
    requires fact { K.fact keeper.old }
    ensures settles { SettlesOne K.settles keeper.old begun result.items keeper.new }
    ensures fact { K.fact keeper.new }
    ensures setup { K.setup_of keeper.new ≡ K.setup_of keeper.old }
{
    match begun {
        Begun::Refused { code, detail } => refused(code, detail),
        Begun::Accepted(kept) => {
            let known = keeper.settle(kept.index);
            settled_reply(kept, known)
        }
    }
}

/// Appends a reply, for which there is room.
fn append(replies: &mut ArrayVec<u8, HELD_BYTES>, reply: &Short)
    requires { length replies.old.items + 21 ≤ 1344 }
    ensures items { replies.new.items ≡ replies.old.items ++ reply.now.items }
    ensures short { length replies.new.items ≤ length replies.old.items + 21 }
{
    match replies.try_extend_from_slice(reply.as_slice()) {
        Ok(()) => {}
        Err(_) => unreachable!(),
    }
}

/// The replies to puts that were begun, which are settled in order.
fn settle_all<K: Keeper>(keeper: &mut K, begun: &[Begun]) -> ArrayVec<u8, HELD_BYTES>
    requires fact { K.fact keeper.old }
    requires few { length begun.now ≤ 64 }
    ensures settles { SettlesAll K.settles keeper.old begun.now result.items keeper.new }
    ensures short { length result.items ≤ 21 * length begun.now }
    ensures fact { K.fact keeper.new }
    ensures setup { K.setup_of keeper.new ≡ K.setup_of keeper.old }
{
    let mut replies = ArrayVec::new();
    for one in begun {
        let reply = settle_one(keeper, *one);
        append(&mut replies, &reply);
    }
    replies
}

/// Settles what is held back, and sends the replies, by one write as far as the link takes it.
pub fn send_held<L: Sink, K: Keeper>(
    link: &mut L,
    keeper: &mut K,
    held: &mut Held,
    written: u128,
) -> Result<u128, Ended>
    requires ready { L.failure_count link.old + 1 < 2 ^ 64 }
    requires fact { K.fact keeper.old }
    requires room { written + 2 ^ 27 < 2 ^ 128 }
    ensures sends { SendsSettled K.settles L.write_takes L.failure_count keeper.old keeper.new link.old link.new
        held.old.begun.items written result }
    ensures none { held.new.begun.items ≡ [] }
    ensures room { IfOk result (λ w. w ≤ written + 21 * length held.old.begun.items) }
    ensures fact { K.fact keeper.new }
    ensures setup { K.setup_of keeper.new ≡ K.setup_of keeper.old }
{
    let replies = settle_all(keeper, held.begun.as_slice());
    let sent = send(link, replies.as_slice(), written);
    *held = Held::new();
    sent
}

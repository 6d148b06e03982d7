//! Spells the head page of a log.
ghost use Rattle.std.specs.Prelude.{◌≡◌, ◌+◌, ◌*◌, ◌≤◌, ◌++◌, length, flat_map};
ghost use Rattle.std.specs.Int.{w8, w32, w64};
ghost use Rattle.snap_file.specs.Spelling.{number_bytes, identity_bytes};
ghost use Rattle.log_head.specs.Heads.{field_bytes, fields_end, head_page, setup_bytes, version};

use crate::head::{CHECK_AT, LogHead, MARK, VERSION};
use arrayvec::ArrayVec;
use batch_store::Setup;
use crc32c::crc32c;
use log_page::PAGE;
use snap_file::Identity;

/// Room for the fields of a head, which take up to 146 bytes.
const FIELD_BYTES: usize = 160;

type Fields = ArrayVec<u8, FIELD_BYTES>;

// Appends bytes that have room.
fn push(fields: &mut Fields, bytes: &[u8])
    requires { length fields.old.items + length bytes.now ≤ 160 }
    ensures { fields.new.items ≡ fields.old.items ++ bytes.now }
{
    let added = fields.try_extend_from_slice(bytes).is_ok();
    prove!(added);
}

#[tactic(auto, unfolding(snap_file::specs::Spelling::number_bytes))]
fn push_u8(fields: &mut Fields, n: u8)
    requires { length fields.old.items + 1 ≤ 160 }
    ensures fields { fields.new.items ≡ fields.old.items ++ number_bytes w8 n }
    ensures length { length fields.new.items ≡ length fields.old.items + 1 }
{
    push(fields, &n.to_be_bytes());
}

#[tactic(auto, unfolding(snap_file::specs::Spelling::number_bytes))]
fn push_u32(fields: &mut Fields, n: u32)
    requires { length fields.old.items + 4 ≤ 160 }
    ensures fields { fields.new.items ≡ fields.old.items ++ number_bytes w32 n }
    ensures length { length fields.new.items ≡ length fields.old.items + 4 }
{
    push(fields, &n.to_be_bytes());
}

#[tactic(auto, unfolding(snap_file::specs::Spelling::number_bytes))]
fn push_u64(fields: &mut Fields, n: u64)
    requires { length fields.old.items + 8 ≤ 160 }
    ensures fields { fields.new.items ≡ fields.old.items ++ number_bytes w64 n }
    ensures length { length fields.new.items ≡ length fields.old.items + 8 }
{
    push(fields, &n.to_be_bytes());
}

fn push_cuts(fields: &mut Fields, cuts: &[u64])
    requires { length fields.old.items + 8 * length cuts.now ≤ 160 }
    ensures fields { fields.new.items ≡ fields.old.items ++ flat_map (number_bytes w64) cuts.now }
    ensures length { length fields.new.items ≡ length fields.old.items + 8 * length cuts.now }
{
    'each: for cut in cuts {
        push_u64(fields, *cut);
    }
}

fn push_setup(fields: &mut Fields, setup: &Setup)
    requires { length fields.old.items + 90 ≤ 160 }
    ensures fields { fields.new.items ≡ fields.old.items ++ setup_bytes setup.now }
    ensures length { length fields.new.items ≡ length fields.old.items + 34 + 8 * length setup.now.cuts }
    ensures few { length setup.now.cuts ≤ 7 }
{
    push_u64(fields, setup.rows());
    push_u64(fields, setup.cols());
    let cuts = setup.cuts();
    let count = cuts.len() as u8;
    push_u8(fields, count);
    push_cuts(fields, cuts);
    let shards = setup.shards() as u8;
    push_u8(fields, shards);
    push_u64(fields, setup.limit());
    push_u64(fields, setup.max_batches());
}

fn push_identity(fields: &mut Fields, identity: Identity)
    requires { length fields.old.items + 24 ≤ 160 }
    ensures fields { fields.new.items ≡ fields.old.items ++ identity_bytes identity }
    ensures length { length fields.new.items ≡ length fields.old.items + 24 }
{
    push_u64(fields, identity.book_high);
    push_u64(fields, identity.book_low);
    push_u64(fields, identity.window);
}

// The fields of a head, in their order.
fn fields_of(head: &LogHead) -> Fields
    ensures fields { result.items ≡ field_bytes version head.now }
    ensures length { length result.items ≡ fields_end version (length head.now.setup.cuts) }
    ensures few { length head.now.setup.cuts ≤ 7 }
{
    let mut fields = Fields::new();
    push_u64(&mut fields, MARK);
    push_u32(&mut fields, VERSION);
    push_setup(&mut fields, &head.setup);
    push_u64(&mut fields, head.first);
    push_u64(&mut fields, head.total);
    push_u32(&mut fields, head.link);
    push_identity(&mut fields, head.identity);
    fields
}

/// Spells the page of a head, over all that stood there. It takes no memory.
pub fn encode_head(page: &mut [u8; PAGE], head: &LogHead)
    ensures { page.new ≡ head_page head.now }
{
    let fields = fields_of(head);
    *page = [0; PAGE];
    page[..fields.len()].copy_from_slice(&fields);
    let check = crc32c(&page[..CHECK_AT]);
    page[CHECK_AT..].copy_from_slice(&check.to_be_bytes());
}

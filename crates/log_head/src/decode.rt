//! Reads the head page of a log.
ghost use Rattle.std.specs.Prelude.{◌≡◌, ◌+◌, ◌*◌, ◌<◌, ◌≤◌, ◌^◌, true, false, length, drop, take, slice_index, Ok};
ghost use Rattle.std.specs.Prelude.{Err, OnOk};
ghost use Rattle.std.specs.Prelude.{IfOk, IfErr};
ghost use Rattle.std.specs.Int.{w32, w64, from_be_bytes};
ghost use Rattle.batch_store.specs.Setups.{IsSetting};
ghost use Rattle.snap_file.specs.Spelling.{IsBytes};
ghost use Rattle.log_page.specs.Pages.{is_blank};
ghost use Rattle.log_head.specs.Heads.{HasCheck, HasFields, HasHead, HasMark, HasVersion, IsHeadIn, RefusesPage};
ghost use Rattle.log_head.specs.Heads.{cut_count, cuts_of, behind_cuts, filler, head_in, setup_in, u32_in, u64_in};
ghost use Rattle.log_head.specs.Heads.{version_in, identity_in, fields_end, most_batches_of, IsKnownVersion};
ghost use Rattle.snap_file.specs.Origins.{IsIdentity};
ghost use Rattle.log_head.specs.declared.head.LogHead.{LogHead};
ghost use Rattle.log_blocks.specs.declared.fault.LogKind.{LogKind};

use crate::head::{CHECK_AT, LogHead, MARK, OLD_VERSION, VERSION};
use batch_store::{MAX_BATCHES, Setup};
use crc32c::crc32c;
use layer_cascade::MAX_CUTS;
use log_blocks::LogKind;
use log_page::PAGE;
use snap_file::{Identity, OLD_MAX_BATCHES};

// The offset of the version, that of the number of cuts, how many bytes of fields follow the cuts in the old version, and
// how many more there are in the version that is written.
const VERSION_AT: usize = 8;

const COUNT_AT: usize = 28;

const BEHIND_CUTS: usize = 37;

const IDENTITY_BYTES: usize = 24;

/// The bytes from a place on.
fn behind(bytes: &[u8], at: usize) -> &[u8]
    requires { at ≤ length bytes.now }
    ensures { result.now ≡ drop at bytes.now }
{
    bytes.split_at(at).1
}

fn u8_at(bytes: &[u8], at: usize) -> u8
    requires { at < length bytes.now }
    ensures { result ≡ slice_index bytes.now at }
{
    bytes[at]
}

fn u32_at(bytes: &[u8], at: usize) -> u32
    requires { at + 4 ≤ length bytes.now }
    ensures value { result ≡ u32_in bytes.now at }
    ensures fits { result < 2 ^ 32 }
{
    let Some((number, _)) = behind(bytes, at).split_first_chunk::<4>() else {
        unreachable!();
    };
    u32::from_be_bytes(*number)
}

fn u64_at(bytes: &[u8], at: usize) -> u64
    requires { at + 8 ≤ length bytes.now }
    ensures { result ≡ u64_in bytes.now at }
{
    let Some((number, _)) = behind(bytes, at).split_first_chunk::<8>() else {
        unreachable!();
    };
    u64::from_be_bytes(*number)
}

// So many cuts, with zeros behind them.
fn cuts_at(bytes: &[u8], count: usize) -> [u64; MAX_CUTS]
    requires few { count ≤ 7 }
    requires bytes { 8 * count ≤ length bytes.now }
    ensures { take count result ≡ cuts_of count bytes.now }
{
    let mut cuts = [0; MAX_CUTS];
    'places: for i in 0..count {
        let cut = u64_at(bytes, 8 * i);
        cuts[i] = cut;
    }
    cuts
}

// The setup of a page whose number of cuts is no more than there may be.
fn setup_told(page: &[u8; PAGE], count: usize) -> Result<Setup, LogKind>
    requires few { count ≤ 7 }
    requires count { count ≡ cut_count page.now }
    ensures ok { IfOk result (λ s. (s ≡ setup_in page.now) × IsSetting s) }
    ensures err { IfErr result (λ kind. (kind ≡ LogKind.BadHead) × (IsSetting (setup_in page.now) → ⊥)) }
{
    let rows = u64_at(page, 12);
    let cols = u64_at(page, 20);
    let listed = behind(page, COUNT_AT + 1);
    let cuts = cuts_at(listed, count);
    let rest = behind(page, COUNT_AT + 1 + 8 * count);
    let shards = u8_at(rest, 0) as u64;
    let limit = u64_at(rest, 1);
    let most = u64_at(rest, 9);
    match Setup::new(rows, cols, &cuts[..count], shards, limit, most) {
        Ok(setup) => Ok(setup),
        Err(_) => Err(LogKind::BadHead),
    }
}

// The most batches that a setup may allow in a head of this version.
fn most_batches(version: u32) -> u64
    ensures { result ≡ most_batches_of version }
{
    if version == VERSION {
        MAX_BATCHES
    } else {
        OLD_MAX_BATCHES
    }
}

// Whether what a head says of the batches before it lies within what its setup allows.
fn fits_setup(head: &LogHead) -> bool
    ensures yes { result ≡ true → (head.now.first ≤ head.now.setup.max_batches) ×
        (head.now.total ≤ head.now.setup.limit) }
    ensures no { result ≡ false → head.now.first ≤ head.now.setup.max_batches →
        head.now.total ≤ head.now.setup.limit → ⊥ }
{
    head.first <= head.setup.max_batches() && head.total <= head.setup.limit()
}

// Whose a log is, as its page says it.
fn identity_of(page: &[u8; PAGE], count: usize) -> Identity
    requires few { count ≤ 7 }
    requires count { count ≡ cut_count page.now }
    ensures value { result ≡ identity_in page.now }
    ensures fits { IsIdentity result }
{
    if u32_at(page, VERSION_AT) != VERSION {
        return Identity::unknown();
    }
    let rest = behind(page, COUNT_AT + 1 + 8 * count);
    Identity {
        book_high: u64_at(rest, BEHIND_CUTS),
        book_low: u64_at(rest, BEHIND_CUTS + 8),
        window: u64_at(rest, BEHIND_CUTS + 16),
    }
}

// The head of this setup that a page says.
fn head_of(page: &[u8; PAGE], count: usize, setup: Setup) -> LogHead
    requires few { count ≤ 7 }
    requires count { count ≡ cut_count page.now }
    requires setup { setup ≡ setup_in page.now }
    ensures value { result ≡ head_in page.now }
    ensures setup { result.setup ≡ setup }
    ensures link { result.link < 2 ^ 32 }
    ensures named { IsIdentity result.identity }
{
    let identity = identity_of(page, count);
    let rest = behind(page, COUNT_AT + 1 + 8 * count);
    let first = u64_at(rest, 17);
    let total = u64_at(rest, 25);
    let link = u32_at(rest, 33);
    LogHead {
        setup,
        first,
        total,
        link,
        identity,
    }
}

// The head that a page of the right mark and version says, if all its fields lie within their ranges.
fn head_told(page: &[u8; PAGE]) -> Result<LogHead, LogKind>
    ensures ok { IfOk result (λ h. (h ≡ head_in page.now) × IsHeadIn (version_in page.now) h) }
    ensures err { IfErr result (λ kind. (kind ≡ LogKind.BadHead) ×
        (IsHeadIn (version_in page.now) (head_in page.now) → ⊥)) }
{
    let count = u8_at(page, COUNT_AT) as usize;
    if count > MAX_CUTS {
        return Err(LogKind::BadHead);
    }
    let setup = setup_told(page, count)?;
    let most = most_batches(u32_at(page, VERSION_AT));
    if setup.max_batches() > most {
        return Err(LogKind::BadHead);
    }
    let head = head_of(page, count, setup);
    if fits_setup(&head) {
        Ok(head)
    } else {
        Err(LogKind::BadHead)
    }
}

fn judge_front(page: &[u8; PAGE]) -> Result<(), LogKind>
    ensures ok { OnOk result (HasVersion page.now) }
    ensures bytes { IsBytes page.now }
    ensures long { length page.now ≡ 4096 }
    ensures err { IfErr result (RefusesPage page.now) }
{
    if u64_at(page, 0) != MARK {
        return Err(LogKind::BadMark);
    }
    let version = u32_at(page, VERSION_AT);
    if version < OLD_VERSION || version > VERSION {
        return Err(LogKind::BadVersion);
    }
    Ok(())
}

// Whether the checksum of a head page is that of the bytes before it.
fn has_check(page: &[u8; PAGE]) -> bool
    ensures yes { result ≡ true → HasCheck page.now }
    ensures no { result ≡ false → HasCheck page.now → ⊥ }
{
    u32_at(page, CHECK_AT) == crc32c(&page[..CHECK_AT])
}

// Where the fields of a page end.
fn end_of_fields(page: &[u8; PAGE]) -> usize
    requires { cut_count page.now ≤ 7 }
    ensures { result ≡ fields_end (version_in page.now) (cut_count page.now) }
{
    let end = COUNT_AT + 1 + 8 * u8_at(page, COUNT_AT) as usize + BEHIND_CUTS;
    if u32_at(page, VERSION_AT) == VERSION {
        end + IDENTITY_BYTES
    } else {
        end
    }
}

// Whether all bytes between the fields and the checksum are 00.
fn has_blank_filler(page: &[u8; PAGE]) -> bool
    requires { cut_count page.now ≤ 7 }
    ensures { result ≡ is_blank (filler page.now) }
{
    let end = end_of_fields(page);
    page[end..CHECK_AT].iter().all(|byte| *byte == 0)
}

// Judges what stands behind fields that lie within their ranges.
fn judge_behind(page: &[u8; PAGE]) -> Result<(), LogKind>
    requires { HasFields page.now }
    ensures ok { OnOk result (HasCheck page.now × (is_blank (filler page.now) ≡ true)) }
    ensures err { IfErr result (RefusesPage page.now) }
{
    if !has_check(page) {
        return Err(LogKind::HeadCheck);
    }
    if !has_blank_filler(page) {
        return Err(LogKind::BadHead);
    }
    Ok(())
}

// The head of a page, or its first fault.
fn read_page(page: &[u8; PAGE]) -> Result<LogHead, LogKind>
    ensures ok { IfOk result (HasHead page.now) }
    ensures err { IfErr result (RefusesPage page.now) }
{
    judge_front(page)?;
    let head = head_told(page)?;
    judge_behind(page)?;
    Ok(head)
}

/// Reads a head page. It takes no memory, and costs one pass over the page.
///
/// # Errors
///
/// The first of these that stands: `BadMark` and `BadVersion`, `BadHead` where a field is out of its range, `HeadCheck`
/// where the checksum is wrong, and `BadHead` where it is right and the bytes behind the fields aren't all 00.
pub fn decode_head(page: &[u8; PAGE]) -> Result<LogHead, LogKind>
    ensures ok { IfOk result (HasHead page.now) }
    ensures err { IfErr result (RefusesPage page.now) }
    ensures exact { (h : LogHead) → HasHead page.now h → result ≡ Ok h }
    ensures exact_err { (kind : LogKind) → RefusesPage page.now kind → result ≡ Err kind }
{
    read_page(page)
}

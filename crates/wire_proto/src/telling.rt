//! Answers a Stats: the text of what a keeper tells of itself.
ghost use Rattle.std.specs.Prelude.{◌≡◌, ◌+◌, ◌%◌, ◌≤◌, ◌<◌, ◌^◌, ◌++◌, ◌∷◌, [], length, decimal, IfOk, OnOk, OnErr};
ghost use Rattle.hex.specs.Hex.{encode_lower};
ghost use Rattle.wire_proto.specs.Answering.{Answers, RunsOut};
ghost use Rattle.wire_proto.specs.LongReplies.{bytes_of};
ghost use Rattle.wire_proto.specs.Replies.{lines_reply as reply_of_lines};
ghost use Rattle.wire_proto.specs.Telling.{amount_text, label_text, labels_text, figure_line, figure_text};
ghost use Rattle.wire_proto.specs.Telling.{number_line, cut_line, cut_lines};
ghost use Rattle.wire_proto.specs.Telling.{setup_text, status_text, figures_text, stats_text};

use crate::figures::{Amount, Figure, Label, Labels};
use crate::keeper::Keeper;
use crate::long_replies::start;
use crate::pinned::is_further_line;
use crate::questions::{Answer, refuses};
use crate::told::Told;
use batch_store::Setup;
use plain_engine::Status;
use std::alloc::{AllocError, Global};
use wire_frames::{MAX_BODY, Request};

/// Appends a number in decimal digits.
fn push_decimal(out: &mut Vec<u8>, n: u64) -> Result<(), AllocError>
    ensures { OnOk result (out.new.items ≡ out.old.items ++ decimal n) }
{
    let mut digits = itoa::Buffer::new();
    out.extend_from_slice(digits.format(n).as_bytes())
}

/// The last decimal digit of a number.
fn digit(n: u64) -> u8
    ensures { result ≡ 48 + n % 10 }
{
    b'0' + (n % 10) as u8
}

/// Appends bytes in hexadecimal digits.
fn push_hex(out: &mut Vec<u8>, bytes: &[u8; 16]) -> Result<(), AllocError>
    ensures { OnOk result (out.new.items ≡ out.old.items ++ encode_lower bytes.now) }
{
    let mut digits = [0; 32];
    let is_spelled = hex::encode_to_slice(bytes, &mut digits).is_ok();
    prove!(is_spelled);
    out.extend_from_slice(&digits)
}

/// Appends an amount.
fn push_amount(out: &mut Vec<u8>, amount: &Amount) -> Result<(), AllocError>
    ensures { OnOk result (out.new.items ≡ out.old.items ++ amount_text amount.now) }
{
    match amount {
        Amount::Count(n) => push_decimal(out, *n),
        Amount::Millis(n) => {
            push_decimal(out, *n / 1000)?;
            out.extend_from_slice(&[b'.', digit(*n / 100), digit(*n / 10), digit(*n)])
        }
        Amount::Word(word) => out.extend_from_slice(word.as_bytes()),
        Amount::Hex(bytes) => push_hex(out, bytes),
    }
}

/// Appends a label.
fn push_label(out: &mut Vec<u8>, label: &Label) -> Result<(), AllocError>
    ensures { OnOk result (out.new.items ≡ out.old.items ++ label_text label.now) }
{
    out.extend_from_slice(label.key.as_bytes())?;
    out.extend_from_slice(b"=\"")?;
    push_amount(out, &label.value)?;
    out.extend_from_slice(b"\"")
}

/// Appends labels.
fn push_labels(out: &mut Vec<u8>, labels: &Labels) -> Result<(), AllocError>
    ensures { OnOk result (out.new.items ≡ out.old.items ++ labels_text labels.now) }
{
    match labels {
        Labels::None => Ok(()),
        Labels::One(label) => {
            out.extend_from_slice(b"{")?;
            push_label(out, label)?;
            out.extend_from_slice(b"}")
        }
        Labels::Two(first, second) => {
            out.extend_from_slice(b"{")?;
            push_label(out, first)?;
            out.extend_from_slice(b",")?;
            push_label(out, second)?;
            out.extend_from_slice(b"}")
        }
    }
}

/// Appends a line without its end.
#[tactic(auto, unfolding(crate::specs::Telling::figure_line))]
fn push_line(out: &mut Vec<u8>, figure: &Figure) -> Result<(), AllocError>
    ensures { OnOk result (out.new.items ≡ out.old.items ++ figure_line figure.now) }
{
    out.extend_from_slice(figure.name.as_bytes())?;
    push_labels(out, &figure.labels)?;
    out.extend_from_slice(b" ")?;
    push_amount(out, &figure.amount)
}

/// Appends a line, but none that a client could take for one of the setup or of the status.
#[tactic(auto, unfolding(crate::specs::Telling::figure_text))]
fn push_figure(out: &mut Vec<u8>, figure: &Figure) -> Result<(), AllocError>
    ensures { OnOk result (out.new.items ≡ out.old.items ++ figure_text figure.now) }
{
    let start = out.len();
    push_line(out, figure)?;
    if is_further_line(&out[start..]) {
        return out.extend_from_slice(b"\n");
    }
    out.truncate(start);
    Ok(())
}

/// Appends lines.
#[tactic(auto, unfolding(crate::specs::Telling::figures_text))]
fn push_figures(out: &mut Vec<u8>, figures: &[Figure]) -> Result<(), AllocError>
    ensures { OnOk result (out.new.items ≡ out.old.items ++ figures_text figures.now) }
{
    'figures: for figure in figures {
        push_figure(out, figure)?;
    }
    Ok(())
}

/// Appends a line without labels.
#[tactic(auto, unfolding(crate::specs::Telling::number_line))]
fn push_number(out: &mut Vec<u8>, name: &str, n: u64) -> Result<(), AllocError>
    ensures { OnOk result (out.new.items ≡ out.old.items ++ number_line name.now n) }
{
    out.extend_from_slice(name.as_bytes())?;
    out.extend_from_slice(b" ")?;
    push_decimal(out, n)?;
    out.extend_from_slice(b"\n")
}

/// Appends the line of a layer's cut, which begins so.
#[tactic(auto, unfolding(crate::specs::Telling::cut_line))]
fn push_cut(out: &mut Vec<u8>, front: &str, layer: u64, cut: u64) -> Result<(), AllocError>
    ensures { OnOk result (out.new.items ≡ out.old.items ++ cut_line front.now layer cut) }
{
    out.extend_from_slice(front.as_bytes())?;
    push_decimal(out, layer)?;
    out.extend_from_slice(b"\"} ")?;
    push_decimal(out, cut)?;
    out.extend_from_slice(b"\n")
}

/// Appends the lines of the cuts from this layer on.
fn push_cuts(out: &mut Vec<u8>, layer: u64, cuts: &[u64]) -> Result<(), AllocError>
    requires { layer + length cuts.now < 2 ^ 64 }
    ensures { OnOk result (out.new.items ≡ out.old.items ++ cut_lines layer cuts.now) }
{
    let Some((cut, cuts)) = cuts.split_first() else {
        return Ok(());
    };
    push_cut(out, "layer_cut_entries{layer=\"", layer, *cut)?;
    push_cuts(out, layer + 1, cuts)
}

/// Appends the lines of a setup.
#[tactic(auto, unfolding(crate::specs::Telling::setup_text))]
fn push_setup(out: &mut Vec<u8>, setup: &Setup) -> Result<(), AllocError>
    ensures { OnOk result (out.new.items ≡ out.old.items ++ setup_text setup.now) }
{
    push_number(out, "rows", setup.rows())?;
    push_number(out, "cols", setup.cols())?;
    push_number(out, "cuts", setup.cuts().len() as u64)?;
    push_cuts(out, 1, setup.cuts())?;
    push_number(out, "shards", setup.shards())?;
    push_number(out, "limit", setup.limit())?;
    push_number(out, "max_batches", setup.max_batches())
}

/// Appends the lines of a status.
#[tactic(auto, unfolding(crate::specs::Telling::status_text))]
fn push_status(out: &mut Vec<u8>, status: Status, folded: u64) -> Result<(), AllocError>
    ensures { OnOk result (out.new.items ≡ out.old.items ++ status_text status folded) }
{
    push_number(out, "batches", status.batches)?;
    push_number(out, "folded", folded)?;
    push_number(out, "total", status.total)
}

/// The text of what was told.
#[tactic(auto, unfolding(crate::specs::Telling::stats_text))]
fn text_of(alloc: Global, told: &Told) -> Result<Vec<u8>, AllocError>
    ensures { IfOk result (λ text. text.items ≡ stats_text told.now) }
{
    let mut text = Vec::new(alloc);
    push_setup(&mut text, &told.setup)?;
    push_status(&mut text, told.status, told.folded)?;
    push_figures(&mut text, &told.figures)?;
    Ok(text)
}

/// The reply that has a text as its body, or its refusal as too large.
fn lines_reply(alloc: Global, text: &[u8]) -> Result<Answer, AllocError>
    ensures bytes { IfOk result (λ reply. bytes_of reply ≡ reply_of_lines text.now) }
    ensures few { IfOk result (λ reply. length (bytes_of reply) ≤ 2 ^ 27) }
{
    if text.len() > MAX_BODY as usize {
        return Ok(refuses(40));
    }
    let mut out = start(alloc, 0x8a, text.len() as u32)?;
    out.extend_from_slice(text)?;
    Ok(Answer::Long(out))
}

/// The reply that tells what was told. It takes memory for its text, twice.
fn reply_of_told(alloc: Global, told: &Told) -> Result<Answer, AllocError>
    ensures bytes { IfOk result (λ reply. bytes_of reply ≡ reply_of_lines (stats_text told.now)) }
    ensures few { IfOk result (λ reply. length (bytes_of reply) ≤ 2 ^ 27) }
{
    let text = text_of(alloc, told)?;
    lines_reply(alloc, &text)
}

/// Asks what a Stats asks.
pub fn ask_stats<K: Keeper>(alloc: Global, keeper: &mut K) -> Result<Answer, AllocError>
    requires { K.fact keeper.old }
    ensures reply { IfOk result (λ reply. Answers K.gives (K.setup_of keeper.old) Request.Stats
        (bytes_of reply) keeper.old keeper.new) }
    ensures few { IfOk result (λ reply. length (bytes_of reply) ≤ 2 ^ 27) }
    ensures none { OnErr result (RunsOut K.gives (K.setup_of keeper.old) Request.Stats keeper.old keeper.new) }
    ensures fact { K.fact keeper.new }
    ensures setup { K.setup_of keeper.new ≡ K.setup_of keeper.old }
{
    let told = keeper.stats(alloc)?;
    reply_of_told(alloc, &told)
}

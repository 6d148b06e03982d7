//! What a whole page can't become.
ghost use Rattle.std.specs.Prelude.{◌≡◌, ◌≢◌, ℕ, List, length, take, drop};
ghost use Rattle.crc32c.specs.Changes.{HasOddChanges, IsBurst};
ghost use Rattle.log_page.specs.Pages.{IsBytes, kind_of};
ghost use Rattle.log_page.specs.declared.page.PageKind.TheVariants.{Whole};
ghost use Rattle.page_damage.specs.Damage.{HasTwoChanges};

use crc32c::{bursts_are_found, odd_changes_are_found, pairs_are_found};

/// A page of which an odd number of bits are changed is no longer whole, wherever they stand: one, or any three.
pub fn odd_changes_of_pages_are_found()
    ensures { (page changed : List ℕ) → IsBytes page → IsBytes changed → length page ≡ 4096 → kind_of page ≡ Whole →
        HasOddChanges page changed → kind_of changed ≢ Whole }
{
    odd_changes_are_found();
}

/// A page of which two bits are changed is no longer whole, wherever they stand.
pub fn pairs_of_changes_in_pages_are_found()
    ensures { (page changed : List ℕ) → IsBytes page → IsBytes changed → length page ≡ 4096 → kind_of page ≡ Whole →
        HasTwoChanges page changed → kind_of changed ≢ Whole }
{
    pairs_are_found();
}

/// A page of which 1 to 32 successive bits are changed, all of them behind its checksum, is no longer whole; nor is one
/// whose checksum alone is changed.
pub fn bursts_in_pages_are_found()
    ensures behind { (page changed : List ℕ) → IsBytes page → IsBytes changed → length page ≡ 4096 →
        length changed ≡ 4096 → kind_of page ≡ Whole → take 4 page ≡ take 4 changed →
        IsBurst 32 (drop 4 page) (drop 4 changed) → kind_of changed ≢ Whole }
    ensures within { (page changed : List ℕ) → length page ≡ 4096 → length changed ≡ 4096 → kind_of page ≡ Whole →
        drop 4 page ≡ drop 4 changed → page ≢ changed → kind_of changed ≢ Whole }
{
    bursts_are_found();
}

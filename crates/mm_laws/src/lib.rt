//! Laws of the definitions of texts: what holds of every text, whatever reads or writes it.
//!
//! `mm_text` says by `specs/` what a text spells and which of its faults is the first. Here stand the laws that a
//! reader of those definitions would want to see: that every text spells exactly one file or has exactly one first
//! fault, that lines, words and numbers have the form that the format gives them, and that a canonical text spells its
//! list. For each row of the table of faults a law says which word is judged, and what is wrong with it. Each law is a
//! function without parameters and with an empty body, whose `ensures` is the statement.
#![tactic(auto)]

mod fault_laws;
mod grammar_laws;
mod text_laws;

pub use fault_laws::{
    banner_field_faults, banner_format_faults, banner_has_five_words, banner_mark_faults,
    banner_object_faults, banner_symmetry_faults, entry_column_faults, entry_count_faults,
    entry_row_faults, numbers_faults, size_columns_faults, size_entries_faults, size_rows_faults,
};
pub use grammar_laws::{
    line_ends_and_skipped_lines_say_nothing, lines_make_the_text,
    spelled_texts_are_coordinate_texts, taken_lines_have_their_form, words_stand_between_blanks,
    words_write_numbers,
};
pub use text_laws::{
    canonical_texts_spell_their_cells, every_text_spells_or_has_a_fault, faults_are_of_the_text,
    faults_stand_on_counted_lines, first_faults_stay, spelled_cells_are_within,
    wider_limits_spell_the_same,
};

//! Tests of the order of cells, of their sort and of their sums: worked lists, and a sort that is refused its memory.

mod adding_up;
mod order;
mod sorting;

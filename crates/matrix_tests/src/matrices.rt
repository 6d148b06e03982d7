//! Tests of the matrix's public calls: worked rows as tables, and growths that are refused.
//!
//! The answers of the tables were worked out by hand from GraphBLAS C API 2.0 (`GrB_Matrix_build` and `GrB_eWiseAdd`
//! with plus, `GrB_reduce`).

mod look_ups;
mod parts;
mod refused_growth;
mod worked_rows;

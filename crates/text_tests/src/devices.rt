//! Tests of `byte_io`: each device and each buffer, over bytes that a table gives.

mod buffers;
mod counted;
mod endless;
mod scripts;
mod wrappers;
mod writes;

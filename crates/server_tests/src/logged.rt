//! Sessions over an engine of several threads whose puts are durable in a log once they are answered, by one seat and by
//! pools of workers.
mod cases;
mod frames;
mod log;
mod pools;
mod sessions;

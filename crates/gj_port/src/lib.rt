//! Where bytes come from and go to: a source and a sink as traits, over memory and over standard
//! input and output.
//!
//! `read_all` takes all bytes up to a limit, `write_all` hands all bytes over. What a source still
//! has and what a sink has taken are seen by contracts if they are told; an error comes only if the
//! object's count of faults rose, and never if the source is steady or the sink was sure of so many
//! bytes. `MemSource` and `MemSink` tell everything and fail exactly at the calls that they are
//! told; `StdSource` and `StdSink` are the trusted edge.
#![tactic(auto)]

mod fault;
mod memory_sink;
mod memory_source;
mod sink;
mod source;
mod stream;
mod whole;

pub use fault::{Failed, ReadError};
pub use memory_sink::MemSink;
pub use memory_source::MemSource;
pub use sink::Sink;
pub use source::Source;
pub use stream::{StdSink, StdSource};
pub use whole::{read_all, write_all};

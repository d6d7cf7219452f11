//! Everything that the verifier reads and writes goes through a source and a sink, two traits whose calls have a
//! written meaning: bytes come and go in order, and a fault is answered only where the count of faults rose.
//!
//! A `main` that is given `rt: HostRuntime` makes them from the standard streams, with `use std::io;`:
//!
//! ```text
//! let mut source = StdSource::new(rt.stdin());
//! let mut sink = StdSink::new(io::writer(&rt));
//! ```
//!
//! What a standard stream gives or takes is known to no contract. Of `StdSource` and `StdSink` it is proved that they
//! hand on the bytes of any reader or writer that tells them, and that they count each byte and each failure. That
//! they do so at the standard streams is tested.
//!
//! Reading and writing are generic in the source and the sink, so only calls of these move their counts.
#![tactic(auto)]

mod memory;
mod reading;
mod sink;
mod source;
mod std_streams;
mod writing;

pub use memory::{MemorySink, MemorySource};
pub use reading::{ReadEnd, read_all};
pub use sink::{Put, Sink};
pub use source::{Source, Taken};
pub use std_streams::{StdSink, StdSource};
pub use writing::{WriteFault, write_all};

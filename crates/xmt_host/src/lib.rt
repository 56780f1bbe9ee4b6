//! The host: all that the toolchain reaches outside itself, over real files and streams or in memory.
//!
//! Each call (`read_at`, `put`, `print`, `complain`) says what it does to files, streams and counts, where the host
//! tells them, and fails only where the count of faults rose. Both hosts meet this; each call of the one in memory
//! that is listed to fail fails. `take_file` answers the whole file, or says why not: a fault only where the count
//! rose, too long only where more than the limit was taken, and, where files are told, exactly where the file is
//! longer.
#![tactic(auto)]

mod host;
mod memory_host;
mod real_host;
mod whole_file;

pub use host::{Host, HostFault};
pub use memory_host::{HostCall, MemoryHost};
pub use real_host::RealHost;
pub use whole_file::{TakeFault, take_file};

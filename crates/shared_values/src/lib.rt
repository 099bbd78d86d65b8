//! Values that jobs share without a copy, which contracts see as the plain values.
#![tactic(auto)]

mod bytes;
mod shared;

pub use bytes::SharedBytes;
pub use shared::Shared;

//! Keys of which two are equal, and the least numbers of which facts hold.
//!
//! ```text
//! keys:  a  b  c  b  a        the least index whose key stands at another index too: 0
//! ```
#![tactic(auto)]

mod firsts;
mod key;
mod least;

pub use firsts::first_indices;
pub use key::least_shared_key;
pub use least::lesser;

//! The leaves of a TOML document: their kinds, where they end, what they mean, and how they are written.
#![tactic(auto)]

mod basic;
mod blocks;
mod bytes;
mod comment;
mod dates;
mod decode;
mod encode;
mod escape;
mod fault;
mod gap;
mod key;
mod laws;
mod literal;
mod numbers;
mod scalar;
mod strings;
mod text;
mod word;

pub use decode::decode_string;
pub use encode::{encode_int, encode_key, encode_string, encoded_key_len, push_key};
pub use fault::{LeafFault, What};
pub use gap::{scan_gap, ws_end};
pub use keep_types::{Leaf, Profile};
pub use key::scan_key;
pub use laws::{means_one_text, scalars_share_no_text, wide_has_strict};
pub use numbers::integer_of;
pub use scalar::scan_scalar;
pub use text::text_of;

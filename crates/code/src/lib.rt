// The 8b10b character code: ten-bit characters for the data bytes and two special codes, and back.
#![tactic(auto)]

mod character;
pub mod refusal;
mod tables;

pub use character::decoding::{DecodeRefusal, Decoded, decode, has_unlike_columns};
pub use character::encoding::{EncodeRefusal, encode};
pub use character::examples::examples_hold;
pub use character::numbers::{Kind, UnknownKind};
pub use character::{Code, Encoded, K28_3, K28_5};

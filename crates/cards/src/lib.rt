// Cards: their format and faults, the plain writer and the reader by definition, and what holds of them.
#![tactic(auto)]

mod fault;
mod format;
mod kind;
mod questions;

pub use fault::{At, CardFault, CardNo, RecordFault, RecordNo, SealedFault};
pub use format::{
    HEAD_BYTES, HEADER_BYTES, MARK, make_head, make_header, record_data, record_nonce,
};
pub use kind::Kind;
pub use questions::{MOST_BODY, MOST_SHEETS, ask_sheet};

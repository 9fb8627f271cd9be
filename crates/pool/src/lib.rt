// The pool: 96 cells of 254 bytes for eight holders with a share and a ceiling each, in one region of lent bytes. A holder's
// response is its pieces in order, one to a cell. Layers above cite specs/Shows, and never the layout. What is read of a
// region is in the crate `region`, and a response is read by the crate `response`. A region that is written is lent as its
// bytes, beside the holder's number: no type carries a fact beside a `&mut`.
#![tactic(auto)]

mod freeing;
mod fresh;
mod storing;

pub use freeing::release;
pub use fresh::lay_out;
pub use storing::append;

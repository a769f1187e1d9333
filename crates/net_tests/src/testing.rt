//! What tests share: memory that is refused at one known request, and readers and writers over memory that move few
//! bytes a call and fail at one known call.

mod refusals;
mod refusing;
mod requests;
mod sink;
mod source;

pub use refusals::refuse_each;
pub use refusing::Refusing;
pub use sink::Sink;
pub use source::{NEVER, Source};

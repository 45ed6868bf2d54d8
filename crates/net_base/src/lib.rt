//! What every stage of a model shares: errors with their codes, spans and details, and wrappers that
//! contracts see as their contents.
#![tactic(auto)]

mod boxed;
mod diagnostic;
mod error_code;
mod excerpt;
mod items;

pub use boxed::Boxed;
pub use diagnostic::{Detail, Diagnostic, Fault, Language, Span};
pub use error_code::ErrorCode;
pub use excerpt::{Excerpt, OwnedText};
pub use items::Items;

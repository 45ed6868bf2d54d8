//! The meaning of a model with its data, as relations without errors.
#![tactic(auto)]

mod meaning_laws;

pub use meaning_laws::{
    evaluation_is_sound, texts_come_from_tokens, values_are_unique, worlds_are_unique,
};

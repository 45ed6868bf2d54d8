//! Errors of names.

ghost use Rattle.net_names.specs.Reported.{IsReportedOf};

use net_base::{Detail, ErrorCode, Fault, Language};
use net_lex::Token;
use std::alloc::{AllocError, AllocFailed, Global};

/// Why the names of a model are rejected.
#[derive(Drop)]
pub(crate) enum NameFault<'s> {
    OutOfMemory,
    /// The error and the name: `Undeclared`, `Redeclared`, or `LeftOut` for an `obj` phrase that
    /// names an objective with an expression.
    At(ErrorCode, Token<'s>),
}

impl<'s> NameFault<'s> {
    /// Returns the error as it is reported: at the name and with it.
    pub(crate) fn reported(&self, alloc: Global) -> Fault
        ensures { IsReportedOf self.now result }
    {
        match self {
            NameFault::OutOfMemory => Fault::OutOfMemory,
            NameFault::At(error_code, name) => match Detail::of_name(alloc, &name.text) {
                Ok(detail) => Fault::of_text(Language::Model, *error_code, name.span, detail),
                Err(_) => Fault::OutOfMemory,
            },
        }
    }
}

impl<'s> From<AllocError> for NameFault<'s> {
    ghost use Rattle.std.specs.Prelude.{◌≡◌};
    ghost use Rattle.net_names.specs.declared.name_fault.NameFault.TheVariants.{OutOfMemory};

    ghost from_gives = { λ _ e. e ≡ OutOfMemory };

    fn from(_rejected: AllocError) -> NameFault<'s> {
        NameFault::OutOfMemory
    }
}

impl<'s, T: Drop> From<AllocFailed<T>> for NameFault<'s> {
    ghost use Rattle.std.specs.Prelude.{◌≡◌};
    ghost use Rattle.net_names.specs.declared.name_fault.NameFault.TheVariants.{OutOfMemory};

    ghost from_gives = { λ _ e. e ≡ OutOfMemory };

    fn from(_rejected: AllocFailed<T>) -> NameFault<'s> {
        NameFault::OutOfMemory
    }
}

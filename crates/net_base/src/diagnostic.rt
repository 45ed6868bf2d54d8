//! An error with its file, its span and its detail.

ghost use Rattle.std.specs.Prelude.{◌≡◌, IfOk};
ghost use Rattle.net_base.specs.declared.diagnostic.Detail.TheVariants.{Reported};
ghost use Rattle.net_base.specs.ErrorLines.{language_word};
ghost use Rattle.net_base.specs.Outcomes.{bare, diagnostic_at};
ghost use Rattle.net_base.specs.declared.diagnostic.Fault.TheVariants.{At};
ghost use Rattle.net_base.specs.declared.diagnostic.Language.TheVariants.{Model as InModel, Data as InData};

use crate::error_code::ErrorCode;
use crate::excerpt::{Excerpt, OwnedText};
use std::alloc::{AllocError, AllocFailed, Global};
use std::fmt;
use thiserror::Error;

/// The kind of an error, its file, its span, and its detail.
#[derive(Debug, Drop)]
pub struct Diagnostic {
    pub error_code: ErrorCode,
    /// The file that contains the error.
    pub text: Language,
    /// The bytes of the error, counted from 0.
    pub at: Span,
    pub detail: Detail,
}

impl fmt::Display for Diagnostic {
    ghost use Rattle.std.specs.Prelude.{Some};
    ghost use Rattle.net_base.specs.ErrorLines.{diagnostic_shown};

    ghost output = { λ diagnostic. Some (diagnostic_shown diagnostic) };

    /// Writes the error with its bytes in the text: `E12 Undeclared in the model, bytes 30..31: B`.
    fn fmt<W: fmt::Write>(&self, f: &mut fmt::Formatter<W>) -> fmt::Result {
        let error_code = self.error_code;
        let text = self.text.word();
        let start = self.at.start;
        let end = self.at.end;
        let detail = &self.detail;
        write!(
            f,
            "{error_code} in the {text}, bytes {start}..{end}{detail}"
        )
    }
}

/// The detail of an error. Like the error, it borrows nothing.
#[derive(Debug, Drop)]
pub enum Detail {
    Nothing,
    /// A name, with its key if it is indexed, as it is printed: `Ship['PITT','NE']`.
    Reported(OwnedText),
}

impl Detail {
    /// Builds a detail from a name. Fails only if memory runs out.
    pub fn of_name(alloc: Global, name: &Excerpt<'_>) -> Result<Detail, AllocError>
        ensures { IfOk result (λ d. d ≡ Reported name.now) }
    {
        let text = String::from_str(alloc, name.as_str())?;
        Ok(Detail::Reported(OwnedText::new(text)))
    }
}

impl fmt::Display for Detail {
    ghost use Rattle.std.specs.Prelude.{Some};
    ghost use Rattle.net_base.specs.ErrorLines.{detail_shown};

    ghost output = { λ detail. Some (detail_shown detail) };

    /// Writes a colon and the detail, or nothing if there is none.
    fn fmt<W: fmt::Write>(&self, f: &mut fmt::Formatter<W>) -> fmt::Result {
        match self {
            Detail::Nothing => Ok(()),
            Detail::Reported(text) => {
                let text = text.as_str();
                write!(f, ": {text}")
            }
        }
    }
}

/// The two languages: of models and of data files.
#[derive(Clone, Copy, Debug)]
pub enum Language {
    Model,
    Data,
}

impl Language {
    /// Returns the word by which an error's line names the text: `model` or `data`.
    pub fn word(self) -> &'static str
        ensures { result.now ≡ language_word self }
    {
        match self {
            Language::Model => "model",
            Language::Data => "data",
        }
    }
}

/// A range of bytes in a text: from byte `start` up to, but not including, byte `end`.
#[derive(Clone, Copy, Debug, PartialEq, Eq)]
pub struct Span {
    pub start: usize,
    pub end: usize,
}

/// Why there is no result: an error in a text, or out of memory.
#[derive(Debug, Drop, Error)]
pub enum Fault {
    OutOfMemory,
    At(Diagnostic),
}

impl Fault {
    /// Builds an error in a file, with its detail.
    pub fn of_text(text: Language, error_code: ErrorCode, at: Span, detail: Detail) -> Fault
        ensures { result ≡ At (diagnostic_at text error_code at detail) }
    {
        Fault::At(Diagnostic {
            error_code,
            text,
            at,
            detail,
        })
    }

    /// Builds an error in the model, without a detail.
    pub fn of_model(error_code: ErrorCode, at: Span) -> Fault
        ensures { result ≡ At (bare InModel error_code at) }
    {
        Fault::of_text(Language::Model, error_code, at, Detail::Nothing)
    }

    /// Builds an error in the data, without a detail.
    pub fn of_data(error_code: ErrorCode, at: Span) -> Fault
        ensures { result ≡ At (bare InData error_code at) }
    {
        Fault::of_text(Language::Data, error_code, at, Detail::Nothing)
    }
}

impl fmt::Display for Fault {
    ghost use Rattle.std.specs.Prelude.{Some};
    ghost use Rattle.net_base.specs.ErrorLines.{fault_shown};

    ghost output = { λ fault. Some (fault_shown fault) };

    /// Writes `out of memory`, or the error with its bytes in the text.
    fn fmt<W: fmt::Write>(&self, f: &mut fmt::Formatter<W>) -> fmt::Result {
        match self {
            Fault::OutOfMemory => f.write_str("out of memory"),
            Fault::At(diagnostic) => write!(f, "{diagnostic}"),
        }
    }
}

impl From<AllocError> for Fault {
    ghost use Rattle.std.specs.Prelude.{◌≡◌};
    ghost use Rattle.net_base.specs.declared.diagnostic.Fault.TheVariants.{OutOfMemory};

    ghost from_gives = { λ _ e. e ≡ OutOfMemory };

    fn from(_rejected: AllocError) -> Fault {
        Fault::OutOfMemory
    }
}

impl<T: Drop> From<AllocFailed<T>> for Fault {
    ghost use Rattle.std.specs.Prelude.{◌≡◌};
    ghost use Rattle.net_base.specs.declared.diagnostic.Fault.TheVariants.{OutOfMemory};

    ghost from_gives = { λ _ e. e ≡ OutOfMemory };

    fn from(_rejected: AllocFailed<T>) -> Fault {
        Fault::OutOfMemory
    }
}

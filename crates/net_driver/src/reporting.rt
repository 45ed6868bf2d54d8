//! Reporting errors in a model or its data.

ghost use Rattle.std.specs.Prelude.{◌≡◌, Option, Ok, IfOk, IfErr, IsErr, length, string_bytes};
ghost use Rattle.net_base.specs.declared.diagnostic.Detail.TheVariants.{Nothing};
ghost use Rattle.net_expr.specs.References.{detail_text};
ghost use Rattle.net_expr.specs.Worlds.{Name};
ghost use Rattle.net_driver.specs.FirstFaults.{IsStop};
ghost use Rattle.net_base.specs.Places.{IsSpanIn};
ghost use Rattle.net_report.specs.Links.{in_line};
ghost use Rattle.net_driver.specs.Reporting.{IsReported, IsRejection, IsSpanThere, name_of, text_of};

use crate::driver_fault::{Fault, Rejection, TextName};
use net_base::{Detail, Diagnostic, Fault as TextFault, Language};
use net_inst::Named;
use net_lex::line_column;
use net_report::push_in_line;
use std::alloc::{AllocError, Global};

fn name_of(text: Language) -> TextName
    ensures { result ≡ name_of text }
{
    match text {
        Language::Model => TextName::Model,
        Language::Data => TextName::Data,
    }
}

fn text_of<'a>(model: &'a [u8], data: &'a [u8], text: Language) -> &'a [u8]
    ensures { result.now ≡ text_of model.entry.now «data».entry.now text }
{
    match text {
        Language::Model => model,
        Language::Data => data,
    }
}

/// Returns a detail as text within one line. Allocates memory only if there is a detail.
fn line_of(alloc: Global, detail: &Detail) -> Result<String, AllocError>
    ensures ok { IfOk result (λ line. string_bytes line ≡ in_line (detail_text detail.now)) }
    ensures err { IsErr result → detail.now ≡ Nothing → ⊥ }
{
    let mut line = String::new(alloc);
    match detail {
        Detail::Nothing => Ok(line),
        Detail::Reported(text) => {
            push_in_line(&mut line, text.as_str())?;
            Ok(line)
        }
    }
}

/// Returns an error in its file with line and column. Fails only if memory runs out.
fn rejection_of(
    alloc: Global,
    text: &[u8],
    diagnostic: &Diagnostic,
) -> Result<Rejection, AllocError>
    requires { IsSpanIn (length text.now) diagnostic.now.at }
    ensures ok { IfOk result (IsReported text.now diagnostic.now) }
    ensures err { IsErr result → diagnostic.now.detail ≡ Nothing → ⊥ }
{
    let span = diagnostic.at;
    let (line, column) = line_column(text, span.start);
    let detail = line_of(alloc, &diagnostic.detail)?;
    Ok(Rejection {
        kind: diagnostic.error_code,
        text: name_of(diagnostic.text),
        span,
        line,
        column,
        detail,
    })
}

/// Returns a network that was read from two files, or the error as it is reported to the user.
pub(crate) fn reported<'s>(
    alloc: Global,
    model: &[u8],
    data: &[u8],
    read: Result<Named<'s>, TextFault>,
) -> Result<Named<'s>, Fault>
    requires { IfErr read (IsSpanThere model.now «data».now) }
    ensures ok { IfOk result (λ named. read.entry ≡ Ok named) }
    ensures rejected { (wanted : Option Name) → IfErr read.entry (IsStop wanted model.now «data».now) → IfErr result (IsRejection wanted model.now «data».now) }
{
    let diagnostic = match read {
        Ok(named) => return Ok(named),
        Err(TextFault::OutOfMemory) => return Err(Fault::OutOfMemory),
        Err(TextFault::At(diagnostic)) => diagnostic,
    };
    match rejection_of(alloc, text_of(model, data, diagnostic.text), &diagnostic) {
        Ok(rejection) => Err(Fault::Rejected(rejection)),
        Err(_) => Err(Fault::OutOfMemory),
    }
}

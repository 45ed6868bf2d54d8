//! The cells of a row or table of data: its tokens, of which contracts see those that are not commas.

ghost use Rattle.std.specs.Prelude.{◌≡◌, ◌+◌, ◌<◌, ◌^◌, ◌++◌, length, IfOk, OnOk, ◌≤◌};
ghost use Rattle.net_data.specs.Reading.{last_span, run, run_len};
ghost use Rattle.net_data.specs.Commas.{uncommaed};
ghost use Rattle.net_data.specs.Tests.{is_of};

use crate::expected_token::{Expected, is_comma, is_of};
use net_base::{Items, Span};
use net_lex::{Word, Words};
use std::alloc::{AllocError, Global};
use std::marker::Model;

/// Consecutive tokens with commas anywhere among them; contracts see the tokens without the commas.
#[derive(Drop)]
pub struct Cells<'t, 's> {
    tokens: Words<'t, 's>,
}

impl<'t, 's> Model for Cells<'t, 's> {
    ghost use Rattle.std.specs.Prelude.{List};
    ghost use Rattle.net_lex.specs.declared.token.Token.{Token};
    ghost use Rattle.net_data.specs.Commas.{uncommaed};

    ghost Value = { List Token };

    ghost view = { λ cells. uncommaed cells.tokens };
}

impl<'t, 's> Cells<'t, 's> {
    pub(crate) fn new(tokens: Words<'t, 's>) -> Cells<'t, 's>
        ensures { result ≡ uncommaed tokens.entry }
    {
        Cells { tokens }
    }

    /// Returns the number of cells.
    pub fn len(&self) -> usize
        ensures value { result ≡ length self.now }
        ensures room { result + 1 < 2 ^ 64 }
    {
        cell_count(&self.tokens)
    }

    /// Returns the span of the last cell.
    pub(crate) fn last_span(&self) -> Option<Span>
        ensures { result ≡ last_span self.now }
    {
        last_span(&self.tokens)
    }

    /// Appends the cells to a list. Fails only if memory runs out.
    pub fn push_to(&self, words: &mut Vec<Word<'t, 's>>) -> Result<(), AllocError>
        ensures { OnOk result (words.new.items ≡ words.old.items ++ self.now) }
    {
        push_cells(&self.tokens, words)
    }

    /// Returns the list of the cells. Fails only if memory runs out.
    pub(crate) fn words(&self, alloc: Global) -> Result<Items<Word<'t, 's>>, AllocError>
        ensures { IfOk result (λ all. all ≡ self.now) }
    {
        let mut words = Vec::with_capacity(alloc, self.len())?;
        self.push_to(&mut words)?;
        Ok(Items::new(words))
    }
}

fn push_cells<'t, 's>(
    tokens: &Words<'t, 's>,
    words: &mut Vec<Word<'t, 's>>,
) -> Result<(), AllocError>
    ensures { OnOk result (words.new.items ≡ words.old.items ++ uncommaed tokens.now) }
{
    'tokens: for token in tokens.copied() {
        if !is_comma(&token) {
            words.push(token)?;
        }
    }
    Ok(())
}

fn cell_count(tokens: &Words<'_, '_>) -> usize
    ensures value { result ≡ length (uncommaed tokens.now) }
    ensures room { result + 1 < 2 ^ 64 }
{
    tokens.copied().filter(|token| !is_comma(token)).count()
}

fn last_span(tokens: &Words<'_, '_>) -> Option<Span>
    ensures { result ≡ last_span (uncommaed tokens.now) }
{
    let mut found = None;
    'tokens: for token in tokens.copied() {
        if !is_comma(&token) {
            found = Some(token.span());
        }
    }
    found
}

fn run_len(sort: Expected, tokens: &Words<'_, '_>) -> usize
    ensures value { result ≡ run_len (is_of sort) tokens.now }
    ensures within { result ≤ length tokens.now }
{
    let mut len = 0;
    'tokens: for token in tokens.copied() {
        if !is_of(sort, &token) && !is_comma(&token) {
            return len;
        }
        len += 1;
    }
    len
}

/// Splits off the leading tokens of a sort.
#[tactic(auto, unfolding(crate::specs::Reading::run))]
pub(crate) fn run<'t, 's>(sort: Expected, tokens: &Words<'t, 's>) -> (Cells<'t, 's>, Words<'t, 's>)
    ensures value { result ≡ run (is_of sort) tokens.now }
    ensures within { length result.1 ≤ length tokens.now }
{
    let (found, rest) = tokens.split_at(run_len(sort, tokens));
    (Cells::new(found), rest)
}

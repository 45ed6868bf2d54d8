//! The calls that read a model: tokens and trees. Also the tokens of data.

use crate::comparison::expect;
use net_base::{Fault, Span};
use net_lex::{Token, Words, lex_data, lex_model};
use net_model::{free_model, parse_model};
use net_sets::HashKey;
use net_tree::{Body, Braces, Decl, Model, Phrase, braces_span, condition_span, span_of};
use std::alloc::{AllocError, Global};
use std::test::Fail;

/// The line of an error.
pub fn line_of(alloc: Global, fault: &Fault) -> Result<String, AllocError> {
    format!(in alloc; "{fault}")
}

fn token_shown(alloc: Global, token: &Token<'_>) -> Result<String, AllocError> {
    let kind = token.kind;
    let text = token.text.as_str();
    let Span { start, end } = token.span;
    format!(in alloc; "{kind:?} {text} {start}..{end};")
}

fn tokens_shown(alloc: Global, tokens: &[Token<'_>]) -> Result<String, AllocError> {
    let mut out = String::new(alloc);
    for token in tokens {
        out.push_str(token_shown(alloc, token)?.as_str())?;
    }
    Ok(out)
}

fn words_shown(alloc: Global, words: Words<'_, '_>) -> Result<String, AllocError> {
    let mut out = String::new(alloc);
    for word in words {
        out.push_str(token_shown(alloc, &word.token())?.as_str())?;
    }
    Ok(out)
}

fn data_tokens_of(alloc: Global, text: &[u8]) -> Result<String, AllocError> {
    match lex_data(alloc, text) {
        Ok(tokens) => words_shown(alloc, tokens.words()),
        Err(fault) => line_of(alloc, &fault),
    }
}

fn model_tokens_of(alloc: Global, text: &[u8]) -> Result<String, AllocError> {
    match lex_model(alloc, text) {
        Ok(tokens) => tokens_shown(alloc, tokens.as_slice()),
        Err(fault) => line_of(alloc, &fault),
    }
}

/// The tokens of a model, or of its data.
fn tokens_of(alloc: Global, is_data: bool, text: &[u8]) -> Result<String, AllocError> {
    if is_data {
        data_tokens_of(alloc, text)
    } else {
        model_tokens_of(alloc, text)
    }
}

/// Whether a text is data, the text, and its tokens or its error.
const TOKENS: &[(bool, &str, &str)] = &[
    (false, "1..5", "Num 1 0..1;Mark .. 1..3;Num 5 3..4;"),
    (
        false,
        "set S:={'a b'}; # end",
        "Key set 0..3;Name S 4..5;Mark := 5..7;Mark { 7..8;Str 'a b' 8..13;Mark } 13..14;Mark ; 14..15;",
    ),
    (
        false,
        "minimize A$;",
        "E01 BadCharacter in the model, bytes 10..11",
    ),
    (
        true,
        "set S := a-b -2 . ;",
        "Name set 0..3;Name S 4..5;Mark := 6..8;Name a-b 9..12;Num -2 13..15;Dot . 16..17;Mark ; 18..19;",
    ),
    (
        true,
        "param p := 2.5;",
        "E04 NotWhole in the data, bytes 11..14",
    ),
];

#[test]
fn texts_have_tokens(rt: HostRuntime) -> Result<(), Fail> {
    for (is_data, text, wanted) in TOKENS {
        expect(
            text,
            tokens_of(rt.alloc(), *is_data, text.as_bytes()),
            wanted,
        )?;
    }
    Ok(())
}

fn phrase_shown(alloc: Global, phrase: &Phrase<'_>) -> Result<String, AllocError> {
    let word = phrase.word.token().text.as_str();
    match &phrase.body {
        Body::Plain => format!(in alloc; " {word}"),
        Body::Valued(value) => {
            let Span { start, end } = span_of(value);
            format!(in alloc; " {word} {start}..{end}")
        }
        Body::Priced(name, value) => {
            let name = name.text.as_str();
            let Span { start, end } = span_of(value);
            format!(in alloc; " {word} {name} {start}..{end}")
        }
    }
}

fn phrases_shown(alloc: Global, phrases: &[Phrase<'_>]) -> Result<String, AllocError> {
    let mut out = String::new(alloc);
    for phrase in phrases {
        out.push_str(phrase_shown(alloc, phrase)?.as_str())?;
    }
    Ok(out)
}

/// The word of a declaration, and its name; of a check, the colon.
fn words_of<'d, 's>(declaration: &'d Decl<'s>) -> (&'d Token<'s>, &'d Token<'s>) {
    match declaration {
        Decl::Set(word, name, _, _) => (word, name),
        Decl::Param(word, name, _, _, _) => (word, name),
        Decl::Check(word, _, colon, _, _) => (word, colon),
        Decl::Node(word, name, _, _, _) => (word, name),
        Decl::Arc(word, name, _, _, _) => (word, name),
        Decl::Objective(word, name, _, _) => (word, name),
    }
}

fn phrases_of<'d, 's>(declaration: &'d Decl<'s>) -> &'d [Phrase<'s>] {
    match declaration {
        Decl::Set(_, _, phrases, _) => phrases.as_slice(),
        Decl::Param(_, _, _, phrases, _) => phrases.as_slice(),
        Decl::Arc(_, _, _, phrases, _) => phrases.as_slice(),
        _ => &[],
    }
}

fn braces_of<'d, 's>(declaration: &'d Decl<'s>) -> Option<&'d Braces<'s>> {
    match declaration {
        Decl::Param(_, _, braces, _, _) => braces.as_ref(),
        Decl::Check(_, braces, _, _, _) => braces.as_ref(),
        Decl::Node(_, _, braces, _, _) => braces.as_ref(),
        Decl::Arc(_, _, braces, _, _) => braces.as_ref(),
        _ => None,
    }
}

/// The bytes of the condition of a check or a node, or of the expression of an objective.
fn condition_of(declaration: &Decl<'_>) -> Option<Span> {
    match declaration {
        Decl::Check(_, _, _, condition, _) => Some(span_of(condition)),
        Decl::Node(_, _, _, condition, _) => condition_span(condition),
        Decl::Objective(_, _, Some(part), _) => Some(span_of(&part.value)),
        _ => None,
    }
}

/// A word, and the bytes of a part of a declaration, if it has this part.
fn part_shown(alloc: Global, word: &str, part: Option<Span>) -> Result<String, AllocError> {
    match part {
        Some(Span { start, end }) => format!(in alloc; " {word} {start}..{end}"),
        None => Ok(String::new(alloc)),
    }
}

/// The word and the name of a declaration, its phrases, and the bytes of its braces and expressions.
fn declaration_shown(alloc: Global, declaration: &Decl<'_>) -> Result<String, AllocError> {
    let (word, name) = words_of(declaration);
    let (word, name) = (word.text.as_str(), name.text.as_str());
    let span = match braces_of(declaration) {
        Some(braces) => Some(braces_span(braces)),
        None => None,
    };
    let braces = part_shown(alloc, "over", span)?;
    let phrases = phrases_shown(alloc, phrases_of(declaration))?;
    let condition = part_shown(alloc, "is", condition_of(declaration))?;
    format!(in alloc; "{word} {name}{braces}{phrases}{condition};")
}

fn model_shown(alloc: Global, model: &Model<'_>) -> Result<String, AllocError> {
    let mut out = String::new(alloc);
    for declaration in model.declarations.as_slice() {
        out.push_str(declaration_shown(alloc, declaration)?.as_str())?;
    }
    Ok(out)
}

/// The declarations that tokens of a model are.
fn parsed(alloc: Global, tokens: &[Token<'_>]) -> Result<String, AllocError> {
    match parse_model(alloc, HashKey::of_texts(&[], &[]), tokens) {
        Ok(model) => {
            let shown = model_shown(alloc, model.model());
            free_model(model.into_model());
            shown
        }
        Err(fault) => line_of(alloc, &fault),
    }
}

fn declarations_of(alloc: Global, model: &[u8]) -> Result<String, AllocError> {
    match lex_model(alloc, model) {
        Ok(tokens) => parsed(alloc, tokens.as_slice()),
        Err(fault) => line_of(alloc, &fault),
    }
}

/// Models, with their declarations or the error.
const MODELS: &[(&str, &str)] = &[
    (
        "set S := {3,1}; param p {S} >= 0, integer; check {i in S}: p[i] = 1; minimize C; maximize D: 2 * 3; \
node N {S}: 1 <= net_in <= 4; node M; arc F {S} >= 0, <= 1+2, to N[3], obj C 5;",
        "set S := 9..14;param p over 24..27 >= 31..32 integer;check : over 49..57 is 59..67;minimize C;maximize D is 93..98;\
node N over 107..110 is 112..128;node M;arc F over 144..147 >= 151..152 <= 157..160 to 165..169 obj C 177..178;",
    ),
    (
        "minimize C; node A",
        "E10 Syntax in the model, bytes 18..18",
    ),
    (
        "minimize C; node A: net_in = p;",
        "E12 Undeclared in the model, bytes 29..30: p",
    ),
];

#[test]
fn models_have_declarations(rt: HostRuntime) -> Result<(), Fail> {
    for (model, wanted) in MODELS {
        expect(model, declarations_of(rt.alloc(), model.as_bytes()), wanted)?;
    }
    Ok(())
}

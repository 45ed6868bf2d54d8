//! Printed names with their keys, in errors and all other output.

ghost use Rattle.std.specs.Prelude.{◌≡◌, ◌++◌, OnOk, IfOk, string_bytes};
ghost use Rattle.std.specs.Fmt.{signed_decimal};
ghost use Rattle.net_expr.specs.References as texts;
ghost use Rattle.net_expr.specs.Worlds as worlds;
ghost use Rattle.net_base.specs.declared.diagnostic.Detail.TheVariants.{Reported};

use itoa::Buffer;
use net_base::{Detail, Excerpt, OwnedText};
use net_sets::{Member, Text, Tuple};
use std::alloc::{AllocError, Global};

/// Appends a string with each single quote doubled. Fails only if memory runs out.
fn push_doubled(out: &mut String, text: &str) -> Result<(), AllocError>
    ensures { OnOk result (string_bytes out.new ≡ string_bytes out.old ++ texts.doubled text.now) }
{
    let mut left = text;
    while let Some((before, after)) = left.split_once('\'') {
        out.push_str(before)?;
        out.push_str("''")?;
        left = after;
    }
    out.push_str(left)
}

fn push_number(out: &mut String, number: &i64) -> Result<(), AllocError>
    ensures { OnOk result (string_bytes out.new ≡ string_bytes out.old ++ signed_decimal number.now) }
{
    let mut buffer = Buffer::new();
    out.push_str(buffer.format(*number))
}

/// Appends a string in single quotes. Fails only if memory runs out.
fn push_quoted(alloc: Global, out: &mut String, text: &Text<'_>) -> Result<(), AllocError>
    ensures { OnOk result (string_bytes out.new ≡ string_bytes out.old ++ texts.quoted text.now) }
{
    let mut plain = String::new(alloc);
    text.append_to(&mut plain)?;
    out.push_str("'")?;
    push_doubled(out, plain.as_str())?;
    out.push_str("'")
}

/// Appends a member: a number as a plain decimal, a string in single quotes with each single quote
/// doubled. Fails only if memory runs out.
pub fn push_member(alloc: Global, out: &mut String, member: &Member<'_>) -> Result<(), AllocError>
    ensures { OnOk result (string_bytes out.new ≡ string_bytes out.old ++ texts.member_text member.now) }
{
    match member {
        Member::Number(number) => push_number(out, number),
        Member::Name(text) => push_quoted(alloc, out, text),
    }
}

/// Appends members, each after a comma. Fails only if memory runs out.
fn push_further(alloc: Global, out: &mut String, members: &[Member<'_>]) -> Result<(), AllocError>
    ensures { OnOk result (string_bytes out.new ≡ string_bytes out.old ++ texts.further_text members.now) }
{
    for member in members {
        out.push_str(",")?;
        push_member(alloc, out, member)?;
    }
    Ok(())
}

/// Appends members with commas between them. Fails only if memory runs out.
fn push_members(alloc: Global, out: &mut String, members: &[Member<'_>]) -> Result<(), AllocError>
    ensures { OnOk result (string_bytes out.new ≡ string_bytes out.old ++ texts.members_text members.now) }
{
    match members {
        [] => Ok(()),
        [first, others @ ..] => {
            push_member(alloc, out, first)?;
            push_further(alloc, out, others)
        }
    }
}

/// Appends the name of a node or an arc. If it is indexed, its key follows in brackets, as in
/// `Ship['PITT','NE']`, even if the key is empty, as in `N[]`. If memory runs out, some bytes may
/// have been appended.
pub fn push_reference(
    alloc: Global,
    out: &mut String,
    name: &Excerpt<'_>,
    indexed: bool,
    key: &Tuple<'_>,
) -> Result<(), AllocError>
    ensures { OnOk result (string_bytes out.new ≡ string_bytes out.old ++ texts.reference_text name.now indexed key.now) }
{
    out.push_str(name.as_str())?;
    if indexed {
        out.push_str("[")?;
        push_members(alloc, out, key.as_slice())?;
        out.push_str("]")?;
    }
    Ok(())
}

/// Returns a parameter, a node or an arc as errors report it: with its key if it is indexed. Fails
/// only if memory runs out.
pub fn reported_reference(
    alloc: Global,
    name: &Excerpt<'_>,
    count: Option<u8>,
    key: &Tuple<'_>,
) -> Result<Detail, AllocError>
    ensures { IfOk result (λ d. d ≡ worlds.reference name.now count key.now) }
{
    let mut text = String::new(alloc);
    push_reference(alloc, &mut text, name, count.is_some(), key)?;
    Ok(Detail::Reported(OwnedText::new(text)))
}

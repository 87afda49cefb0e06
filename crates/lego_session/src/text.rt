//! The texts of entries and terms.
ghost use Rattle.std.specs.Prelude.{◌≡◌, ◌≤◌, ◌++◌, [], true, decimal, drop, length, is_some, All, OnOk, IfOk};
ghost use Rattle.lego_context.specs.Entries.{HasNoHole};
ghost use Rattle.lego_print.specs.Names.{name_text};
ghost use Rattle.lego_session.specs.Texts.{AreEntryLines, IsTermLine, IsTypingLine};
ghost use Rattle.lego_session.specs.private.Items.{IsItemOf, AreItemsOf};

use crate::entries::Front;
use itoa::Buffer;
use lego_base::Names;
use lego_context::Context;
use lego_inference::Entry;
use lego_print::{Item, Shown};
use lego_term::{List, Seen, Term};
use std::alloc::{AllocError, Global};

/// The text of a name, or nothing where the number is not held.
pub(crate) fn name_text(names: &Names, name: u32) -> &[u8]
    ensures { result.now ≡ name_text names.now name }
{
    if name < names.len() {
        names.text(name)
    } else {
        b""
    }
}

/// Adds the decimal digits of a number.
pub(crate) fn push_number(text: &mut Vec<u8>, number: u64) -> Result<(), AllocError>
    ensures { OnOk result (text.new.items ≡ text.old.items ++ decimal number) }
{
    let mut digits = Buffer::new();
    text.extend_from_slice(digits.format(number).as_bytes())
}

/// The entries from a place on, as they are printed.
pub(crate) fn items_from(
    alloc: Global,
    context: &Context,
    from: usize,
) -> Result<Vec<Item<'_>>, AllocError>
    requires within { from ≤ length context.now.entries }
    requires no_hole { HasNoHole context.now.entries }
    ensures { IfOk result (λ items. AreItemsOf items.items (drop from context.now.entries)) }
{
    let _entries = context.len();
    items_of(alloc, &context.entries()[from..])
}

/// Entries that have names, as they are printed.
fn items_of(alloc: Global, entries: &[Entry]) -> Result<Vec<Item<'_>>, AllocError>
    requires { All (λ e. is_some e.name ≡ true) entries.now }
    ensures { IfOk result (λ items. AreItemsOf items.items entries.now) }
{
    let mut items = Vec::new(alloc);
    for entry in entries {
        items.push(item_of(entry))?;
    }
    Ok(items)
}

/// An entry that has a name, as it is printed.
fn item_of(entry: &Entry) -> Item<'_>
    requires { is_some entry.now.name ≡ true }
    ensures { IsItemOf result entry.now }
{
    let Some(name) = entry.name else {
        unreachable!()
    };
    Item {
        number: entry.number,
        name,
        mark: entry.mark,
        ty: &entry.ty,
        body: entry.body.as_ref(),
    }
}

/// The line of each entry from a place on, at these values of the level variables.
pub(crate) fn entry_lines(
    alloc: Global,
    names: &Names,
    context: &Context,
    values: &[u64],
    from: usize,
) -> Result<Vec<u8>, AllocError>
    requires within { from ≤ length context.now.entries }
    requires no_hole { HasNoHole context.now.entries }
    ensures { IfOk result (λ text. AreEntryLines names.now values.now context.now.entries from text.items) }
{
    let items = items_from(alloc, context, from)?;
    lego_print::entry_lines(
        alloc,
        names,
        &Front::of(context, from),
        &items,
        Shown::Least(values),
    )
}

/// A term under no binder.
fn alone(alloc: Global, m: &Term) -> Result<Seen, AllocError>
    ensures { IfOk result (λ seen. (seen.under ≡ []) × (seen.term ≡ m.now)) }
{
    Ok(Seen {
        under: List::of(Vec::new(alloc)),
        term: m.share()?,
    })
}

/// The line of a term, with all entries in scope, at these values of the level variables.
pub(crate) fn term_line(
    alloc: Global,
    names: &Names,
    context: &Context,
    values: &[u64],
    m: &Term,
) -> Result<Vec<u8>, AllocError>
    requires { HasNoHole context.now.entries }
    ensures { IfOk result (λ text. IsTermLine names.now values.now context.now.entries m.now text.items) }
{
    let seen = alone(alloc, m)?;
    let front = Front::whole(context);
    let mut text = lego_print::term_text(alloc, names, &front, &seen, Shown::Least(values))?;
    text.extend_from_slice(b"\n")?;
    Ok(text)
}

/// The line of a term and its type, `M : T`, with all entries in scope, at these values of the
/// level variables.
pub(crate) fn typing_line(
    alloc: Global,
    names: &Names,
    context: &Context,
    values: &[u64],
    m: &Term,
    ty: &Term,
) -> Result<Vec<u8>, AllocError>
    requires { HasNoHole context.now.entries }
    ensures { IfOk result (λ text. IsTypingLine names.now values.now context.now.entries m.now ty.now text.items) }
{
    let (m, ty) = (alone(alloc, m)?, alone(alloc, ty)?);
    let front = Front::whole(context);
    let levels = Shown::Least(values);
    let mut text = lego_print::typing_text(alloc, names, &front, &m, &ty, levels)?;
    text.extend_from_slice(b"\n")?;
    Ok(text)
}

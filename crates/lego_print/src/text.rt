//! The texts of a term among binders, and of an entry.
ghost use Rattle.std.specs.Prelude.{◌≡◌, [], ◌++◌, IfOk, OnOk};
ghost use Rattle.lego_print.specs.Texts.{term_text, seen_text, typing_text, outer_scope};
ghost use Rattle.lego_print.specs.Entries.{item_entry, entry_text, entry_command, said, declared};
ghost use Rattle.lego_print.specs.private.Counted.{AreCounted};
ghost use Rattle.lego_print.specs.private.Numbered.{scope_of};
ghost use Rattle.std.specs.Option.{option_copied};

use crate::entries::Entries;
use crate::item::Item;
use crate::locals::Locals;
use crate::page::{Page, Printer};
use crate::pieces::name_text;
use crate::shown::Shown;
use crate::term::push_term;
use lego_base::Names;
use lego_term::{Mark, Seen};
use std::alloc::{AllocError, Global};

/// The text of a term under the binders around it, each of which gets a printed name.
pub fn term_text<E: Entries>(
    alloc: Global,
    names: &Names,
    entries: &E,
    seen: &Seen,
    levels: Shown<'_>,
) -> Result<Vec<u8>, AllocError>
    ensures { IfOk result (λ text. text.items ≡ seen_text levels.entry (outer_scope names.now (E.called entries.now) (E.in_scope entries.now)) seen.now) }
{
    let printer = Printer {
        alloc,
        names,
        entries,
        levels,
    };
    let mut page = Page::new(alloc);
    for x in seen.under.items() {
        let frame = printer.frame(&page, x.name)?;
        let _outer = page.enter(frame)?;
    }
    push_term(&printer, &mut page, 0, &seen.term)?;
    let Page {
        text,
        locals: _,
        latest: _,
    } = page;
    Ok(text)
}

/// A term and its type, `M : T`, each under the binders around it.
pub fn typing_text<E: Entries>(
    alloc: Global,
    names: &Names,
    entries: &E,
    term: &Seen,
    ty: &Seen,
    levels: Shown<'_>,
) -> Result<Vec<u8>, AllocError>
    ensures { IfOk result (λ text. text.items ≡ typing_text levels.entry (outer_scope names.now (E.called entries.now) (E.in_scope entries.now)) term.now ty.now) }
{
    let mut text = term_text(alloc, names, entries, term, levels)?;
    let ty = term_text(alloc, names, entries, ty, levels)?;
    text.extend_from_slice(b" : ")?;
    text.extend_from_slice(ty.as_slice())?;
    Ok(text)
}

/// The line of an entry: `x : T`, `x | T` for an implicit assumption, `x = M : T` for a
/// definition. The entries before it are in scope.
pub fn entry_text<E: Entries>(
    alloc: Global,
    names: &Names,
    entries: &E,
    item: Item<'_>,
    levels: Shown<'_>,
) -> Result<Vec<u8>, AllocError>
    ensures { IfOk result (λ text. text.items ≡ entry_text levels.entry (outer_scope names.now (E.called entries.now) (E.in_scope entries.now)) (item_entry item.entry)) }
{
    let mut page = Page::new(alloc);
    push_entry(alloc, names, entries, item, levels, &mut page)?;
    let Page {
        text,
        locals: _,
        latest: _,
    } = page;
    Ok(text)
}

/// Adds the line of an entry without its end, under no local variable.
pub(crate) fn push_entry<E: Entries>(
    alloc: Global,
    names: &Names,
    entries: &E,
    item: Item<'_>,
    levels: Shown<'_>,
    page: &mut Page,
) -> Result<(), AllocError>
    requires { page.old.locals ≡ [] }
    ensures text { OnOk result (page.new.text.items ≡ page.old.text.items ++ entry_text levels.entry (outer_scope names.now (E.called entries.now) (E.in_scope entries.now)) (item_entry item.entry)) }
    ensures locals { OnOk result (page.new.locals ≡ []) }
{
    let printer = Printer {
        alloc,
        names,
        entries,
        levels,
    };
    page.text.extend_from_slice(name_text(names, item.name))?;
    push_said(&printer, page, item)
}

/// Adds what the line of an entry says behind its name.
fn push_said<E: Entries>(
    printer: &Printer<'_, E>,
    page: &mut Page,
    item: Item<'_>,
) -> Result<(), AllocError>
    requires { AreCounted printer.now.names.now (E.called printer.now.entries.now) (E.in_scope printer.now.entries.now) page.old.locals }
    ensures text { OnOk result (page.new.text.items ≡ page.old.text.items ++ said printer.now.levels (scope_of printer.now.names.now (E.called printer.now.entries.now) (E.in_scope printer.now.entries.now) page.old.locals) (option_copied item.entry.body) item.entry.mark item.entry.ty.now) }
    ensures locals { OnOk result (page.new.locals ≡ page.old.locals) }
{
    match (item.body, item.mark) {
        (Some(body), _) => {
            page.text.extend_from_slice(b" = ")?;
            push_term(printer, page, 0, body)?;
            page.text.extend_from_slice(b" : ")?;
        }
        (None, Mark::Plain) => page.text.extend_from_slice(b" : ")?,
        (None, Mark::Implicit) => page.text.extend_from_slice(b" | ")?,
    }
    push_term(printer, page, 0, item.ty)
}

/// The command that declares an entry, and a line end: `[x:T];`, `[x|T];` or `[x=M:T];`. The
/// entries before it are in scope.
pub fn entry_command<E: Entries>(
    alloc: Global,
    names: &Names,
    entries: &E,
    item: Item<'_>,
    levels: Shown<'_>,
) -> Result<Vec<u8>, AllocError>
    ensures { IfOk result (λ text. text.items ≡ entry_command levels.entry (outer_scope names.now (E.called entries.now) (E.in_scope entries.now)) (item_entry item.entry)) }
{
    let mut page = Page::new(alloc);
    push_command(alloc, names, entries, item, levels, &mut page)?;
    let Page {
        text,
        locals: _,
        latest: _,
    } = page;
    Ok(text)
}

/// Adds the command that declares an entry, under no local variable.
pub(crate) fn push_command<E: Entries>(
    alloc: Global,
    names: &Names,
    entries: &E,
    item: Item<'_>,
    levels: Shown<'_>,
    page: &mut Page,
) -> Result<(), AllocError>
    requires { page.old.locals ≡ [] }
    ensures text { OnOk result (page.new.text.items ≡ page.old.text.items ++ entry_command levels.entry (outer_scope names.now (E.called entries.now) (E.in_scope entries.now)) (item_entry item.entry)) }
    ensures locals { OnOk result (page.new.locals ≡ []) }
{
    let printer = Printer {
        alloc,
        names,
        entries,
        levels,
    };
    page.text.extend_from_slice(b"[")?;
    page.text.extend_from_slice(name_text(names, item.name))?;
    push_declared(&printer, page, item)?;
    page.text.extend_from_slice(b"];\n")
}

/// Adds what the command of an entry says behind its name.
fn push_declared<E: Entries>(
    printer: &Printer<'_, E>,
    page: &mut Page,
    item: Item<'_>,
) -> Result<(), AllocError>
    requires { AreCounted printer.now.names.now (E.called printer.now.entries.now) (E.in_scope printer.now.entries.now) page.old.locals }
    ensures text { OnOk result (page.new.text.items ≡ page.old.text.items ++ declared printer.now.levels (scope_of printer.now.names.now (E.called printer.now.entries.now) (E.in_scope printer.now.entries.now) page.old.locals) (option_copied item.entry.body) item.entry.mark item.entry.ty.now) }
    ensures locals { OnOk result (page.new.locals ≡ page.old.locals) }
{
    match (item.body, item.mark) {
        (Some(body), _) => {
            page.text.extend_from_slice(b"=")?;
            push_term(printer, page, 0, body)?;
            page.text.extend_from_slice(b":")?;
        }
        (None, Mark::Plain) => page.text.extend_from_slice(b":")?,
        (None, Mark::Implicit) => page.text.extend_from_slice(b"|")?,
    }
    push_term(printer, page, 0, item.ty)
}

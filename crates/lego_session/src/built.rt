//! Which commands are of a form that is built.
ghost use Rattle.std.specs.Prelude.{◌≡◌, ◌&&◌};
ghost use Rattle.std.specs.List.{list_all};
ghost use Rattle.lego_grammar.specs.Surface.{written, written_command, written_kind};
ghost use Rattle.lego_session.specs.Reading.{is_plain, has_plain_marks, is_plain_kind, is_built};

use lego_grammar::{Act, Binding, BindingKind, Command, Surface};
use lego_term::Mark;

/// Whether the form of a command is built: bindings, a term, `Hnf`, `Normal`, `Undo`, `Forget` or
/// `Ctxt`, without an implicit mark.
pub fn is_built(command: &Command) -> bool
    ensures { result ≡ is_built (written_command command.now).act }
{
    match &command.act {
        Act::Bind { bindings } => bindings
            .items()
            .iter()
            .all(|binding| is_plain_kind(&binding.kind)),
        Act::Hnf { term } => has_plain_marks(term),
        Act::Normal { term } => has_plain_marks(term),
        Act::Show { term } => has_plain_marks(term),
        Act::Undo { .. } => true,
        Act::Forget { .. } => true,
        Act::Ctxt => true,
        _ => false,
    }
}

/// Whether a binding has no implicit mark.
fn is_plain_kind(kind: &BindingKind) -> bool
    ensures { result ≡ is_plain_kind (written_kind kind.now) }
{
    match kind {
        BindingKind::Assume { mark, ty } => is_plain(*mark) && has_plain_marks(ty),
        BindingKind::Define { body, ty: None } => has_plain_marks(body),
        BindingKind::Define { body, ty: Some(ty) } => has_plain_marks(body) && has_plain_marks(ty),
    }
}

/// Whether a written term has no implicit mark.
#[cycle(marks)]
fn has_plain_marks(s: &Surface) -> bool
    ensures { result ≡ has_plain_marks (written s.now) }
{
    match s {
        Surface::Bind {
            mark,
            domain,
            body,
            ..
        } => is_plain(*mark) && has_plain_marks(domain.get()) && has_plain_marks(body.get()),
        Surface::Local { value, body, .. } => {
            has_plain_marks(value.get()) && has_plain_marks(body.get())
        }
        Surface::Apply {
            function,
            arguments,
        } => has_plain_marks(function.get()) && are_plain(arguments.items()),
        Surface::Pair { first, second, ty } => {
            has_plain_marks(first.get())
                && has_plain_marks(second.get())
                && has_plain_marks(ty.get())
        }
        Surface::Project { of, .. } => has_plain_marks(of.get()),
        Surface::Name { .. } => true,
        Surface::Prop => true,
        Surface::AnyType { .. } => true,
        Surface::TypeAt { .. } => true,
        Surface::Hole { .. } => true,
    }
}

/// Whether arguments have no implicit mark.
#[cycle(marks)]
fn are_plain(arguments: &[(Mark, Surface)]) -> bool
    ensures { result ≡ list_all (λ x. is_plain x.0 && has_plain_marks (written x.1)) arguments.now }
{
    for (mark, argument) in arguments {
        if !is_plain(*mark) || !has_plain_marks(argument) {
            return false;
        }
    }
    true
}

fn is_plain(mark: Mark) -> bool
    ensures { result ≡ is_plain mark }
{
    mark == Mark::Plain
}

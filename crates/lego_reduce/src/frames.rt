//! What stands around the head of a term, as a list.
ghost use Rattle.std.specs.Prelude.{◌≡◌, IfOk};
ghost use Rattle.lego_term.specs.Made.{Makes};
ghost use Rattle.lego_reduce.specs.private.Frames.{plug, plug_one, IsHead, Rebuilt};

use lego_term::{Mark, Node, Term, TermFault, app, fst, snd};
use smallvec::SmallVec;
use std::alloc::{AllocError, Global};

/// What stands around a term.
#[derive(Default, Drop)]
pub(crate) enum Frame {
    /// The term is applied to this argument.
    Argument(Mark, Term),
    /// The first part of the term is taken.
    #[default]
    First,
    /// The second part of the term is taken.
    Second,
}

/// The frames around the head of a term, the outermost first.
pub(crate) type Frames = SmallVec<Frame, 4>;

/// The term within the frame.
pub(crate) fn surrounded(alloc: Global, frame: &Frame, term: &Term) -> Result<Term, TermFault>
    ensures { Makes (plug_one frame.now term.now) result }
{
    match frame {
        Frame::Argument(mark, argument) => app(alloc, *mark, term, argument),
        Frame::First => fst(alloc, term),
        Frame::Second => snd(alloc, term),
    }
}

/// The term within the frames.
pub(crate) fn rebuilt(alloc: Global, frames: &[Frame], term: &Term) -> Result<Term, TermFault>
    ensures { Rebuilt (plug frames.now term.now) result }
{
    let mut made = term.share()?;
    for index in 0..frames.len() {
        made = surrounded(alloc, &frames[frames.len() - 1 - index], &made)?;
    }
    Ok(made)
}

/// The head of the term, around which frames are added.
pub(crate) fn unwound(term: &Term, frames: &mut Frames) -> Result<Term, AllocError>
    ensures whole { IfOk result (λ head. plug frames.new.items head ≡ plug frames.old.items term.now) }
    ensures head { IfOk result (λ head. IsHead head) }
{
    match term.view() {
        Node::App(mark, function, argument) => {
            let argument = argument.share()?;
            let Ok(()) = frames.push(Frame::Argument(mark, argument)) else {
                return Err(AllocError);
            };
            unwound(function, frames)
        }
        Node::Fst(of) => {
            let Ok(()) = frames.push(Frame::First) else {
                return Err(AllocError);
            };
            unwound(of, frames)
        }
        Node::Snd(of) => {
            let Ok(()) = frames.push(Frame::Second) else {
                return Err(AllocError);
            };
            unwound(of, frames)
        }
        Node::Var(_) | Node::Const(_) | Node::Prop | Node::Univ(_) => term.share(),
        Node::Pi(_, _, _) | Node::Lam(_, _, _) | Node::Sigma(_, _, _) => term.share(),
        Node::Pair(_, _, _, _, _) | Node::Local(_, _, _) => term.share(),
    }
}

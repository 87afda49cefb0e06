//! The trees that the machine builds, unless it only follows the shape.
ghost use Rattle.std.specs.Prelude.{◌≡◌, false};
ghost use Rattle.lego_parser.specs.private.Trees.{built};
ghost use Rattle.lego_grammar.specs.private.Machine.{wrapped as wraps};
ghost use Rattle.lego_parser.specs.private.Frames.{frame_of};

use crate::machine::Machine;
use crate::modes::{Frame, Mode, Post, Spine};
use lego_grammar::{Kind, Part, Surface};
use lego_term::{List, Mark};
use sqlite_items::Boxed;
use std::alloc::AllocError;

impl<const BUILDING: bool> Machine<BUILDING> {
    ghost use Rattle.std.specs.Prelude.{true, [], IfOk};
    ghost use Rattle.lego_grammar.specs.Written.{Bind as Binds, Local as Locally, Project as Projects, Pair};
    ghost use Rattle.lego_term.specs.declared.binder.Mark.TheVariants.{Plain};
    ghost use Rattle.lego_parser.specs.private.Trees.{whole_spine, whole_run, spine_so_far};
    ghost use Rattle.lego_grammar.specs.private.Machine.{keep as keeps};
    ghost use Rattle.lego_parser.specs.private.Frames.{post_of, arguments_of, one_more_argument, spine_term, run_term, IsSpineOf};

    pub fn keep(&self, tree: Surface) -> Surface
        ensures { built result ≡ keeps BUILDING (built tree) }
    {
        if BUILDING { tree } else { Surface::Prop }
    }

    /// An operand without projections.
    pub fn post(&self, of: Surface) -> Post
        ensures { post_of result ≡ built of }
    {
        Post {
            of,
            parts: Vec::new(self.alloc),
        }
    }

    /// The operand with one more projection.
    pub fn project(&self, post: Post, part: Part) -> Result<Post, AllocError>
        ensures { IfOk result (λ r. post_of r ≡ keeps BUILDING (Projects part (post_of post))) }
    {
        if !BUILDING {
            return Ok(self.post(Surface::Prop));
        }
        let Post { of, mut parts } = self.run(post);
        parts.push(part)?;
        Ok(Post { of, parts })
    }

    /// The same operand, with all projections of it among its parts.
    fn run(&self, post: Post) -> Post
        ensures { run_term result ≡ post_of post }
    {
        let Post { of, parts } = post;
        if parts.is_empty() {
            return self.run_of(of);
        }
        Post { of, parts }
    }

    /// An operand apart from its own projections.
    fn run_of(&self, of: Surface) -> Post
        ensures { run_term result ≡ built of }
    {
        match of {
            Surface::Project { of, parts } => self.reopened(of, parts),
            other => self.post(other),
        }
    }

    fn reopened(&self, of: Boxed<Surface>, parts: List<Part>) -> Post
        ensures { run_term result ≡ whole_run (built of) parts }
    {
        if parts.items().is_empty() {
            return self.post(Surface::Project { of, parts });
        }
        Post {
            of: of.into_inner(),
            parts: parts.into_items(),
        }
    }

    /// The tree of the operand.
    pub fn tree(&self, post: Post) -> Result<Surface, AllocError>
        ensures { IfOk result (λ r. built r ≡ post_of post) }
    {
        let Post { of, parts } = post;
        if parts.is_empty() {
            return Ok(of);
        }
        Ok(Surface::Project {
            of: Boxed::new(self.alloc, of)?,
            parts: List::of(parts),
        })
    }

    /// A binder without names: an arrow or a `#`.
    fn unnamed(&self, kind: Kind, domain: Surface, body: Surface) -> Result<Surface, AllocError>
        ensures { IfOk result (λ r. built r ≡ Binds kind Plain [] (built domain) (built body)) }
    {
        self.bind(kind, Mark::Plain, Vec::new(self.alloc), domain, body)
    }

    fn bind(
        &self,
        kind: Kind,
        mark: Mark,
        names: Vec<u32>,
        domain: Surface,
        body: Surface,
    ) -> Result<Surface, AllocError>
        ensures { IfOk result (λ r. built r ≡ Binds kind mark names.items (built domain) (built body)) }
    {
        Ok(Surface::Bind {
            kind,
            mark,
            names: List::of(names),
            domain: Boxed::new(self.alloc, domain)?,
            body: Boxed::new(self.alloc, body)?,
        })
    }

    /// The pair.
    pub fn pair(&self, first: Surface, second: Surface, ty: Surface) -> Result<Surface, AllocError>
        ensures { IfOk result (λ r. built r ≡ keeps BUILDING (Pair (built first) (built second) (built ty))) }
    {
        if !BUILDING {
            return Ok(Surface::Prop);
        }
        Ok(Surface::Pair {
            first: Boxed::new(self.alloc, first)?,
            second: Boxed::new(self.alloc, second)?,
            ty: Boxed::new(self.alloc, ty)?,
        })
    }

    /// The term that ends with this one.
    pub fn wrapped(&self, frame: Frame, value: Surface) -> Result<Surface, AllocError>
        ensures { IfOk result (λ r. built r ≡ wraps BUILDING (frame_of frame) (built value)) }
    {
        if BUILDING {
            return self.wrap(frame, value);
        }
        Ok(shape(frame, value))
    }

    fn wrap(&self, frame: Frame, value: Surface) -> Result<Surface, AllocError>
        ensures { IfOk result (λ r. built r ≡ wraps true (frame_of frame) (built value)) }
    {
        match frame {
            Frame::Apply {
                mark,
                function,
                arguments,
            } => self.apply(mark, function, arguments, value),
            Frame::Hash(domain) => self.unnamed(Kind::Sigma, domain, value),
            Frame::Arrow(domain) => self.unnamed(Kind::Pi, domain, value),
            Frame::Body {
                kind,
                mark,
                names,
                domain,
            } => self.bind(kind, mark, names, domain, value),
            Frame::Local(name, definition) => self.local(name, definition, value),
            Frame::Parens => Ok(value),
            Frame::Second(_first) => Ok(value),
            Frame::Type(_first, _second) => Ok(value),
            Frame::Domain(_site, _mark, _names) => Ok(value),
            Frame::Value(_site, _name) => Ok(value),
            Frame::Stated(_context, _name, _body) => Ok(value),
            Frame::Whole(_use) => Ok(value),
        }
    }

    /// The function applied to one argument more.
    pub fn apply(
        &self,
        mark: Mark,
        function: Surface,
        arguments: Vec<(Mark, Surface)>,
        argument: Surface,
    ) -> Result<Surface, AllocError>
        ensures { IfOk result (λ r. built r ≡ one_more_argument mark function arguments.items argument) }
    {
        let spine = self.with_argument(mark, function, arguments, argument)?;
        Ok(Surface::Apply {
            function: Boxed::new(self.alloc, spine.function)?,
            arguments: List::of(spine.arguments),
        })
    }

    /// The function with one argument more, and all others that it has.
    pub fn with_argument(
        &self,
        mark: Mark,
        function: Surface,
        arguments: Vec<(Mark, Surface)>,
        argument: Surface,
    ) -> Result<Spine, AllocError>
        ensures { IfOk result (λ spine. IsSpineOf spine (one_more_argument mark function arguments.items argument)) }
    {
        let Spine {
            function,
            mut arguments,
        } = self.spine(function, arguments);
        arguments.push((mark, argument))?;
        Ok(Spine {
            function,
            arguments,
        })
    }

    /// The same function and arguments, with all arguments of the function among them.
    fn spine(&self, function: Surface, arguments: Vec<(Mark, Surface)>) -> Spine
        ensures { spine_term result ≡ spine_so_far (built function) (arguments_of arguments.items) }
    {
        if arguments.is_empty() {
            return self.spine_of(function);
        }
        Spine {
            function,
            arguments,
        }
    }

    /// A function apart from its own arguments.
    fn spine_of(&self, function: Surface) -> Spine
        ensures { spine_term result ≡ built function }
    {
        match function {
            Surface::Apply {
                function,
                arguments,
            } => self.reopened_spine(function, arguments),
            other => self.no_arguments(other),
        }
    }

    fn no_arguments(&self, function: Surface) -> Spine
        ensures function { result.function ≡ function }
        ensures arguments { result.arguments.items ≡ [] }
    {
        Spine {
            function,
            arguments: Vec::new(self.alloc),
        }
    }

    fn reopened_spine(&self, function: Boxed<Surface>, arguments: List<(Mark, Surface)>) -> Spine
        ensures { spine_term result ≡ whole_spine (built function) (arguments_of arguments) }
    {
        if arguments.items().is_empty() {
            return self.no_arguments(Surface::Apply {
                function,
                arguments,
            });
        }
        Spine {
            function: function.into_inner(),
            arguments: arguments.into_items(),
        }
    }

    fn local(&self, name: u32, value: Surface, body: Surface) -> Result<Surface, AllocError>
        ensures { IfOk result (λ r. built r ≡ Locally name (built value) (built body)) }
    {
        Ok(Surface::Local {
            name,
            value: Boxed::new(self.alloc, value)?,
            body: Boxed::new(self.alloc, body)?,
        })
    }
}

/// What stands for the term that ends with this one, where only the shape is followed.
fn shape(frame: Frame, value: Surface) -> Surface
    ensures { built result ≡ wraps false (frame_of frame) (built value) }
{
    let is_pending = frame.is_pending();
    discard_frame(frame);
    if !is_pending {
        return value;
    }
    discard(value);
    Surface::Prop
}

/// Drops a frame, apart from what goes on beside it.
fn discard_frame(_frame: Frame) {}

/// Drops a tree, apart from what goes on beside it.
fn discard(_tree: Surface) {}

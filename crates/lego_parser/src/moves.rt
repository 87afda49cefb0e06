//! The moves of the machine over a stack: each answers what may come next, or nothing
//! where the token may not come.
use crate::machine::Machine;
use crate::modes::{Frame, Mode, NameAt, Names, Post, Site};
use lego_base::Place;
use lego_grammar::{Kind, Part, Surface};
use lego_lexer::{Symbol, TokenKind, Word};
use lego_term::Mark;
use std::alloc::AllocError;

impl<const BUILDING: bool> Machine<BUILDING> {
    ghost use Rattle.std.specs.Prelude.{◌≡◌, [], IfOk, OnOk};
    ghost use Rattle.lego_lexer.specs.declared.token.TokenKind.TheVariants.{Symbol as ASymbol};
    ghost use Rattle.lego_lexer.specs.declared.token.Symbol.TheVariants.{OpenParen};
    ghost use Rattle.lego_term.specs.declared.binder.Mark.TheVariants.{Plain, Implicit as ImplicitMark};
    ghost use Rattle.lego_parser.specs.private.Trees.{built};
    ghost use Rattle.lego_grammar.specs.private.Machine.{InTerm, Want as WantMode, WantName as WantsName, ApplyTo, HashFrom, ArrowFrom, moves as goes, operand as operand_so, sums as sums_so, pending, settled, summed, closed, closes_top, keep as keeps, behind as behind_so, behind_paren as behind_paren_so, behind_name as behind_name_so, part as part_so, valued};
    ghost use Rattle.lego_parser.specs.private.Frames.{frame_of, mode_of, post_of, site_of, one_more_argument};
    ghost use Rattle.lego_parser.specs.private.Stack.{stack, applied_to, awaits, Moves, Leaves, Takes, Ends};

    /// A token where an operand is due.
    pub fn operand(
        &mut self,
        kind: TokenKind,
        place: Place,
        name: u32,
    ) -> Result<Option<Mode>, AllocError>
        ensures { Moves (operand_so BUILDING kind place name (stack self.old)) result self.new }
    {
        match kind {
            TokenKind::Name => {
                let tree = self.keep(Surface::Name { place, name });
                Ok(Some(Mode::Behind(false, self.post(tree))))
            }
            TokenKind::Word(Word::Prop) => Ok(Some(Mode::Behind(false, self.post(Surface::Prop)))),
            TokenKind::Word(Word::AnyType) => {
                let tree = self.keep(Surface::AnyType { place });
                Ok(Some(Mode::Behind(true, self.post(tree))))
            }
            TokenKind::Symbol(Symbol::Question) => Ok(Some(Mode::WantGoal(place))),
            TokenKind::Symbol(Symbol::OpenParen) => {
                self.stack.push(Frame::Parens)?;
                Ok(Some(Mode::Want))
            }
            TokenKind::Symbol(Symbol::OpenSquare) => Ok(Some(self.binder(Kind::Lambda))),
            TokenKind::Symbol(Symbol::OpenBrace) => Ok(Some(self.binder(Kind::Pi))),
            TokenKind::Symbol(Symbol::OpenAngle) => Ok(Some(self.binder(Kind::Sigma))),
            _ => Ok(None),
        }
    }

    pub fn no_names(&self) -> Names
        ensures places { result.places.items ≡ [] }
        ensures names { result.names.items ≡ [] }
    {
        Names {
            places: Vec::new(self.alloc),
            names: Vec::new(self.alloc),
        }
    }

    fn binder(&self, kind: Kind) -> Mode
        ensures { mode_of result ≡ WantsName (InTerm kind) [] [] }
    {
        Mode::WantName(Site::Term(kind), self.no_names())
    }

    /// An argument goes to its function.
    fn settle(&mut self, value: Surface) -> Result<Surface, AllocError>
        ensures { Leaves (settled BUILDING (built value) (stack self.old)) result self.new }
    {
        match self.stack.pop() {
            Some(
                Frame::Apply {
                    mark,
                    function,
                    arguments,
                },
            ) => self.end_apply(mark, function, arguments, value),
            Some(frame) => {
                self.stack.push(frame)?;
                Ok(value)
            }
            None => Ok(value),
        }
    }

    fn end_apply(
        &self,
        mark: Mark,
        function: Surface,
        arguments: Vec<(Mark, Surface)>,
        argument: Surface,
    ) -> Result<Surface, AllocError>
        ensures { IfOk result (λ r. built r ≡ keeps BUILDING (one_more_argument mark function arguments.items argument)) }
    {
        if BUILDING {
            self.apply(mark, function, arguments, argument)
        } else {
            Ok(Surface::Prop)
        }
    }

    /// The operand becomes a function that awaits an argument, or the last argument of
    /// one.
    fn apply_to(&mut self, value: Surface, mark: Mark) -> Result<(), AllocError>
        ensures { OnOk result (stack self.new ≡ applied_to BUILDING mark (built value) (stack self.old)) }
    {
        let frame = match self.stack.pop() {
            Some(
                Frame::Apply {
                    mark: last,
                    function,
                    arguments,
                },
            ) => self.lengthen(last, function, arguments, value, mark)?,
            Some(frame) => {
                self.stack.push(frame)?;
                self.function(value, mark)
            }
            None => self.function(value, mark),
        };
        self.stack.push(frame)
    }

    fn function(&self, value: Surface, mark: Mark) -> Frame
        ensures { frame_of result ≡ ApplyTo mark (built value) }
    {
        Frame::Apply {
            mark,
            function: value,
            arguments: Vec::new(self.alloc),
        }
    }

    /// One argument more, unless only the shape is followed.
    fn lengthen(
        &self,
        last: Mark,
        function: Surface,
        arguments: Vec<(Mark, Surface)>,
        argument: Surface,
        mark: Mark,
    ) -> Result<Frame, AllocError>
        ensures { IfOk result (λ r. frame_of r ≡ ApplyTo mark (keeps BUILDING (one_more_argument last function arguments.items argument))) }
    {
        if !BUILDING {
            return Ok(self.function(Surface::Prop, mark));
        }
        let spine = self.with_argument(last, function, arguments, argument)?;
        Ok(Frame::Apply {
            mark,
            function: spine.function,
            arguments: spine.arguments,
        })
    }

    /// The frame on top, where the last part of a sum ends it.
    fn take_sum(&mut self) -> Result<Option<Frame>, AllocError>
        ensures { IfOk result (λ frame. Takes sums_so (stack self.old) frame (stack self.new)) }
    {
        let Some(frame) = self.stack.pop() else {
            return Ok(None);
        };
        if frame.sums() {
            return Ok(Some(frame));
        }
        self.stack.push(frame)?;
        Ok(None)
    }

    /// A spine ends the sum on top, if there is one.
    #[tactic(auto, using(crate::proofs::StackLemmas::summed_ends, crate::proofs::StackLemmas::summed_left))]
    fn sum_top(&mut self, value: &mut Surface) -> Result<bool, AllocError>
        ensures { IfOk result (λ more. Ends (summed BUILDING) more (built value.old) (stack self.old) (built value.new) (stack self.new)) }
    {
        let Some(frame) = self.take_sum()? else {
            return Ok(false);
        };
        let last = std::mem::replace(value, Surface::Prop);
        *value = self.wrapped(frame, last)?;
        Ok(true)
    }

    /// A spine ends the sums of which it is the last part.
    fn sum(&mut self, mut value: Surface) -> Result<Surface, AllocError>
        ensures { Leaves (summed BUILDING (built value) (stack self.old)) result self.new }
    {
        while self.sum_top(&mut value)? {}
        Ok(value)
    }

    /// The frame on top, where a whole term ends it.
    fn take_pending(&mut self) -> Result<Option<Frame>, AllocError>
        ensures { IfOk result (λ frame. Takes pending (stack self.old) frame (stack self.new)) }
    {
        let Some(frame) = self.stack.pop() else {
            return Ok(None);
        };
        if frame.is_pending() {
            return Ok(Some(frame));
        }
        self.stack.push(frame)?;
        Ok(None)
    }

    /// A term ends what awaits it on top, if anything does.
    #[tactic(auto, using(crate::proofs::StackLemmas::closed_ends, crate::proofs::StackLemmas::closed_left))]
    fn close_top(&mut self, value: &mut Surface) -> Result<bool, AllocError>
        ensures { IfOk result (λ more. Ends (closed BUILDING) more (built value.old) (stack self.old) (built value.new) (stack self.new)) }
    {
        let Some(frame) = self.take_pending()? else {
            return Ok(false);
        };
        let last = std::mem::replace(value, Surface::Prop);
        *value = self.wrapped(frame, last)?;
        Ok(true)
    }

    /// A term ends all that it is the last part of.
    fn close(&mut self, mut value: Surface) -> Result<Surface, AllocError>
        ensures { Leaves (closed BUILDING (built value) (stack self.old)) result self.new }
    {
        while self.close_top(&mut value)? {}
        Ok(value)
    }

    /// A closing token behind a whole term.
    fn end(&mut self, post: Post, symbol: Symbol) -> Result<Option<Mode>, AllocError>
        ensures { Moves (closes_top BUILDING (closed BUILDING (post_of post) (stack self.old)) (ASymbol symbol)) result self.new }
    {
        let value = self.tree(post)?;
        let value = self.close(value)?;
        self.end_top(value, symbol)
    }

    /// A closing token behind a whole term, above the frame on top.
    fn end_top(&mut self, value: Surface, symbol: Symbol) -> Result<Option<Mode>, AllocError>
        ensures { Moves (closes_top BUILDING (built value, stack self.old) (ASymbol symbol)) result self.new }
    {
        let Some(frame) = self.stack.pop() else {
            return Ok(None);
        };
        self.closes(value, frame, symbol)
    }

    /// An operand behind another one is its argument.
    fn argument(
        &mut self,
        kind: TokenKind,
        place: Place,
        name: u32,
        post: Post,
    ) -> Result<Option<Mode>, AllocError>
        ensures { Moves (operand_so BUILDING kind place name (applied_to BUILDING Plain (post_of post) (stack self.old))) result self.new }
    {
        let value = self.tree(post)?;
        self.apply_to(value, Mark::Plain)?;
        self.operand(kind, place, name)
    }

    /// A bar behind an operand: its next argument is implicit.
    fn implicit(&mut self, post: Post) -> Result<Option<Mode>, AllocError>
        ensures { Moves (goes WantMode (applied_to BUILDING ImplicitMark (post_of post) (stack self.old))) result self.new }
    {
        let value = self.tree(post)?;
        self.apply_to(value, Mark::Implicit)?;
        Ok(Some(Mode::Want))
    }

    /// A `#` behind an operand.
    fn hash(&mut self, post: Post) -> Result<Option<Mode>, AllocError>
        ensures { Moves (goes WantMode (awaits HashFrom (settled BUILDING (post_of post) (stack self.old)))) result self.new }
    {
        let value = self.tree(post)?;
        let value = self.settle(value)?;
        self.stack.push(Frame::Hash(value))?;
        Ok(Some(Mode::Want))
    }

    /// An arrow behind an operand.
    fn arrow(&mut self, post: Post) -> Result<Option<Mode>, AllocError>
        ensures { Moves (goes WantMode (awaits ArrowFrom (summed BUILDING (post_of post) (stack self.old)))) result self.new }
    {
        let value = self.tree(post)?;
        let value = self.sum(value)?;
        self.stack.push(Frame::Arrow(value))?;
        Ok(Some(Mode::Want))
    }

    /// A token behind an operand.
    pub fn behind(
        &mut self,
        kind: TokenKind,
        place: Place,
        name: u32,
        level: bool,
        post: Post,
    ) -> Result<Option<Mode>, AllocError>
        ensures { Moves (behind_so BUILDING kind place name level (post_of post) (stack self.old)) result self.new }
    {
        match kind {
            TokenKind::Symbol(Symbol::Dot) => Ok(Some(Mode::WantPart(post))),
            TokenKind::Symbol(Symbol::Bar) => self.implicit(post),
            TokenKind::Symbol(Symbol::Hash) => self.hash(post),
            TokenKind::Symbol(Symbol::Arrow) => self.arrow(post),
            TokenKind::Symbol(Symbol::CloseSquare) => self.end(post, Symbol::CloseSquare),
            TokenKind::Symbol(Symbol::CloseBrace) => self.end(post, Symbol::CloseBrace),
            TokenKind::Symbol(Symbol::CloseAngle) => self.end(post, Symbol::CloseAngle),
            TokenKind::Symbol(Symbol::CloseParen) => self.end(post, Symbol::CloseParen),
            TokenKind::Symbol(Symbol::Comma) => self.end(post, Symbol::Comma),
            TokenKind::Symbol(Symbol::Colon) => self.end(post, Symbol::Colon),
            TokenKind::Symbol(Symbol::Semicolon) => self.end(post, Symbol::Semicolon),
            TokenKind::Symbol(Symbol::OpenParen) => self.open(place, name, level, post),
            _ => self.argument(kind, place, name, post),
        }
    }

    /// A parenthesis behind an operand; behind `Type` it may open a level.
    fn open(
        &mut self,
        place: Place,
        name: u32,
        level: bool,
        post: Post,
    ) -> Result<Option<Mode>, AllocError>
        ensures { Moves (behind_so BUILDING (ASymbol OpenParen) place name level (post_of post) (stack self.old)) result self.new }
    {
        if level {
            let value = self.tree(post)?;
            Ok(Some(Mode::WantLevel(value)))
        } else {
            self.argument(TokenKind::Symbol(Symbol::OpenParen), place, name, post)
        }
    }

    /// A token behind `Type (`.
    pub fn behind_paren(
        &mut self,
        kind: TokenKind,
        place: Place,
        name: u32,
        value: Surface,
    ) -> Result<Option<Mode>, AllocError>
        ensures { Moves (behind_paren_so BUILDING kind place name (built value) (stack self.old)) result self.new }
    {
        match kind {
            TokenKind::Number(level) => Ok(Some(Mode::CloseLevel(level))),
            _ => {
                self.apply_to(value, Mark::Plain)?;
                self.stack.push(Frame::Parens)?;
                self.operand(kind, place, name)
            }
        }
    }

    /// A token behind `.`.
    pub fn part(&mut self, kind: TokenKind, post: Post) -> Result<Option<Mode>, AllocError>
        ensures { Moves (part_so BUILDING kind (post_of post) (stack self.old)) result self.new }
    {
        match kind {
            TokenKind::Number(1) => {
                let post = self.project(post, Part::First)?;
                Ok(Some(Mode::Behind(false, post)))
            }
            TokenKind::Number(2) => {
                let post = self.project(post, Part::Second)?;
                Ok(Some(Mode::Behind(false, post)))
            }
            _ => Ok(None),
        }
    }

    /// A token behind a name that is bound.
    pub fn behind_name(
        &mut self,
        kind: TokenKind,
        site: Site,
        names: Names,
    ) -> Result<Option<Mode>, AllocError>
        ensures { Moves (behind_name_so kind (site_of site) names.places.items names.names.items (stack self.old)) result self.new }
    {
        match kind {
            TokenKind::Symbol(Symbol::Comma) => Ok(Some(Mode::WantName(site, names))),
            TokenKind::Symbol(Symbol::Colon) => {
                self.stack.push(Frame::Domain(site, Mark::Plain, names))?;
                Ok(Some(Mode::Want))
            }
            TokenKind::Symbol(Symbol::Bar) => {
                if !site.hides() {
                    return Ok(None);
                }
                self.stack.push(Frame::Domain(site, Mark::Implicit, names))?;
                Ok(Some(Mode::Want))
            }
            TokenKind::Symbol(Symbol::Equals) => {
                if !site.defines() {
                    return Ok(None);
                }
                self.give_value(site, names)
            }
            _ => Ok(None),
        }
    }

    fn give_value(&mut self, site: Site, names: Names) -> Result<Option<Mode>, AllocError>
        ensures { Moves (valued (site_of site) names.places.items names.names.items (stack self.old)) result self.new }
    {
        let Names { places, names } = names;
        if places.len() != 1 || names.len() != 1 {
            return Ok(None);
        }
        let name = NameAt {
            place: places[0],
            name: names[0],
        };
        self.stack.push(Frame::Value(site, name))?;
        Ok(Some(Mode::Want))
    }
}

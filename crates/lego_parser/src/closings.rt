//! The closing tokens: what a whole term becomes above the frame that awaited it.
use crate::machine::Machine;
use crate::modes::{Frame, Mode, NameAt, Names, OpenContext, Site, Use};
use lego_grammar::{Act, Binding, BindingKind, Kind, Surface};
use lego_lexer::Symbol;
use lego_term::{List, Mark};
use std::alloc::AllocError;

impl Use {
    ghost use Rattle.std.specs.Prelude.{◌≡◌};
    ghost use Rattle.lego_grammar.specs.private.Machine.{act_for};
    ghost use Rattle.lego_parser.specs.private.Trees.{built, built_act};
    ghost use Rattle.lego_parser.specs.private.Frames.{use_of};

    /// What the command with this term asks for.
    pub fn act(self, term: Surface) -> Act
        ensures { built_act result ≡ act_for (use_of self) (built term) }
    {
        match self {
            Use::Show => Act::Show { term },
            Use::Refine => Act::Refine { term },
            Use::Claim => Act::Claim { ty: term },
            Use::Equiv => Act::Equiv { ty: term },
            Use::Head => Act::Hnf { term },
            Use::Normal => Act::Normal { term },
            Use::Goal(name) => Act::Goal { name, ty: term },
        }
    }
}

impl<const BUILDING: bool> Machine<BUILDING> {
    ghost use Rattle.std.specs.Prelude.{◌≡◌, [], ◌∷◌, ◌++◌, map, IfOk};
    ghost use Rattle.lego_lexer.specs.declared.token.TokenKind.TheVariants.{Symbol as ASymbol};
    ghost use Rattle.lego_parser.specs.private.Trees.{built, built_binding, built_kind};
    ghost use Rattle.lego_grammar.specs.private.Machine.{Parens as ParensFrame, SecondOf, TypeOf, DomainOf, ValueOf, Whole as WholeFrame, InTerm, Between as IsBetween, closes as closes_so};
    ghost use Rattle.lego_parser.specs.declared.modes.Site.TheVariants.{Context as InContext};
    ghost use Rattle.lego_parser.specs.declared.modes.Frame.TheVariants.{Stated};
    ghost use Rattle.lego_parser.specs.private.Frames.{frame_of, mode_of, site_of, use_of};
    ghost use Rattle.lego_parser.specs.private.Stack.{stack, Moves};

    /// A closing token behind a whole term, above the frame.
    pub fn closes(
        &mut self,
        value: Surface,
        frame: Frame,
        symbol: Symbol,
    ) -> Result<Option<Mode>, AllocError>
        ensures { Moves (closes_so BUILDING (frame_of frame) (built value) (stack self.old) (ASymbol symbol)) result self.new }
    {
        match frame {
            Frame::Parens => self.close_parens(value, symbol),
            Frame::Second(first) => self.close_second(first, value, symbol),
            Frame::Type(first, second) => self.close_pair(first, second, value, symbol),
            Frame::Domain(site, mark, names) => {
                self.close_domain(site, mark, names, value, symbol)
            }
            Frame::Value(site, name) => self.close_value(site, name, value, symbol),
            Frame::Stated(context, name, body) => {
                self.close_stated(context, name, body, value, symbol)
            }
            Frame::Whole(purpose) => self.close_whole(purpose, value, symbol),
            Frame::Apply {
                mark: _mark,
                function: _function,
                arguments: _arguments,
            } => Ok(None),
            Frame::Hash(_domain) => Ok(None),
            Frame::Arrow(_domain) => Ok(None),
            Frame::Body {
                kind: _kind,
                mark: _mark,
                names: _names,
                domain: _domain,
            } => Ok(None),
            Frame::Local(_name, _value) => Ok(None),
        }
    }

    fn close_parens(&mut self, value: Surface, symbol: Symbol) -> Result<Option<Mode>, AllocError>
        ensures { Moves (closes_so BUILDING ParensFrame (built value) (stack self.old) (ASymbol symbol)) result self.new }
    {
        match symbol {
            Symbol::CloseParen => Ok(Some(Mode::Behind(false, self.post(value)))),
            Symbol::Comma => {
                self.stack.push(Frame::Second(value))?;
                Ok(Some(Mode::Want))
            }
            _ => Ok(None),
        }
    }

    fn close_second(
        &mut self,
        first: Surface,
        value: Surface,
        symbol: Symbol,
    ) -> Result<Option<Mode>, AllocError>
        ensures { Moves (closes_so BUILDING (SecondOf (built first)) (built value) (stack self.old) (ASymbol symbol)) result self.new }
    {
        match symbol {
            Symbol::Colon => {
                self.stack.push(Frame::Type(first, value))?;
                Ok(Some(Mode::Want))
            }
            _ => Ok(None),
        }
    }

    fn close_pair(
        &mut self,
        first: Surface,
        second: Surface,
        value: Surface,
        symbol: Symbol,
    ) -> Result<Option<Mode>, AllocError>
        ensures { Moves (closes_so BUILDING (TypeOf (built first) (built second)) (built value) (stack self.old) (ASymbol symbol)) result self.new }
    {
        match symbol {
            Symbol::CloseParen => {
                let pair = self.pair(first, second, value)?;
                Ok(Some(Mode::Behind(false, self.post(pair))))
            }
            _ => Ok(None),
        }
    }

    fn close_domain(
        &mut self,
        site: Site,
        mark: Mark,
        names: Names,
        value: Surface,
        symbol: Symbol,
    ) -> Result<Option<Mode>, AllocError>
        ensures { Moves (closes_so BUILDING (DomainOf (site_of site) mark names.places.items names.names.items) (built value) (stack self.old) (ASymbol symbol)) result self.new }
    {
        match site {
            Site::Term(kind) => self.close_binder(kind, mark, names, value, symbol),
            Site::Context(context) => match symbol {
                Symbol::CloseSquare => {
                    let kind = BindingKind::Assume { mark, ty: value };
                    let mode = self.bound(context, names, kind)?;
                    Ok(Some(mode))
                }
                _ => Ok(None),
            },
        }
    }

    fn close_binder(
        &mut self,
        kind: Kind,
        mark: Mark,
        names: Names,
        value: Surface,
        symbol: Symbol,
    ) -> Result<Option<Mode>, AllocError>
        ensures { Moves (closes_so BUILDING (DomainOf (InTerm kind) mark names.places.items names.names.items) (built value) (stack self.old) (ASymbol symbol)) result self.new }
    {
        let closing = match kind {
            Kind::Lambda => Symbol::CloseSquare,
            Kind::Pi => Symbol::CloseBrace,
            Kind::Sigma => Symbol::CloseAngle,
        };
        if symbol != closing {
            return Ok(None);
        }
        self.stack.push(Frame::Body {
            kind,
            mark,
            names: names.names,
            domain: value,
        })?;
        Ok(Some(Mode::Want))
    }

    fn close_value(
        &mut self,
        site: Site,
        name: NameAt,
        value: Surface,
        symbol: Symbol,
    ) -> Result<Option<Mode>, AllocError>
        ensures { Moves (closes_so BUILDING (ValueOf (site_of site) name.place name.name) (built value) (stack self.old) (ASymbol symbol)) result self.new }
    {
        match site {
            Site::Term(_kind) => match symbol {
                Symbol::CloseSquare => {
                    self.stack.push(Frame::Local(name.name, value))?;
                    Ok(Some(Mode::Want))
                }
                _ => Ok(None),
            },
            Site::Context(context) => self.close_definition(context, name, value, symbol),
        }
    }

    fn close_definition(
        &mut self,
        context: OpenContext,
        name: NameAt,
        value: Surface,
        symbol: Symbol,
    ) -> Result<Option<Mode>, AllocError>
        ensures { Moves (closes_so BUILDING (ValueOf (site_of (InContext context)) name.place name.name) (built value) (stack self.old) (ASymbol symbol)) result self.new }
    {
        match symbol {
            Symbol::CloseSquare => {
                let names = self.one_name(name)?;
                let kind = BindingKind::Define {
                    body: value,
                    ty: None,
                };
                let mode = self.bound(context, names, kind)?;
                Ok(Some(mode))
            }
            Symbol::Colon => {
                self.stack.push(Frame::Stated(context, name, value))?;
                Ok(Some(Mode::Want))
            }
            _ => Ok(None),
        }
    }

    fn close_stated(
        &mut self,
        context: OpenContext,
        name: NameAt,
        body: Surface,
        value: Surface,
        symbol: Symbol,
    ) -> Result<Option<Mode>, AllocError>
        ensures { Moves (closes_so BUILDING (frame_of (Stated context name body)) (built value) (stack self.old) (ASymbol symbol)) result self.new }
    {
        match symbol {
            Symbol::CloseSquare => {
                let names = self.one_name(name)?;
                let kind = BindingKind::Define {
                    body,
                    ty: Some(value),
                };
                let mode = self.bound(context, names, kind)?;
                Ok(Some(mode))
            }
            _ => Ok(None),
        }
    }

    fn close_whole(
        &mut self,
        purpose: Use,
        value: Surface,
        symbol: Symbol,
    ) -> Result<Option<Mode>, AllocError>
        ensures { Moves (closes_so BUILDING (WholeFrame (use_of purpose)) (built value) (stack self.old) (ASymbol symbol)) result self.new }
    {
        match symbol {
            Symbol::Semicolon => Ok(Some(Mode::Done(purpose.act(value)))),
            _ => Ok(None),
        }
    }

    fn one_name(&self, name: NameAt) -> Result<Names, AllocError>
        ensures { IfOk result (λ r. (r.places.items ≡ name.place ∷ []) × (r.names.items ≡ name.name ∷ [])) }
    {
        let mut places = Vec::new(self.alloc);
        let mut names = Vec::new(self.alloc);
        places.push(name.place)?;
        names.push(name.name)?;
        Ok(Names { places, names })
    }

    /// One binding more of a context command.
    fn bound(
        &self,
        context: OpenContext,
        names: Names,
        kind: BindingKind,
    ) -> Result<Mode, AllocError>
        ensures { IfOk result (λ mode. mode_of mode ≡ IsBetween (map built_binding context.bindings.items ++ record { place = context.place; places = names.places.items; names = names.names.items; kind = built_kind kind } ∷ [])) }
    {
        let OpenContext {
            place,
            mut bindings,
        } = context;
        bindings.push(Binding {
            places: List::of(names.places),
            names: List::of(names.names),
            kind,
            place,
        })?;
        Ok(Mode::Between(bindings))
    }
}

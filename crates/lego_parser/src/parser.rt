//! The parser.
ghost use Rattle.std.specs.Prelude.{List, ℕ, ◌≡◌, ◌<◌, ◌≤◌, map, length, get_or, All, IfOk, OnOk, IfErr};
ghost use Rattle.lego_lexer.specs.declared.token.Token.{Token as Placed};
ghost use Rattle.lego_parser.specs.declared.fault.ParseFault.TheVariants as Fault;
ghost use Rattle.lego_grammar.specs.Grammar.{Names as Numbering, Item, item_of};
ghost use Rattle.lego_parser.specs.Parsing.{EndWithSemicolon, ParsesTo, IsNoCommand};
ghost use Rattle.lego_parser.specs.Numbering.{NamesHaveRanges, names_behind, LeavesNames};
ghost use Rattle.lego_parser.specs.private.Scanning.{mode_at, IsScan, Decides, IsWhole};
ghost use Rattle.lego_parser.specs.private.Interning.{IsPlaced};
ghost use Rattle.lego_grammar.specs.Surface.{written_command};
ghost use Rattle.lego_grammar.specs.WrittenForm.{IsSmall, count_names, max_written_names, IsWrittenForm};
ghost use Rattle.lego_parser.specs.declared.scan.Start.TheVariants.{Context, Other};

use crate::build::build;
use crate::fault::ParseFault;
use crate::interning::intern_names;
use crate::scan::{Scan, Stage, Start};
use lego_base::Names;
use lego_grammar::Command;
use lego_lexer::Token;
use std::alloc::Global;

/// The command that the tokens are, by the grammar; the tokens are those of the text, `;`
/// included.
///
/// Behind an `Ok` each name among them has a number, by first sight in the order of the
/// tokens. A refusal is `Unexpected` at the first token after which no reading exists, or
/// `TooDeep` at the first token that is nested 501 levels deep, by the earlier of the two
/// places and `TooDeep` where they are one: these leave `names` as they were. `NamesFull`
/// comes where the names held and those among the tokens are more than 1,048,576; then so
/// many are held. At `Memory` a front of the tokens may be numbered.
pub fn parse(
    alloc: Global,
    tokens: &[Token],
    text: &[u8],
    names: &mut Names,
) -> Result<Command, ParseFault>
    requires ranges { NamesHaveRanges text.now tokens.now }
    requires ends { EndWithSemicolon tokens.now }
    ensures command { IfOk result (λ command. ParsesTo names.new (map (item_of text.now) tokens.now) (written_command command)) }
    ensures form { IfOk result (λ command. All (λ t. IsSmall t.lexeme) (map (item_of text.now) tokens.now) → count_names (map (item_of text.now) tokens.now) ≤ max_written_names → IsWrittenForm command) }
    ensures cause { IfErr result (λ fault. IsNoCommand names.old (map (item_of text.now) tokens.now) fault) }
    ensures numbered { OnOk result (names.new ≡ names_behind names.old (map (item_of text.now) tokens.now)) }
    ensures kept { IfErr result (λ fault. LeavesNames fault names.old (map (item_of text.now) tokens.now) names.new) }
{
    let Some(first) = tokens.first() else {
        unreachable!()
    };
    let place = first.place;
    let context = Scan::over(alloc, tokens, Start::Context)?;
    let other = Scan::over(alloc, tokens, Start::Other)?;
    let start = decide(tokens, context, other)?;
    intern_names(tokens, text, names)?;
    let act = build(alloc, tokens, text, names, start)?;
    Ok(Command { place, act })
}

/// Which start's command the tokens are, or why they are none.
fn decide(tokens: &[Token], context: Scan, other: Scan) -> Result<Start, ParseFault>
    requires ends { EndWithSemicolon tokens.now }
    requires context { (bytes : List ℕ) → IsScan (map (item_of bytes) tokens.now) (mode_at Context) context }
    requires other { (bytes : List ℕ) → IsScan (map (item_of bytes) tokens.now) (mode_at Other) other }
    ensures whole { IfOk result (λ start. (bytes : List ℕ) → IsWhole (map (item_of bytes) tokens.now) (mode_at start)) }
    ensures cause { IfErr result (λ fault. (held : Numbering) (bytes : List ℕ) → IsNoCommand held (map (item_of bytes) tokens.now) fault) }
    ensures placed { IfErr result (λ fault. IsPlaced fault) }
{
    if context.stop == tokens.len() {
        return accept(tokens, context, Start::Context);
    }
    if other.stop == tokens.len() {
        return accept(tokens, other, Start::Other);
    }
    Err(refuse(tokens, later(context, other)))
}

/// The start of a scan that went over all tokens, unless one of them is too deep.
fn accept(tokens: &[Token], scan: Scan, start: Start) -> Result<Start, ParseFault>
    requires ends { EndWithSemicolon tokens.now }
    requires scanned { (bytes : List ℕ) → IsScan (map (item_of bytes) tokens.now) (mode_at start) scan }
    requires all { scan.stop ≡ length tokens.now }
    ensures whole { IfOk result (λ start. (bytes : List ℕ) → IsWhole (map (item_of bytes) tokens.now) (mode_at start)) }
    ensures cause { IfErr result (λ fault. (held : Numbering) (bytes : List ℕ) → IsNoCommand held (map (item_of bytes) tokens.now) fault) }
    ensures placed { IfErr result (λ fault. IsPlaced fault) }
{
    match scan.deep {
        Some(at) if at < tokens.len() => Err(too_deep(tokens, at)),
        _ => Ok(start),
    }
}

/// The scan that says how tokens are nested that are no command: the one that went further;
/// where both stopped at one token, that of contexts inside a binding, and else the other.
fn later(context: Scan, other: Scan) -> Scan
    ensures { (items : List Item) → IsScan items (mode_at Context) context → IsScan items (mode_at Other) other
        → context.stop < length items → other.stop < length items → Decides items result }
{
    if context.stop > other.stop {
        return context;
    }
    if context.stop < other.stop {
        return other;
    }
    match context.stage {
        Stage::Behind => other,
        _ => context,
    }
}

/// The refusal of tokens that are no command, by the scan that says how they are nested.
fn refuse(tokens: &[Token], scan: Scan) -> ParseFault
    requires { (bytes : List ℕ) → Decides (map (item_of bytes) tokens.now) scan }
    ensures cause { (held : Numbering) (bytes : List ℕ) → IsNoCommand held (map (item_of bytes) tokens.now) result }
    ensures placed { IsPlaced result }
{
    match scan.deep {
        Some(at) => too_deep(tokens, at),
        None => unexpected(tokens, scan.stop),
    }
}

fn unexpected(tokens: &[Token], at: usize) -> ParseFault
    requires { at < length tokens.now }
    ensures { (t : Placed) → result ≡ Fault.Unexpected (get_or tokens.now at t).place }
{
    ParseFault::Unexpected {
        place: tokens[at].place,
    }
}

fn too_deep(tokens: &[Token], at: usize) -> ParseFault
    requires { at < length tokens.now }
    ensures { (t : Placed) → result ≡ Fault.TooDeep (get_or tokens.now at t).place }
{
    ParseFault::TooDeep {
        place: tokens[at].place,
    }
}

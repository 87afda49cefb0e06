//! Blanks and comments, which separate tokens and have no other meaning.
ghost use Rattle.std.specs.Prelude.{◌≡◌, ◌<◌, ◌≤◌, option_map, drop, length, MatchOption};
ghost use Rattle.lego_lexer.specs.Bytes.{is_blank, begins_with, begins_comment, behind_comments, delimiter};
ghost use Rattle.lego_lexer.specs.private.Scanned.{IsGapEnd};

/// Where a walk over bytes ends.
#[derive(Clone, Copy)]
pub enum Stop {
    /// At what it looks for.
    At(usize),
    /// At a comment that does not end.
    Open(usize),
    /// At the end of the bytes.
    End,
}

/// What two bytes are to comments.
#[derive(Clone, Copy)]
pub enum Delimiter {
    /// `(*`.
    Opens,
    /// `*)`.
    Closes,
    Neither,
}

/// What two bytes are to comments.
pub fn delimiter_of(first: u8, second: u8) -> Delimiter
    ensures { result ≡ delimiter first second }
{
    match (first, second) {
        (b'(', b'*') => Delimiter::Opens,
        (b'*', b')') => Delimiter::Closes,
        _ => Delimiter::Neither,
    }
}

/// Whether a byte is a blank.
pub fn is_blank(byte: u8) -> bool
    ensures { result ≡ is_blank byte }
{
    byte == b' ' || byte == b'\t' || byte == b'\r' || byte == b'\n'
}

/// Whether these two bytes stand at the index.
pub fn begins_with(bytes: &[u8], at: usize, first: u8, second: u8) -> bool
    requires { at < length bytes.now }
    ensures { result ≡ begins_with first second (drop at bytes.now) }
{
    if bytes.len() - at < 2 {
        return false;
    }
    bytes[at] == first && bytes[at + 1] == second
}

/// Whether `(*` stands at the index.
pub fn begins_comment(bytes: &[u8], at: usize) -> bool
    requires { at < length bytes.now }
    ensures { result ≡ begins_comment (drop at bytes.now) }
{
    begins_with(bytes, at, b'(', b'*')
}

/// The index behind a comment, whose inside begins at `from`; comments nest.
pub fn comment_end(bytes: &[u8], from: usize) -> Option<usize>
    requires { from ≤ length bytes.now }
    ensures within { MatchOption result (Unit {0}) (λ end. (from < end) × (end ≤ length bytes.now)) }
    ensures ends { behind_comments 1 (drop from bytes.now) ≡ option_map (λ end. drop end bytes.now) result }
{
    let mut depth: usize = 1;
    let mut at = from;
    while at + 1 < bytes.len() {
        match delimiter_of(bytes[at], bytes[at + 1]) {
            Delimiter::Opens => {
                depth += 1;
                at += 2;
            }
            Delimiter::Closes => {
                depth -= 1;
                at += 2;
                if depth == 0 {
                    return Some(at);
                }
            }
            Delimiter::Neither => at += 1,
        }
    }
    None
}

/// The first byte from `from` on outside blanks and comments.
pub fn gap_end(bytes: &[u8], from: usize) -> Stop
    requires { from ≤ length bytes.now }
    ensures { IsGapEnd bytes.now from result }
{
    let mut at = from;
    while at < bytes.len() {
        if is_blank(bytes[at]) {
            at += 1;
        } else if begins_comment(bytes, at) {
            match comment_end(bytes, at + 2) {
                Some(end) => at = end,
                None => return Stop::Open(at),
            }
        } else {
            return Stop::At(at);
        }
    }
    Stop::End
}

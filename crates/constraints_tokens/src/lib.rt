// The next token of constraints.json, and in `names` what its word may name. ../../rules/specs/Tokens.antt says what a token is. The walk of `constraints` takes one after the other.
#![tactic(auto)]

ghost use Rattle.std.specs.Prelude.{◌≡◌, true, ◌+◌, ◌≤◌, ◌<◌, length, get_or, drop};
ghost use Rattle.rules.specs.Lists.{lead};
ghost use Rattle.rules.specs.Tokens.{is_white, in_run, in_string, quote, sign_of};
ghost use Rattle.constraints_tokens.specs.Seen.{sign_or, Seen, Within, Black, Skipped};

use rules::tokens::Class;

pub mod names;

// The word is a run, or a string without its quotes. `next` is the place just past the token.
#[derive(Clone, Copy)]
pub struct Token<'a> {
    pub class: Class,
    pub word: &'a [u8],
    pub place: u32,
    pub next: u32,
}

// Space, tab, LF, CR.
fn is_white(b: u8) -> bool
    ensures { result ≡ is_white b }
{
    matches!(b, b' ' | b'\t' | b'\n' | b'\r')
}

// { } [ ] : and , are signs. Any other byte is taken for part of a run.
fn sign_of(b: u8) -> Class
    ensures { result ≡ sign_or (sign_of b) }
{
    match b {
        b'{' => Class::OpenBrace,
        b'}' => Class::CloseBrace,
        b'[' => Class::OpenBracket,
        b']' => Class::CloseBracket,
        b':' => Class::Colon,
        b',' => Class::Comma,
        _ => Class::Run,
    }
}

// All bytes that are neither white, nor a quote, nor a sign.
fn in_run(b: u8) -> bool
    ensures { result ≡ in_run b }
{
    !matches!(
        b,
        b' ' | b'\t' | b'\n' | b'\r' | b'"' | b'{' | b'}' | b'[' | b']' | b':' | b','
    )
}

// Bytes 32 to 126 but quotes and backslashes.
fn in_string(b: u8) -> bool
    ensures { result ≡ in_string b }
{
    matches!(b, b' '..=b'~') && b != b'"' && b != b'\\'
}

// The first place from `at` on that is not white, or the end.
fn past_white(s: &[u8], at: usize) -> usize
    requires { at ≤ length s.now }
    ensures { Skipped s.now at result }
{
    for i in at..s.len() {
        if !is_white(s[i]) {
            return i;
        }
    }
    s.len()
}

// The end of the run that goes on from `at`.
fn run_end(s: &[u8], at: usize) -> usize
    ensures { result ≡ at + length (lead in_run (drop at s.now)) }
{
    for i in at..s.len() {
        if !in_run(s[i]) {
            return i;
        }
    }
    s.len().max(at)
}

// The end of the clean bytes of a string that go on from `at`.
fn string_end(s: &[u8], at: usize) -> usize
    ensures { result ≡ at + length (lead in_string (drop at s.now)) }
{
    for i in at..s.len() {
        if !in_string(s[i]) {
            return i;
        }
    }
    s.len().max(at)
}

// A string that opens at `at`: its closing quote, the text's end or a forbidden byte comes after its clean bytes.
fn string_token(s: &[u8], at: usize) -> Token<'_>
    requires { Black s.now at × (get_or s.now at 0 ≡ quote) }
    ensures { Seen s.now at result }
{
    let from = at + 1;
    let end = string_end(s, from);
    let (class, next) = match s.get(end) {
        None => (Class::Unclosed, end),
        Some(b'"') => (Class::Quoted, end + 1),
        Some(_) => (Class::Forbidden, end),
    };
    Token {
        class,
        word: &s[from..end],
        place: at as u32,
        next: next as u32,
    }
}

// The token that starts at a byte that is not white.
fn token_here(s: &[u8], at: usize) -> Token<'_>
    requires { Black s.now at }
    ensures { Seen s.now at result }
{
    let b = s[at];
    if b == b'"' {
        return string_token(s, at);
    }
    if in_run(b) {
        let end = run_end(s, at);
        return Token {
            class: Class::Run,
            word: &s[at..end],
            place: at as u32,
            next: end as u32,
        };
    }
    Token {
        class: sign_of(b),
        word: &[],
        place: at as u32,
        next: at as u32 + 1,
    }
}

// The first token at or after `at`; at the text's end the last one, which is empty.
pub fn token_at(s: &[u8], at: usize) -> Token<'_>
    requires { Within s.now at }
    ensures { Seen s.now at result }
{
    let from = past_white(s, at);
    if from < s.len() {
        return token_here(s, from);
    }
    Token {
        class: Class::End,
        word: &[],
        place: from as u32,
        next: from as u32,
    }
}

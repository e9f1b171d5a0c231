//! The tokens that are left to be read, and the steps that read one of them.
#![tactic(auto, using(crate::proofs::Steps::steps))]

ghost use Rattle.std.specs.Prelude.{◌≡◌, ◌≤◌, ◌<◌, ◌+◌, ◌∷◌, [], IsSome, IfOk, IsTrue, length, drop, All};
ghost use Rattle.spj_syntax.specs.Lexemes.{Word, Number, Mark};
ghost use Rattle.cqa_value.specs.Literals.{integer_of, are_digits, without_minus};
ghost use Rattle.spj_syntax.specs.Grammar.{literal};
ghost use Rattle.spj_syntax.specs.Limits.{most_tokens};
ghost use Rattle.spj_syntax.specs.Parsed.{lexemes};
ghost use Rattle.spj_syntax.specs.Reading.{Reads, front_of, seen, SeenSound, IsReadable};
ghost use Rattle.spj_syntax.specs.Written.{name_tokens};
ghost use Rattle.cqa_model.specs.Valid.{IsName};
ghost use Rattle.spj_syntax.specs.Shapes.{word, name, int, mark, one};
ghost use Rattle.spj_syntax.specs.Walk.{Opens};

use crate::leaf::{kept_word, short_name};
use cqa_value::{Name, NoMemory};
use script_lex::{Symbol, Token, TokenKind};
use std::alloc::Global;
use std::marker::Model;

/// Why reading stopped: want of memory, or a token that no statement goes on with.
#[derive(Clone, Copy, Debug, PartialEq, Eq)]
pub enum Stop {
    NoMemory,
    Syntax,
}

impl From<NoMemory> for Stop {
    ghost use Rattle.spj_syntax.specs.declared.reader.Stop.TheVariants.{NoMemory};

    ghost from_gives = { λ _ e. e ≡ NoMemory };

    fn from(_: NoMemory) -> Self {
        Stop::NoMemory
    }
}

/// What stands first: a token by its bytes, those of a text without its outer quotes, or the end.
#[derive(Clone, Copy)]
pub enum Seen<'a> {
    Word(&'a [u8]),
    Int(&'a [u8]),
    Text(&'a [u8]),
    Sym(Symbol),
    End,
}

/// The tokens of a text that are left to be read.
#[derive(Drop)]
pub struct Reader<'a> {
    text: &'a [u8],
    tokens: &'a [Token],
}

impl<'a> Model for Reader<'a> {
    ghost use Rattle.std.specs.Prelude.{List, All, map, length, ◌≤◌};
    ghost use Rattle.spj_syntax.specs.Lexemes.{Lexeme, lexeme};
    ghost use Rattle.spj_syntax.specs.Limits.{most_tokens};
    ghost use Rattle.spj_syntax.specs.Reading.{IsReadable};

    ghost Value = { List Lexeme };

    ghost view = { λ r. map (lexeme r.text.now) r.tokens.now };

    ghost invariant = { λ r. All (IsReadable r.text.now) r.tokens.now × (length r.tokens.now ≤ most_tokens) };
}

impl<'a> Reader<'a> {
    /// All tokens of a text, still to be read.
    pub fn new(text: &'a [u8], tokens: &'a [Token]) -> Reader<'a>
        requires readable { All (IsReadable text.now) tokens.now }
        requires few { length tokens.now ≤ most_tokens }
        ensures { result ≡ lexemes text.now tokens.now }
    {
        Reader { text, tokens }
    }

    /// How many tokens are left.
    pub fn count(&self) -> usize
        ensures left { result ≡ length self.now }
        ensures few { result ≤ most_tokens }
    {
        self.tokens.len()
    }

    /// How many tokens stand before the next closing bracket, and how many commas among them.
    fn ahead(&self) -> (usize, usize)
        ensures { (result.0 ≤ length self.now) × (result.1 ≤ length self.now) }
    {
        let mut commas = 0;
        for (count, token) in self.tokens.iter().enumerate() {
            match token.kind {
                TokenKind::Sym(Symbol::Close) => return (count, commas),
                TokenKind::Sym(Symbol::Comma) => commas += 1,
                _ => {}
            }
        }
        (self.tokens.len(), commas)
    }

    /// A guess how many items a list has that stands first, good enough to make room by: one more than the commas up to the next
    /// closing bracket; where an opening one stands first, as many as would take all tokens.
    pub fn listed_ahead(&self) -> usize
        ensures { result ≤ length self.now + 1 }
    {
        let (count, commas) = self.ahead();
        if self.sees_mark(Symbol::Open) {
            return self.tokens.len() / (count + 2) + 1;
        }
        commas + 1
    }

    /// What stands first.
    #[inline(always)]
    pub fn peek(&self) -> Seen<'a>
        ensures front { front_of self.now ≡ seen result }
        ensures sound { SeenSound result }
    {
        if self.tokens.is_empty() {
            return Seen::End;
        }
        let token = self.tokens[0];
        let bytes = &self.text[token.span.from..token.span.to];
        match token.kind {
            TokenKind::Word => Seen::Word(bytes),
            TokenKind::Int => Seen::Int(bytes),
            TokenKind::Text => Seen::Text(&bytes[1..bytes.len() - 1]),
            TokenKind::Sym(symbol) => Seen::Sym(symbol),
        }
    }

    /// Goes past the first token.
    #[inline(always)]
    pub fn advance(&mut self)
        requires { IsSome (front_of self.old) }
        ensures { self.new ≡ drop 1 self.old }
    {
        self.tokens = &self.tokens[1..];
    }

    /// Whether a word stands first, this one.
    pub fn sees_word(&self, wanted: &[u8]) -> bool
        ensures { Opens result (one (word wanted.now)) self.now }
    {
        match self.peek() {
            Seen::Word(found) => wanted == found,
            _ => false,
        }
    }

    /// Whether a name stands first: any word but `primary`.
    pub fn sees_name(&self) -> bool
        ensures { Opens result (one name) self.now }
    {
        match self.peek() {
            Seen::Word(found) => b"primary".as_slice() != found,
            _ => false,
        }
    }

    /// Whether an integer or a text stands first.
    #[inline(always)]
    pub fn sees_literal(&self) -> bool
        ensures { Opens result literal self.now }
    {
        matches!(self.peek(), Seen::Int(_) | Seen::Text(_))
    }

    /// Whether this mark stands first.
    #[inline(always)]
    pub fn sees_mark(&self, symbol: Symbol) -> bool
        ensures { Opens result (one (mark symbol)) self.now }
    {
        match self.peek() {
            Seen::Sym(found) => symbol == found,
            _ => false,
        }
    }

    /// Reads this word.
    pub fn word(&mut self, wanted: &[u8]) -> Result<(), Stop>
        ensures { Reads (one (word wanted.now)) (λ _. Word wanted.now ∷ []) result self.old self.new }
    {
        if self.sees_word(wanted) {
            self.advance();
            Ok(())
        } else {
            Err(Stop::Syntax)
        }
    }

    /// Reads this mark.
    #[inline(always)]
    pub fn mark(&mut self, symbol: Symbol) -> Result<(), Stop>
        ensures { Reads (one (mark symbol)) (λ _. Mark symbol ∷ []) result self.old self.new }
    {
        if self.sees_mark(symbol) {
            self.advance();
            Ok(())
        } else {
            Err(Stop::Syntax)
        }
    }

    /// Reads a name.
    pub fn name(&mut self, alloc: Global) -> Result<Name, Stop>
        ensures reads { Reads (one name) name_tokens result self.old self.new }
        ensures named { IfOk result (λ n. IsName n) }
    {
        match self.peek() {
            Seen::Word(bytes) => {
                if b"primary".as_slice() == bytes {
                    return Err(Stop::Syntax);
                }
                let name = short_name(alloc, kept_word(bytes))?;
                self.advance();
                Ok(name)
            }
            _ => Err(Stop::Syntax),
        }
    }

    /// Reads an integer, and gives its bytes.
    pub fn int(&mut self) -> Result<&'a [u8], Stop>
        ensures reads { Reads (one int) (λ digits. Number (integer_of digits.now) ∷ []) result self.old self.new }
        ensures digits { IfOk result (λ digits. IsTrue (are_digits (without_minus digits.now))) }
        ensures first { IfOk result (λ digits. self.old ≡ Number (integer_of digits.now) ∷ self.new) }
    {
        match self.peek() {
            Seen::Int(digits) => {
                self.advance();
                Ok(digits)
            }
            _ => Err(Stop::Syntax),
        }
    }
}

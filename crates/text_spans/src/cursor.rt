//! The tokens of a text, each with the place where it stands.
ghost use Rattle.std.specs.Prelude.{◌≡◌, ◌∷◌, [], ℕ, true, IfOk, List, MatchOption, None, Some};
ghost use Rattle.std.specs.Bool.{MatchBool};
ghost use Rattle.json.specs.Json.{after_end_array, skip_value};
ghost use Rattle.json.specs.Lex.{after_value, between, lex, punctuate, tokens};
ghost use Rattle.json.specs.Reads.{token_of};
ghost use Rattle.json.specs.Token.{Token as Kind};
ghost use Rattle.text_spans.specs.Place.{GoOn, IsEnd, Left, Stand, begins_token, closed, from_token as token_start, is_closing, is_opening};

use crate::lexemes::{after_token, from_token};
use json::{Reader, Scratch, Token};
use std::alloc::AllocError;

/// The tokens that are left of a text, and the text that they stand in.
#[derive(Drop)]
pub struct Cursor<'a> {
    /// The tokens that are left.
    pub reader: Reader<'a>,
    /// The text that is left.
    pub rest: &'a [u8],
}

impl<'a> Cursor<'a> {
    /// All tokens of a text.
    pub fn new(text: &'a str, scratch: &'a mut Scratch) -> Result<Cursor<'a>, AllocError>
        ensures { IfOk result (λ c. (c.reader ≡ tokens text.now) × (c.rest.now ≡ text.now)) }
    {
        let reader = Reader::new(text, scratch)?;
        Ok(Cursor {
            reader,
            rest: text.as_bytes(),
        })
    }

    /// The text from the next token on.
    pub fn from_next(&self) -> &'a [u8]
        ensures here { result.now ≡ token_start self.now.rest.now }
        ensures placed { (ts : List Kind) → Stand ts self.now.rest.now → Stand ts result.now }
        ensures begins { begins_token result.now ≡ true }
        ensures end { IsEnd result.now self.now.rest.now }
    {
        from_token(self.rest)
    }

    /// Takes the next token.
    pub fn next(&mut self) -> Option<Token<'a>>
        requires stands { Stand self.old.reader self.old.rest.now }
        ensures value { MatchOption result ((self.old.reader ≡ []) × (self.new.reader ≡ []))
            (λ t. (self.old.reader ≡ token_of t ∷ self.new.reader) × Left (token_of t) self.new.reader (λ p. punctuate p (lex between self.new.rest.now))) }
        ensures stands { Stand self.new.reader self.new.rest.now }
        ensures passed { GoOn self.old.reader self.old.rest.now self.new.reader self.new.rest.now }
        ensures end { IsEnd self.new.rest.now self.old.rest.now }
    {
        let token = self.reader.next()?;
        self.rest = after_token(from_token(self.rest));
        Some(token)
    }

    /// Takes the bracket that closes a list, if it is next, and tells whether it was.
    pub fn take_end_list(&mut self) -> bool
        requires stands { Stand self.old.reader self.old.rest.now }
        ensures value { MatchBool result (after_end_array self.old.reader ≡ Some self.new.reader)
            ((after_end_array self.old.reader ≡ None) × (self.new ≡ self.old)) }
        ensures stands { Stand self.new.reader self.new.rest.now }
        ensures passed { GoOn self.old.reader self.old.rest.now self.new.reader self.new.rest.now }
    {
        let ends = self.reader.take_end_array();
        if ends {
            self.rest = after_token(from_token(self.rest));
        }
        ends
    }

    /// Takes the tokens of the next value.
    pub fn pass_value(&mut self)
        requires stands { Stand self.old.reader self.old.rest.now }
        ensures value { (depth : ℕ) (rest : List Kind) → skip_value depth self.old.reader ≡ Some rest
            → (self.new.reader ≡ rest) × (self.new.reader ≡ punctuate after_value (lex between self.new.rest.now)) }
        ensures stands { Stand self.new.reader self.new.rest.now }
        ensures passed { GoOn self.old.reader self.old.rest.now self.new.reader self.new.rest.now }
        ensures end { IsEnd self.new.rest.now self.old.rest.now }
    {
        if let Some(token) = self.next() {
            if opens(&token) {
                self.close();
            }
        }
    }

    /// Takes what is left of the list or object that is open, with the bracket that closes it.
    pub fn close(&mut self)
        requires stands { Stand self.old.reader self.old.rest.now }
        ensures closed { (rest : List Kind) → closed 1 self.old.reader ≡ Some rest
            → (self.new.reader ≡ rest) × (self.new.reader ≡ punctuate after_value (lex between self.new.rest.now)) }
        ensures stands { Stand self.new.reader self.new.rest.now }
        ensures passed { GoOn self.old.reader self.old.rest.now self.new.reader self.new.rest.now }
        ensures end { IsEnd self.new.rest.now self.old.rest.now }
    {
        // No more brackets are open than bytes are left, and the one.
        let bytes = self.rest.len();
        let most = bytes + 2;
        let mut depth: usize = 1;
        'tokens: while let Some(token) = self.next() {
            if opens(&token) {
                prove!(depth < most);
                depth += 1;
            } else if closes(&token) {
                depth -= 1;
                if depth == 0 {
                    return;
                }
            }
        }
    }
}

/// Whether a list or an object opens.
fn opens(token: &Token<'_>) -> bool
    ensures { result ≡ is_opening (token_of token.now) }
{
    matches!(token, Token::BeginArray | Token::BeginObject)
}

/// Whether a list or an object closes.
fn closes(token: &Token<'_>) -> bool
    ensures { result ≡ is_closing (token_of token.now) }
{
    matches!(token, Token::EndArray | Token::EndObject)
}

//! A line that is written token by token, into buffers that outlive it.
ghost use Rattle.std.specs.Prelude.{◌≡◌, ◌++◌, ◌∷◌, [], codes, decimal, IfOk, OnOk};
ghost use Rattle.json.specs.Print.{IsPrintable, print};
ghost use Rattle.json.specs.Reads.{token_of};
ghost use Rattle.json.specs.Token.{begin_array, begin_object, boolean, end_array, end_object, key, null, number, string};
ghost use Rattle.exec_replies.specs.Tokens.{array_member, flag_member, number_member, text_member, text_or_null_member};
ghost use Rattle.exec_commands.specs.Messages.{message_of};
ghost use Rattle.exec_replies.specs.Service.{lent};

use crate::line_buffer::LineBuffer;
use exec_commands::{About, add_message};
use growth::{Refused, granted, push};
use json::{Token, Writer};
use ocf_model::Refusal;
use std::marker::Model;
use std::mem;

/// A line as the JSON tokens that were written so far, without spaces.
#[derive(Drop)]
pub struct LineTokens {
    out: Writer,
    message: String,
}

impl Model for LineTokens {
    ghost use Rattle.std.specs.Prelude.{◌≡◌, List, []};
    ghost use Rattle.json.specs.Token.{Token, tokens_code};

    ghost Value = { List Token };

    ghost coded = { tokens_code };

    ghost view = { λ t. t.out.tokens };

    ghost invariant = { λ t. t.out.before ≡ [] };
}

impl LineTokens {
    /// Begins a line in a buffer, which is empty until the line is put back into it.
    pub fn within(buffer: &mut LineBuffer) -> Result<Self, Refused>
        ensures tokens { IfOk result (λ t. t ≡ []) }
    {
        let line = buffer.take_line()?;
        Ok(LineTokens {
            out: Writer::new(line),
            message: buffer.take_message(),
        })
    }

    #[tactic(auto, using(growth::specs::Refused::refuses))]
    fn put(&mut self, token: Token) -> Result<(), Refused>
        requires { IsPrintable (token_of token) }
        ensures ok { OnOk result (self.new ≡ self.old ++ token_of token.entry ∷ []) }
    {
        // TRUSTED: it fails only where the memory that it takes is refused.
        granted(self.out.token(token))
    }

    pub fn begin_object(&mut self) -> Result<(), Refused>
        ensures ok { OnOk result (self.new ≡ self.old ++ begin_object ∷ []) }
    {
        self.put(Token::BeginObject)
    }

    pub fn end_object(&mut self) -> Result<(), Refused>
        ensures ok { OnOk result (self.new ≡ self.old ++ end_object ∷ []) }
    {
        self.put(Token::EndObject)
    }

    /// Begins an array that is the value of this key.
    pub fn begin_array(&mut self, name: &str) -> Result<(), Refused>
        ensures ok { OnOk result (self.new ≡ self.old ++ array_member name.now) }
    {
        self.put(Token::Key(name))?;
        self.put(Token::BeginArray)
    }

    pub fn end_array(&mut self) -> Result<(), Refused>
        ensures ok { OnOk result (self.new ≡ self.old ++ end_array ∷ []) }
    {
        self.put(Token::EndArray)
    }

    /// Writes a key.
    pub fn name(&mut self, name: &str) -> Result<(), Refused>
        ensures ok { OnOk result (self.new ≡ self.old ++ key name.now ∷ []) }
    {
        self.put(Token::Key(name))
    }

    pub fn text_value(&mut self, text: &str) -> Result<(), Refused>
        ensures ok { OnOk result (self.new ≡ self.old ++ string text.now ∷ []) }
    {
        self.put(Token::String(text))
    }

    #[tactic(auto, using(growth::specs::Refused::refuses))]
    pub fn number_value(&mut self, n: u64) -> Result<(), Refused>
        ensures ok { OnOk result (self.new ≡ self.old ++ number (decimal n) ∷ []) }
    {
        // TRUSTED: it fails only where the memory that it takes is refused.
        granted(self.out.u64(n))
    }

    pub fn null_value(&mut self) -> Result<(), Refused>
        ensures ok { OnOk result (self.new ≡ self.old ++ null ∷ []) }
    {
        self.put(Token::Null)
    }

    /// Writes a member whose value is a text.
    #[tactic(auto, unfolding(crate::specs::Tokens::text_member))]
    pub fn text(&mut self, name: &str, text: &str) -> Result<(), Refused>
        ensures ok { OnOk result (self.new ≡ self.old ++ text_member name.now text.now) }
    {
        self.name(name)?;
        self.text_value(text)
    }

    /// Writes a member whose value is a number.
    #[tactic(auto, unfolding(crate::specs::Tokens::number_member))]
    pub fn number(&mut self, name: &str, n: u64) -> Result<(), Refused>
        ensures ok { OnOk result (self.new ≡ self.old ++ number_member name.now n) }
    {
        self.name(name)?;
        self.number_value(n)
    }

    /// Writes a member that is true or false.
    #[tactic(auto, unfolding(crate::specs::Tokens::flag_member))]
    pub fn flag(&mut self, name: &str, flag: bool) -> Result<(), Refused>
        ensures ok { OnOk result (self.new ≡ self.old ++ flag_member name.now flag) }
    {
        self.name(name)?;
        self.put(Token::Bool(flag))
    }

    /// Writes a member whose value is a text, or null where there is none.
    #[tactic(auto, unfolding(crate::specs::Tokens::text_member))]
    pub fn text_or_null(&mut self, name: &str, text: Option<&str>) -> Result<(), Refused>
        ensures ok { OnOk result (self.new ≡ self.old ++ text_or_null_member name.now (lent text.entry)) }
    {
        match text {
            Some(text) => self.text(name, text),
            None => {
                self.name(name)?;
                self.null_value()
            }
        }
    }

    /// Writes the member `message` of a refusal.
    pub fn message(&mut self, why: Refusal, about: &About) -> Result<(), Refused>
        ensures ok { OnOk result (self.new ≡ self.old ++ text_member (codes "message") (message_of why about.now)) }
    {
        let alloc = *self.message.allocator();
        let mut message = mem::replace(&mut self.message, String::new(alloc));
        message.clear();
        add_message(&mut message, why, about)?;
        self.text("message", message.as_str())?;
        self.message = message;
        Ok(())
    }

    /// The text of the line, and a newline.
    pub fn into_line(self) -> Result<LineBuffer, Refused>
        ensures line { IfOk result (λ b. b.line.items ≡ print self ++ 10 ∷ []) }
    {
        let LineTokens { out, message } = self;
        let mut line = out.into_inner();
        push(&mut line, b'\n')?;
        Ok(LineBuffer { line, message })
    }
}

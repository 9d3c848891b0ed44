//! JSON that is written straight into its text.

ghost use Rattle.std.specs.Prelude.{◌≡◌, [], ◌∷◌, ◌++◌, IfOk, IsTrue, OnErr, OnOk, decimal, string_bytes};
ghost use Rattle.std.specs.Fmt.{signed_decimal};
ghost use Rattle.json.specs.Lex.{tokens};
ghost use Rattle.json.specs.Print.{print, token_text};
ghost use Rattle.json.specs.Token as token;
ghost use Rattle.ent_json.specs.Fragments.{is_fragment};
ghost use Rattle.ent_json.specs.Dotted.{dotted};

use crate::bytes::{append, append_dotted, append_key, append_string};
use itoa::Buffer;
use std::alloc::{AllocError, Global};
use std::marker::Model;

/// What most replies need.
const USUAL_BYTES: usize = 512;

/// The text of a JSON value that is written a token at a time, or some constant tokens at once, so that no value has
/// to be built for it. Contracts see the tokens that were written; that they nest is left to who writes them. Each call
/// writes its tokens whole, or nothing where memory runs out.
#[derive(Drop)]
pub struct JsonText {
    bytes: Vec<u8>,
    after_value: bool,
}

impl Model for JsonText {
    ghost use Rattle.std.specs.Prelude.{List};
    ghost use Rattle.json.specs.Lex.{tokens};
    ghost use Rattle.json.specs.Token.{Token, tokens_code};
    ghost use Rattle.ent_json.specs.proofs_only.Written.{IsWritten};

    ghost Value = { List Token };

    ghost coded = { tokens_code };

    ghost view = { λ t. tokens t.bytes.items };

    ghost invariant = { λ t. IsWritten t.bytes.items t.after_value };
}

/// The text of a flag.
fn flag_text(flag: bool) -> &'static str
    ensures { result.now ≡ token_text (token.boolean flag) }
{
    if flag { "true" } else { "false" }
}

impl JsonText {
    /// A text with nothing in it. Nothing is allocated.
    ///
    /// Its contract is an equation.
    pub fn new(alloc: Global) -> JsonText
        ensures { result ≡ [] }
    {
        JsonText {
            bytes: Vec::new(alloc),
            after_value: false,
        }
    }

    /// A text with nothing in it that has room for most replies, 512 bytes.
    ///
    /// # Errors
    ///
    /// `AllocError` if there is no memory for the room.
    ///
    /// Its contract is an equation but for memory.
    pub fn with_room(alloc: Global) -> Result<JsonText, AllocError>
        ensures { IfOk result (λ t. t ≡ []) }
    {
        let bytes = Vec::with_capacity(alloc, USUAL_BYTES)?;
        Ok(JsonText {
            bytes,
            after_value: false,
        })
    }

    /// The tokens of a constant text that stands in front of a value or a member, as `"why":`, `{"action":` or `[`. A
    /// comma is put before it where one belongs there. It costs one copy, where its tokens one by one cost several.
    ///
    /// Its contract is an equation but for memory.
    #[inline(always)]
    pub fn raw(&mut self, fragment: &str) -> Result<(), AllocError>
        requires { IsTrue (is_fragment fragment.now) }
        ensures ok { OnOk result (self.new ≡ self.old ++ tokens fragment.now) }
        ensures err { OnErr result (self.new ≡ self.old) }
    {
        append(&mut self.bytes, self.after_value, fragment.as_bytes())?;
        self.after_value = false;
        Ok(())
    }

    /// `{`
    ///
    /// Its contract is an equation but for memory.
    #[inline]
    pub fn begin_object(&mut self) -> Result<(), AllocError>
        ensures ok { OnOk result (self.new ≡ self.old ++ token.begin_object ∷ []) }
        ensures err { OnErr result (self.new ≡ self.old) }
    {
        self.raw("{")
    }

    /// `}`
    ///
    /// Its contract is an equation but for memory.
    #[inline]
    pub fn end_object(&mut self) -> Result<(), AllocError>
        ensures ok { OnOk result (self.new ≡ self.old ++ token.end_object ∷ []) }
        ensures err { OnErr result (self.new ≡ self.old) }
    {
        append(&mut self.bytes, false, b"}")?;
        self.after_value = true;
        Ok(())
    }

    /// `[`
    ///
    /// Its contract is an equation but for memory.
    #[inline]
    pub fn begin_array(&mut self) -> Result<(), AllocError>
        ensures ok { OnOk result (self.new ≡ self.old ++ token.begin_array ∷ []) }
        ensures err { OnErr result (self.new ≡ self.old) }
    {
        self.raw("[")
    }

    /// `]`
    ///
    /// Its contract is an equation but for memory.
    #[inline]
    pub fn end_array(&mut self) -> Result<(), AllocError>
        ensures ok { OnOk result (self.new ≡ self.old ++ token.end_array ∷ []) }
        ensures err { OnErr result (self.new ≡ self.old) }
    {
        append(&mut self.bytes, false, b"]")?;
        self.after_value = true;
        Ok(())
    }

    /// The key of the next member.
    ///
    /// Its contract is an equation but for memory.
    #[inline]
    pub fn key(&mut self, name: &str) -> Result<(), AllocError>
        ensures ok { OnOk result (self.new ≡ self.old ++ token.key name.now ∷ []) }
        ensures err { OnErr result (self.new ≡ self.old) }
    {
        append_key(&mut self.bytes, self.after_value, name)?;
        self.after_value = false;
        Ok(())
    }

    /// A text.
    ///
    /// Its contract is an equation but for memory.
    #[inline]
    pub fn string(&mut self, text: &str) -> Result<(), AllocError>
        ensures ok { OnOk result (self.new ≡ self.old ++ token.string text.now ∷ []) }
        ensures err { OnErr result (self.new ≡ self.old) }
    {
        append_string(&mut self.bytes, self.after_value, text)?;
        self.after_value = true;
        Ok(())
    }

    /// The text of numbers with a point between each two, as a version has it.
    ///
    /// Its contract is an equation but for memory.
    pub fn dotted(&mut self, numbers: &[u32]) -> Result<(), AllocError>
        ensures ok { OnOk result (self.new ≡ self.old ++ token.string (dotted numbers.now) ∷ []) }
        ensures err { OnErr result (self.new ≡ self.old) }
    {
        append_dotted(&mut self.bytes, self.after_value, numbers)?;
        self.after_value = true;
        Ok(())
    }

    /// A whole number.
    ///
    /// Its contract is an equation but for memory.
    pub fn integer(&mut self, integer: i64) -> Result<(), AllocError>
        ensures ok { OnOk result (self.new ≡ self.old ++ token.number (signed_decimal integer) ∷ []) }
        ensures err { OnErr result (self.new ≡ self.old) }
    {
        let mut buffer = Buffer::new();
        append(
            &mut self.bytes,
            self.after_value,
            buffer.format(integer).as_bytes(),
        )?;
        self.after_value = true;
        Ok(())
    }

    /// A number of things.
    ///
    /// Its contract is an equation but for memory.
    pub fn count(&mut self, count: u64) -> Result<(), AllocError>
        ensures ok { OnOk result (self.new ≡ self.old ++ token.number (decimal count) ∷ []) }
        ensures err { OnErr result (self.new ≡ self.old) }
    {
        let mut buffer = Buffer::new();
        append(
            &mut self.bytes,
            self.after_value,
            buffer.format(count).as_bytes(),
        )?;
        self.after_value = true;
        Ok(())
    }

    /// `true` or `false`.
    ///
    /// Its contract is an equation but for memory.
    pub fn boolean(&mut self, flag: bool) -> Result<(), AllocError>
        ensures ok { OnOk result (self.new ≡ self.old ++ token.boolean flag ∷ []) }
        ensures err { OnErr result (self.new ≡ self.old) }
    {
        append(
            &mut self.bytes,
            self.after_value,
            flag_text(flag).as_bytes(),
        )?;
        self.after_value = true;
        Ok(())
    }

    /// `null`
    ///
    /// Its contract is an equation but for memory.
    pub fn null(&mut self) -> Result<(), AllocError>
        ensures ok { OnOk result (self.new ≡ self.old ++ token.null ∷ []) }
        ensures err { OnErr result (self.new ≡ self.old) }
    {
        append(&mut self.bytes, self.after_value, b"null")?;
        self.after_value = true;
        Ok(())
    }

    /// The text of the tokens, without spaces, which is moved and not copied.
    ///
    /// Its contract is an equation.
    pub fn into_string(self) -> String
        ensures { string_bytes result ≡ print self }
    {
        let JsonText { bytes, .. } = self;
        unsafe { String::from_utf8_unchecked(bytes) }
    }
}

//! The text of a JSON value.
ghost use Rattle.std.specs.Prelude.{◌≡◌, ◌++◌, ◌∷◌, [], IfOk, OnOk, decimal};
ghost use Rattle.std.specs.Fmt.{signed_decimal};
ghost use Rattle.std.specs.String.{string_bytes};
ghost use Rattle.json.specs.Lex.{tokens};
ghost use Rattle.json.specs.Print.{print};
ghost use Rattle.json.specs.Token.{begin_array, begin_object, boolean, end_array, end_object, key, null, number, string};

use json::Writer;
use std::alloc::Global;
use zk_path::NoMemory;

/// The capacity reserved for a line before it is written, in bytes. Most lines fit.
const LINE: usize = 1024;

/// The text of a JSON value, of which the tokens are appended one after another.
#[derive(Drop)]
pub(crate) struct JsonText {
    pub(crate) alloc: Global,
    writer: Writer<Global>,
    ghost fresh: { writer.before ≡ [] },
}

impl JsonText {
    /// No token yet.
    pub(crate) fn new(alloc: Global) -> Result<JsonText, NoMemory>
        ensures { IfOk result (λ json. json.writer.tokens ≡ []) }
    {
        let bytes = Vec::with_capacity(alloc, LINE)?;
        Ok(JsonText {
            alloc,
            writer: Writer::new(bytes),
        })
    }

    pub(crate) fn into_text(self) -> String
        ensures text { string_bytes result ≡ print self.writer.tokens }
        ensures read { tokens (print self.writer.tokens) ≡ self.writer.tokens }
    {
        let JsonText { writer, .. } = self;
        let bytes = writer.into_inner();
        // The writer's text is proved to be UTF-8.
        unsafe { String::from_utf8_unchecked(bytes) }
    }

    pub(crate) fn open_object(&mut self) -> Result<(), NoMemory>
        ensures { OnOk result (self.new.writer.tokens ≡ self.old.writer.tokens ++ begin_object ∷ []) }
    {
        self.writer.begin_object()?;
        Ok(())
    }

    pub(crate) fn close_object(&mut self) -> Result<(), NoMemory>
        ensures { OnOk result (self.new.writer.tokens ≡ self.old.writer.tokens ++ end_object ∷ []) }
    {
        self.writer.end_object()?;
        Ok(())
    }

    pub(crate) fn open_array(&mut self) -> Result<(), NoMemory>
        ensures { OnOk result (self.new.writer.tokens ≡ self.old.writer.tokens ++ begin_array ∷ []) }
    {
        self.writer.begin_array()?;
        Ok(())
    }

    pub(crate) fn close_array(&mut self) -> Result<(), NoMemory>
        ensures { OnOk result (self.new.writer.tokens ≡ self.old.writer.tokens ++ end_array ∷ []) }
    {
        self.writer.end_array()?;
        Ok(())
    }

    /// Appends the name of a field.
    pub(crate) fn push_name(&mut self, name: &str) -> Result<(), NoMemory>
        ensures { OnOk result (self.new.writer.tokens ≡ self.old.writer.tokens ++ key name.now ∷ []) }
    {
        self.writer.key(name)?;
        Ok(())
    }

    pub(crate) fn push_string(&mut self, text: &str) -> Result<(), NoMemory>
        ensures { OnOk result (self.new.writer.tokens ≡ self.old.writer.tokens ++ string text.now ∷ []) }
    {
        self.writer.string(text)?;
        Ok(())
    }

    pub(crate) fn push_signed(&mut self, value: i64) -> Result<(), NoMemory>
        ensures { OnOk result (self.new.writer.tokens ≡ self.old.writer.tokens ++ number (signed_decimal value) ∷ []) }
    {
        self.writer.i64(value)?;
        Ok(())
    }

    pub(crate) fn push_unsigned(&mut self, value: u64) -> Result<(), NoMemory>
        ensures { OnOk result (self.new.writer.tokens ≡ self.old.writer.tokens ++ number (decimal value) ∷ []) }
    {
        self.writer.u64(value)?;
        Ok(())
    }

    pub(crate) fn push_boolean(&mut self, value: bool) -> Result<(), NoMemory>
        ensures { OnOk result (self.new.writer.tokens ≡ self.old.writer.tokens ++ boolean value ∷ []) }
    {
        self.writer.boolean(value)?;
        Ok(())
    }

    pub(crate) fn push_null(&mut self) -> Result<(), NoMemory>
        ensures { OnOk result (self.new.writer.tokens ≡ self.old.writer.tokens ++ null ∷ []) }
    {
        self.writer.null()?;
        Ok(())
    }
}

/// Appends a line with the text of a value.
pub(crate) fn push_text_line(text: &mut String, json: JsonText) -> Result<(), NoMemory>
    ensures line { OnOk result (string_bytes text.new ≡ string_bytes text.old ++ (print json.writer.tokens ++ 10 ∷ [])) }
    ensures read { tokens (print json.writer.tokens) ≡ json.writer.tokens }
{
    let written = json.into_text();
    text.push_str(written.as_str())?;
    text.push('\n')?;
    Ok(())
}

//! A base text, made ready for the buffers over it.
ghost use Rattle.std.specs.Prelude.{◌≡◌, ◌==◌, ◌⊎◌, ◌^◌, ◌≤◌, ◌∷◌, [], length, IfOk, IfErr, OnOk, None, Some};
ghost use Rattle.std.specs.Str.{IsUtf8};
ghost use Rattle.op_model.specs.Histories.{base};
ghost use Rattle.op_model.specs.Rules.{KeepsRule, lf, text_under};
ghost use Rattle.op_model.specs.declared.endings.Endings.TheVariants.{AsIs, Lf};
ghost use Rattle.text_buffer.specs.Buffer.{base_fault, base_under};
ghost use Rattle.text_buffer.specs.declared.faults.NewFault.{NewFault};

use crate::document::Document;
use crate::entering::entered_text;
use crate::faults::text_fault;
use crate::{Endings, Limits, NewFault, OutOfMemory};
use std::alloc::Global;
use std::marker::Model;

/// A base text with all that a buffer over it begins with, made once and shared by the buffers over it. Contracts see
/// its bytes, as they entered, and what the buffers over it do with line endings.
#[derive(Drop)]
pub struct Base {
    document: Document,
    len: u64,
    endings: Endings,
}

impl Model for Base {
    ghost use Rattle.text_buffer.specs.Buffer.{BaseText};

    ghost Value = { BaseText };

    ghost use Rattle.text_buffer.specs.BaseInside.{base_of, IsBaseInside};

    ghost view = { base_of };

    ghost invariant = { IsBaseInside };
}

impl Base {
    /// Makes a base text ready, as it is. Linear in the text.
    ///
    /// # Errors
    ///
    /// `Full`, with 0 held, exactly where the text has more than 2^40 bytes, the greatest limit. `OutOfMemory` if an allocation
    /// fails, and only where the text is not too long.
    pub fn new(alloc: Global, text: &str) -> Result<Base, NewFault>
        ensures ok { OnOk result (base_fault text.now ≡ None) }
        ensures new { IfOk result (λ b. b ≡ base_under AsIs text.now) }
        ensures fault { IfErr result (λ e. (base_fault text.now ≡ Some e)
            ⊎ ((base_fault text.now ≡ None) × (e ≡ NewFault.OutOfMemory))) }
    {
        Base::under(alloc, Endings::AsIs, text)
    }

    /// Makes a base text ready for buffers that hold no CR: each CR LF of the text, and each other CR, enters as one
    /// LF. Linear in the text, of which one copy is made, as by [`Base::new`].
    ///
    /// # Errors
    ///
    /// `Full`, with 0 held, exactly where the text has more than 2^40 bytes once it has entered. `OutOfMemory` if an
    /// allocation fails, and only where the text is not too long.
    pub fn new_lf(alloc: Global, text: &str) -> Result<Base, NewFault>
        ensures ok { OnOk result (base_fault (lf text.now) ≡ None) }
        ensures new { IfOk result (λ b. b ≡ base_under Lf text.now) }
        ensures fault { IfErr result (λ e. (base_fault (lf text.now) ≡ Some e)
            ⊎ ((base_fault (lf text.now) ≡ None) × (e ≡ NewFault.OutOfMemory))) }
    {
        Base::under(alloc, Endings::Lf, text)
    }

    // The base of a text, by what the buffers over it do with line endings.
    fn under(alloc: Global, endings: Endings, text: &str) -> Result<Base, NewFault>
        ensures ok { OnOk result (base_fault (text_under endings text.now) ≡ None) }
        ensures new { IfOk result (λ b. b ≡ base_under endings text.now) }
        ensures fault { IfErr result (λ e. (base_fault (text_under endings text.now) ≡ Some e)
            ⊎ ((base_fault (text_under endings text.now) ≡ None)
            × (e ≡ NewFault.OutOfMemory))) }
    {
        match text_fault(endings, Limits::MOST.bytes, text) {
            Some(fault) => Err(fault),
            None => Ok(Base::over(alloc, endings, text)?),
        }
    }

    // The base of a text that is not too long once it has entered.
    pub(crate) fn over(alloc: Global, endings: Endings, text: &str) -> Result<Base, OutOfMemory>
        requires { length (text_under endings text.now) ≤ 2 ^ 40 }
        ensures { IfOk result (λ b. b ≡ base_under endings text.now) }
    {
        let entered = entered_text(alloc, endings, text)?;
        let len = entered.as_str().len() as u64;
        Ok(Base {
            document: Document::over(alloc, entered)?,
            len,
            endings,
        })
    }

    /// The length of the text, as it entered, in bytes. Constant time; does not allocate.
    pub fn len(&self) -> u64
        ensures { result ≡ length self.now.text }
    {
        self.len
    }

    /// Whether the text has no bytes. Constant time; does not allocate.
    pub fn is_empty(&self) -> bool
        ensures { result ≡ (length self.now.text == 0) }
    {
        self.len == 0
    }

    /// What the buffers over it do with line endings. Constant time; does not allocate.
    pub fn endings(&self) -> Endings
        ensures { result ≡ self.now.endings }
    {
        self.endings
    }

    /// Says what is true of every base, for callers' proofs. Does nothing when it runs.
    pub fn known(&self)
        ensures utf8 { IsUtf8 self.now.text }
        ensures rule { KeepsRule self.now.endings (base self.now.text ∷ []) }
    {
        self.document.known();
    }

    // The document that a buffer over it begins with. Copies nothing.
    pub(crate) fn document(&self) -> Result<Document, OutOfMemory>
        ensures { IfOk result (λ d. d ≡ base self.now.text ∷ []) }
    {
        self.document.share()
    }
}

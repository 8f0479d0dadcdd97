//! Names in tables: short ones stand in place, and the copies of a long one share its text.
ghost use Rattle.std.specs.Prelude.{◌≡◌, IfOk, OnOk};

use arrayvec::ArrayString;
use std::alloc::{AllocError, Global};
use std::marker::Model;
use std::rc::RcStr;

/// The text of a name. Most names have no more than 16 bytes, and take no memory of their own.
#[derive(Drop)]
enum NameText {
    Short(ArrayString<16>),
    Long(RcStr),
}

/// A name of a table's member (TOML v1.0.0, Keys): what a key part means. Any text is a name, the empty one too. The copies
/// of a name of more than 16 bytes share its text, so that a long name that is part of many addresses takes memory once.
#[derive(Drop)]
pub struct Name {
    text: NameText,
}

impl Model for Name {
    ghost use Rattle.std.specs.Prelude.{List, ℕ};
    ghost use Rattle.toml_names.specs.model.Names.{name_bytes};

    ghost Value = { List ℕ };

    ghost view = { λ n. name_bytes n.text };
}

impl Name {
    ghost use Rattle.std.specs.Prelude.{string_bytes};

    /// The name of this text. It takes memory for what the copies of a long one share.
    pub fn of(text: String) -> Result<Name, AllocError>
        ensures { IfOk result (λ n. n ≡ string_bytes text) }
    {
        if let Ok(short) = ArrayString::from(text.as_str()) {
            return Ok(Name {
                text: NameText::Short(short),
            });
        }
        Ok(Name {
            text: NameText::Long(RcStr::from_string(text)?),
        })
    }

    /// The name of a text that is lent.
    pub fn spelled(alloc: Global, text: &str) -> Result<Name, AllocError>
        ensures { IfOk result (λ n. n ≡ text.now) }
    {
        if let Ok(short) = ArrayString::from(text) {
            return Ok(Name {
                text: NameText::Short(short),
            });
        }
        Ok(Name {
            text: NameText::Long(RcStr::from_str(alloc, text)?),
        })
    }

    /// Makes it the name of a text that is lent, in place if both are short.
    pub(crate) fn set_to(&mut self, alloc: Global, text: &str) -> Result<(), AllocError>
        ensures { OnOk result (self.new ≡ text.now) }
    {
        if let NameText::Short(short) = &mut self.text {
            short.clear();
            if short.try_push_str(text).is_ok() {
                return Ok(());
            }
        }
        *self = Name::spelled(alloc, text)?;
        Ok(())
    }

    /// A copy of the name. It takes no memory, and is refused only where so many copies share the text that they can't be
    /// counted.
    pub fn copy(&self) -> Result<Name, AllocError>
        ensures { IfOk result (λ n. n ≡ self.now) }
    {
        let text = match &self.text {
            NameText::Short(short) => NameText::Short(*short),
            NameText::Long(shared) => NameText::Long(shared.clone()?),
        };
        Ok(Name { text })
    }

    /// The text.
    pub fn as_str(&self) -> &str
        ensures { result.now ≡ self.now }
    {
        match &self.text {
            NameText::Short(short) => short.as_str(),
            NameText::Long(shared) => shared.as_str(),
        }
    }
}

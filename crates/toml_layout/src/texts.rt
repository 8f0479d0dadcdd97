//! The texts of key parts, and how keys lie to addresses.
ghost use Rattle.std.specs.Prelude.{◌≡◌, ◌+◌, ◌++◌, ◌∷◌, [], IfOk, OnOk, false, length, map, option_map, string_bytes, true, vec_len};
ghost use Rattle.std.specs.Str.{bytes_eq};
ghost use Rattle.toml_names.specs.mentions.Keys.{spelled_name};
ghost use Rattle.toml_layout.specs.Leading.{in_common, is_named, open_names};
ghost use Rattle.toml_layout.specs.OpenOutlines.{dotted, leaf_text, line as line_outlined};
ghost use Rattle.toml_layout.specs.NewKeys.{HasParts, IsKey, bare_part};
ghost use Rattle.toml_layout.specs.RenamedPairs.{line_part_with};
ghost use Rattle.toml_layout.specs.RenamingIn.{first_with, rest_with};

use crate::layout::Layout;
use crate::tree::{Dotted, Expr, Key, Leaf, OpenLine};
use std::alloc::{AllocError, Global};
use toml_names::{Name, Step};
use toml_scalar::name_of;
use toml_text::Source;

/// Memory, the text of which trees are opened, which is that before the edits, or the value of an edit, and how new text is laid
/// out.
#[derive(Clone, Copy)]
pub struct Texts<'t> {
    pub alloc: Global,
    pub source: Source<'t>,
    pub layout: Layout,
}

impl<'t> Texts<'t> {
    /// Whether the key part has this name. A text that spells no name, which no key has as a part, counts as the empty one.
    fn is_name(self, part: Leaf<'t>, name: &Name) -> Result<bool, AllocError>
        ensures { IfOk result (λ same. same ≡ bytes_eq (spelled_name (leaf_text part.entry)) name.now) }
    {
        Ok(match name_of(self.alloc, part.text())? {
            Some(found) => found.as_str() == name.as_str(),
            None => name.as_str().is_empty(),
        })
    }

    /// Whether the key part is this step, if there is one.
    fn is_step(self, part: Leaf<'t>, step: Option<&Step>) -> Result<bool, AllocError>
        ensures { IfOk result (λ same. same ≡ is_named (spelled_name (leaf_text part.entry)) (option_map (λ s. s.now) step.entry)) }
    {
        match step {
            Some(Step::Name(name)) => self.is_name(part, name),
            _ => Ok(false),
        }
    }

    /// How many parts, from the first on, the key has in common with the steps.
    pub(crate) fn common(self, key: &Key<'t>, steps: &[Step]) -> Result<usize, AllocError>
        ensures { IfOk result (λ count. count ≡ in_common (open_names key.now) steps.now) }
    {
        if !self.is_step(key.first, steps.first())? {
            return Ok(0);
        }
        for (index, dotted) in key.rest.iter().enumerate() {
            if !self.is_step(dotted.part, steps.get(index + 1))? {
                return Ok(index + 1);
            }
        }
        Ok(key.parts())
    }
}

impl<'t> Key<'t> {
    /// How many parts it has.
    pub(crate) fn parts(&self) -> usize
        ensures { result ≡ length (open_names self.now) }
    {
        self.rest.len() + 1
    }

    /// The key of no name, to which parts are added.
    pub fn none(alloc: Global) -> Key<'t>
        ensures { IsKey [] [] result }
    {
        Key {
            first: Leaf::EMPTY,
            rest: Vec::new(alloc),
        }
    }

    /// Puts a part behind it, without whitespace, or as the first one.
    pub fn push(&mut self, first: bool, part: &'t str) -> Result<(), AllocError>
        ensures begun { OnOk result (first ≡ true → IsKey part.now (map dotted self.old.rest.items) self.new) }
        ensures added { let more = map dotted self.old.rest.items ++ bare_part part.now ∷ [] in
            OnOk result (first ≡ false → IsKey (leaf_text self.old.first) more self.new) }
    {
        if first {
            self.first = Leaf::New(part);
            return Ok(());
        }
        self.add(part)
    }

    /// Puts a part behind the first one, and those that stand there, without whitespace.
    fn add(&mut self, part: &'t str) -> Result<(), AllocError>
        ensures first { OnOk result (self.new.first ≡ self.old.first) }
        ensures count { OnOk result (vec_len self.new.rest ≡ vec_len self.old.rest + 1) }
        ensures part { OnOk result (map dotted self.new.rest.items ≡ map dotted self.old.rest.items ++ bare_part part.now ∷ []) }
    {
        self.rest.push(Dotted {
            before_dot: Leaf::EMPTY,
            after_dot: Leaf::EMPTY,
            part: Leaf::New(part),
        })?;
        Ok(())
    }

    /// The key of these parts, without whitespace.
    pub(crate) fn of(alloc: Global, parts: &'t [String]) -> Result<Key<'t>, AllocError>
        ensures { IfOk result (HasParts (map string_bytes parts.now)) }
    {
        let Some((first, others)) = parts.split_first() else {
            return Ok(Key::none(alloc));
        };
        let mut key = Key {
            first: Leaf::New(first.as_str()),
            rest: Vec::new(alloc),
        };
        for part in others {
            key.add(part.as_str())?;
        }
        Ok(key)
    }

    /// Changes the part with this number, from 0, if there is one.
    pub(crate) fn set_part(&mut self, number: usize, part: Leaf<'t>)
        ensures first { leaf_text self.new.first ≡ first_with number (leaf_text part.entry) (leaf_text self.old.first) }
        ensures rest { map dotted self.new.rest.items ≡ rest_with number (leaf_text part.entry) (map dotted self.old.rest.items) }
    {
        if number == 0 {
            self.first = part;
        } else if let Some(dotted) = self.rest.get_mut(number - 1) {
            dotted.part = part;
        }
    }
}

impl<'t> OpenLine<'t> {
    /// Changes a part of its key.
    pub fn set_part(&mut self, part: usize, leaf: Leaf<'t>)
        ensures { line_outlined self.new ≡ line_part_with (Some part) (leaf_text leaf.entry) (line_outlined self.old) }
    {
        match &mut self.expr {
            Expr::Blank => {}
            Expr::Pair(pair) => pair.assign.key.set_part(part, leaf),
            Expr::Header(header) => header.key.set_part(part, leaf),
        }
    }
}

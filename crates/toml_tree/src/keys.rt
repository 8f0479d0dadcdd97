//! Keys, and the `=` behind one.
ghost use Rattle.std.specs.Prelude.{◌≡◌, ◌<◌, map, IfOk};
ghost use Rattle.toml_scalar.specs.Scanning.{is_key_start};
ghost use Rattle.toml_text.specs.Runs.{begins};
ghost use Rattle.toml_tree.specs.Reading.{part_at, dotted_step, dotted_at, key_at, equals_at, assign_at};
ghost use Rattle.toml_tree.specs.Reads.{cursor, Moves, Reads, step};
ghost use Rattle.toml_tree.specs.View.{piece, dotted, key, assign};

use crate::growing::push_sparing;
use crate::piece::Piece;
use crate::reader::Reader;
use crate::step::Step;
use crate::tree::{Assign, Dotted, Key};
use std::alloc::Global;
use toml_scalar::{SyntaxFault, begins_key, scan_key};

impl<'t> Reader<'t> {
    /// Whether a key begins here.
    pub(crate) fn is_at_key(&self) -> bool
        ensures { result ≡ begins is_key_start (cursor self.now).rest }
    {
        begins_key(self.rest())
    }

    /// `simple-key`: a bare key or a one-line string.
    fn part(&mut self) -> Result<Piece<'t>, SyntaxFault>
        ensures reads { Reads piece (cursor self.old) (cursor self.new) result (part_at (cursor self.old)) }
        ensures moves { IfOk result (λ p. (cursor self.old).at < (cursor self.new).at) }
    {
        let span = scan_key(self.source, self.at)?;
        Ok(self.take_to(span.end))
    }

    /// `dot-sep simple-key`, or the end of the key: whitespace that no dot follows is no part of it.
    #[tactic(auto, unfolding(crate::specs::Reading::dotted_step))]
    fn dotted_step(&mut self) -> Result<Step<Dotted<'t>, ()>, SyntaxFault>
        ensures reads { Reads (step dotted (λ u. u)) (cursor self.old) (cursor self.new) result (dotted_step (cursor self.old)) }
        ensures moves { IfOk result (Moves (cursor self.old) (cursor self.new)) }
    {
        let end = *self;
        let before_dot = self.ws();
        if !self.eat(b'.') {
            *self = end;
            return Ok(Step::Done(()));
        }
        let after_dot = self.ws();
        let part = self.part()?;
        Ok(Step::Next(Dotted {
            before_dot,
            after_dot,
            part,
        }))
    }

    /// The parts of a key behind its first.
    fn dotted(&mut self, alloc: Global) -> Result<Vec<Dotted<'t>>, SyntaxFault>
        ensures { Reads (λ v. map dotted v.items) (cursor self.old) (cursor self.new) result (dotted_at (cursor self.old)) }
    {
        let mut parts = Vec::new(alloc);
        loop {
            match self.dotted_step()? {
                Step::Next(part) => push_sparing(&mut parts, part)?,
                Step::Done(()) => {
                    parts.shrink_to_fit();
                    return Ok(parts);
                }
            }
        }
    }

    /// `key`
    #[tactic(auto, unfolding(crate::specs::Reading::key_at))]
    pub(crate) fn key(&mut self, alloc: Global) -> Result<Key<'t>, SyntaxFault>
        ensures { Reads key (cursor self.old) (cursor self.new) result (key_at (cursor self.old)) }
    {
        let first = self.part()?;
        let rest = self.dotted(alloc)?;
        Ok(Key { first, rest })
    }

    /// `keyval-sep`: `=` between whitespace.
    #[tactic(auto, unfolding(crate::specs::Reading::equals_at))]
    fn equals(&mut self) -> Result<(Piece<'t>, Piece<'t>), SyntaxFault>
        ensures { Reads (λ p. (piece p.0, piece p.1)) (cursor self.old) (cursor self.new) result (equals_at (cursor self.old)) }
    {
        let before = self.ws();
        if !self.eat(b'=') {
            return Err(self.refuse());
        }
        let after = self.ws();
        Ok((before, after))
    }

    /// A key and `=` behind it.
    #[tactic(auto, unfolding(crate::specs::Reading::assign_at))]
    pub(crate) fn assign(&mut self, alloc: Global) -> Result<Assign<'t>, SyntaxFault>
        ensures { Reads assign (cursor self.old) (cursor self.new) result (assign_at (cursor self.old)) }
    {
        let key = self.key(alloc)?;
        let (before_equals, after_equals) = self.equals()?;
        Ok(Assign {
            key,
            before_equals,
            after_equals,
        })
    }
}

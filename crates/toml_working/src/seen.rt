//! A line by what finds it: what it is to an address.
ghost use Rattle.std.specs.Prelude.{◌≡◌};
ghost use Rattle.toml_names.specs.model.Addresses.{lent};
ghost use Rattle.toml_working.specs.FollowingHeaders.{is_header_in};
ghost use Rattle.toml_working.specs.Headers.{begins_later};
ghost use Rattle.toml_working.specs.InsertStanding.{is_bare};
ghost use Rattle.toml_working.specs.LookingUp.{last_pair_from};
ghost use Rattle.toml_working.specs.Placing.{is_header, pair_at};
ghost use Rattle.toml_working.specs.RemoveStanding.{makes, makes_apart, parts_to};
ghost use Rattle.toml_working.specs.RenameStanding.{part_number};
ghost use Rattle.toml_working.specs.Seeing.{heads, heads_below, is_dotted, is_sought, seen, steps_to};
ghost use Rattle.toml_working.specs.Standing.{leads_to, lies_below};
ghost use Rattle.toml_working.specs.TableEnds.{in_table_at};

use crate::lines::{Seen, Sought};
use crate::steps::{element_of, is_at_or_above, is_same_way, names_in};
use crate::working::Position;
use toml_names::{Address, Step};

impl Seen<'_> {
    /// How many steps its address has.
    pub(crate) fn steps(self) -> usize
        ensures { result ≡ steps_to (lent self.entry.address) }
    {
        match self.address {
            Some(address) => address.steps().len(),
            None => 0,
        }
    }

    /// Whether it is a header line.
    pub(crate) fn is_header(self) -> bool
        ensures { result ≡ is_header self.entry.base (lent self.entry.address) }
    {
        matches!((self.base, self.address), (None, Some(_)))
    }

    /// Whether it is a header line whose key has so many parts.
    pub(crate) fn is_header_in(self, parts: usize) -> bool
        ensures { result ≡ is_header_in parts self.entry.base (lent self.entry.address) }
    {
        match self.address {
            Some(own) => self.is_header() && names_in(own.steps()) == parts,
            None => false,
        }
    }

    /// Whether it has neither a key nor a header.
    pub(crate) fn is_bare(self) -> bool
        ensures { result ≡ is_bare self.entry.base (lent self.entry.address) }
    {
        matches!((self.base, self.address), (None, None))
    }

    /// Its place, if it has a key and a value, or the last one of those before it.
    pub(crate) fn pair_at(self, place: Position, last: Option<Position>) -> Option<Position>
        ensures { result ≡ pair_at self.entry.base place last }
    {
        match self.base {
            Some(_) => Some(place),
            None => last,
        }
    }

    /// Its place, if it has a key and a value and stands strictly below the address, or the last one of those before it.
    pub(crate) fn in_table_at(
        self,
        address: &Address,
        place: Position,
        last: Option<Position>,
    ) -> Option<Position>
        ensures { result ≡ in_table_at address.now self.entry.base (lent self.entry.address) place last }
    {
        match (self.base, self.address) {
            (Some(_), Some(own)) if address.is_above(own) => Some(place),
            _ => last,
        }
    }

    /// The last line with a key and a value behind it, or its own place, if there is none and it has them.
    pub(crate) fn last_pair_from(self, place: Position, last: Option<Position>) -> Option<Position>
        ensures { result ≡ last_pair_from self.entry.base place last }
    {
        match last {
            Some(_) => last,
            None => self.pair_at(place, None),
        }
    }

    /// Whether it is the header line of what stands at the address.
    fn is_header_of(self, at: &Address) -> bool
        ensures { result ≡ heads at.now self.entry.base (lent self.entry.address) }
    {
        match (self.base, self.address) {
            (None, Some(own)) => own.is_same(at),
            _ => false,
        }
    }

    /// Whether it stands at the address or below it.
    pub(crate) fn is_below(self, at: &Address) -> bool
        ensures { result ≡ lies_below at.now (lent self.entry.address) }
    {
        match self.address {
            Some(own) => is_at_or_above(at, own),
            None => false,
        }
    }

    /// Whether its value is what stands at the address, or holds it.
    fn holds(self, at: &Address) -> bool
        ensures { result ≡ leads_to at.now self.entry.base (lent self.entry.address) }
    {
        match (self.base, self.address) {
            (Some(_), Some(own)) => is_at_or_above(own, at),
            _ => false,
        }
    }

    /// Whether the address is that of a table which dotted keys make, its own one among them.
    fn is_dotted_in(self, at: &Address) -> bool
        ensures { result ≡ is_dotted at.now self.entry.base (lent self.entry.address) }
    {
        match (self.base, self.address) {
            (Some(base), Some(own)) => base < at.steps().len() && at.is_above(own),
            _ => false,
        }
    }

    /// Whether it is a header line at the address or below it.
    fn is_header_below(self, at: &Address) -> bool
        ensures { result ≡ heads_below at.now self.entry.base (lent self.entry.address) }
    {
        self.base.is_none() && self.is_below(at)
    }

    /// Whether it is what is sought.
    pub(crate) fn is_sought(self, what: Sought, at: &Address) -> bool
        ensures { result ≡ is_sought what at.now (seen self.entry) }
    {
        match what {
            Sought::Holder => self.holds(at),
            Sought::Header => self.is_header_of(at),
            Sought::Dotted => self.is_dotted_in(at),
            Sought::HeaderBelow => self.is_header_below(at),
        }
    }

    /// Whether it makes the table or the array of tables at the address: by its dotted key, or as a header there or below. Of an array
    /// so does a header below one of its elements; where there is one, that element's own header is there too.
    pub(crate) fn makes(self, at: &Address) -> bool
        ensures { result ≡ makes at.now self.entry.base (lent self.entry.address) }
    {
        self.is_dotted_in(at) || self.is_header_below(at)
    }

    /// Whether it makes what is at the address, and is neither at the other address nor below it.
    pub(crate) fn makes_beside(self, at: &Address, other: &Address) -> bool
        ensures { result ≡ makes_apart at.now other.now self.entry.base (lent self.entry.address) }
    {
        self.makes(at) && !self.is_below(other)
    }

    /// Whether it is the header of a later element of the array of tables whose element stands at the address. New elements come
    /// last, and so do their indices.
    pub(crate) fn begins_later(self, at: &Address) -> bool
        ensures { result ≡ begins_later at.now self.entry.base (lent self.entry.address) }
    {
        let Some(own) = self.address else {
            return false;
        };
        let Some((array, index)) = element_of(own.steps()) else {
            return false;
        };
        let Some((other, element)) = element_of(at.steps()) else {
            return false;
        };
        self.is_header() && index > element && is_same_way(array, other)
    }

    /// How many parts of its key lead to the address.
    pub(crate) fn parts_to(self, at: &Address) -> usize
        ensures { result ≡ parts_to at.now self.entry.base }
    {
        match self.base {
            Some(base) => at.steps().len().saturating_sub(base),
            None => names_in(at.steps()),
        }
    }

    /// Which part of its key stands for the address, if one does.
    pub(crate) fn part_of(self, at: &Address) -> Option<usize>
        ensures { result ≡ part_number at.now self.entry.base }
    {
        match self.base {
            Some(base) => at.steps().len().checked_sub(base.saturating_add(1)),
            None => names_in(at.steps()).checked_sub(1),
        }
    }
}

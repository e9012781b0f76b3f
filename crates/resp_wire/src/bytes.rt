//! Bytes that travel as one value.

ghost use Rattle.std.specs.Prelude.{◌≡◌, IfOk, IfSome, nat_eq, pos, length, ◌++◌, ◌∷◌, []};
ghost use Rattle.resp_wire.specs.Spelling.{cr, lf};
ghost use Rattle.std.proofs.Common.{rules};
ghost use Rattle.std.specs.Cmp.{partial_order_from_own_ties};
ghost use Rattle.std.specs.Cmp.Rules.{comparing, hashing};
ghost use Rattle.std.specs.Hash as fed;
ghost use Rattle.std.specs.Cmp.Lexicographic.{slice_cmp, pointwise, nat_list_cmp_total, nat_list_eq_equiv};
ghost use Rattle.std.specs.Ordering.{nat_cmp, as_partial_cmp};

use crate::fault::NoMemory;
use crate::part::Part;
use crate::short::Short;
use std::alloc::Global;
use std::cmp::Ordering;
use std::fmt;
use std::fmt::{Debug, Formatter, Write};
use std::hash::{Hash, Hasher};
use std::marker::Model;

/// The bytes of a bulk string.
pub struct Bytes {
    held: Held,
}

#[derive(Drop)]
pub(crate) enum Held {
    Short(Short),
    /// What was made from a vector.
    Owned(Vec<u8>),
    /// Long ones, which lie once for all copies, and large ones in the buffer that they came in.
    Shared(Part),
}

// So that a caller's proof has one case where a value goes, and not one for each form.
impl Drop for Bytes {
    fn drop(self) {
        let Bytes { held } = self;
        drop(held);
    }
}

impl Model for Bytes {
    ghost use Rattle.std.specs.Prelude.{List, ℕ};
    ghost use Rattle.resp_wire.specs.Held.{bytes_of};

    ghost Value = { List ℕ };

    ghost view = { λ a. bytes_of a.held };
}

impl Bytes {
    pub fn new(bytes: Vec<u8>) -> Bytes
        ensures { result ≡ bytes.items }
    {
        Bytes {
            held: Held::Owned(bytes),
        }
    }

    pub fn from_slice(alloc: Global, bytes: &[u8]) -> Result<Bytes, NoMemory>
        ensures { IfOk result (λ copy. copy ≡ bytes.now) }
    {
        let held = match Short::new(bytes) {
            Some(short) => Held::Short(short),
            None => Held::Shared(Part::new(alloc, Vec::from_slice(alloc, bytes)?, 0)?),
        };
        Ok(Bytes { held })
    }

    pub(crate) fn from_part(part: Part) -> Bytes
        ensures { result ≡ part }
    {
        Bytes {
            held: Held::Shared(part),
        }
    }

    /// The same bytes. Long ones lie in memory once, but for what was made from a vector.
    pub fn copy(&self, alloc: Global) -> Result<Bytes, NoMemory>
        ensures { IfOk result (λ copy. copy ≡ self.now) }
    {
        let held = match &self.held {
            Held::Short(short) => Held::Short(short.copy()),
            Held::Owned(bytes) => return Bytes::from_slice(alloc, bytes),
            Held::Shared(part) => Held::Shared(part.copy()?),
        };
        Ok(Bytes { held })
    }

    /// The same bytes and a line end behind them, where they lie so in the buffer that they came in.
    pub fn with_line_end(&self) -> Option<Bytes>
        ensures { IfSome result (λ line. line ≡ self.now ++ cr ∷ lf ∷ []) }
    {
        match &self.held {
            Held::Shared(part) => Some(Bytes::from_part(part.with_line_end()?)),
            Held::Short(_) => None,
            Held::Owned(_) => None,
        }
    }

    pub fn as_slice(&self) -> &[u8]
        ensures { result.now ≡ self.now }
    {
        match &self.held {
            Held::Short(short) => short.as_slice(),
            Held::Owned(bytes) => bytes.as_slice(),
            Held::Shared(part) => part.as_slice(),
        }
    }

    pub fn len(&self) -> i64
        ensures { result ≡ pos (length self.now) }
    {
        self.as_slice().len() as i64
    }

    /// These bytes and then the others, in memory of their own.
    pub fn joined(&self, alloc: Global, tail: &Bytes) -> Result<Bytes, NoMemory>
        ensures { IfOk result (λ whole. whole ≡ self.now ++ tail.now) }
    {
        let mut bytes = Vec::from_slice(alloc, self.as_slice())?;
        bytes.extend_from_slice(tail.as_slice())?;
        Ok(Bytes::new(bytes))
    }

    /// What was made from a vector comes back without a copy.
    pub fn into_vec(self, alloc: Global) -> Result<Vec<u8>, NoMemory>
        ensures { IfOk result (λ bytes. bytes.items ≡ self) }
    {
        let Bytes { held } = self;
        match held {
            Held::Owned(bytes) => Ok(bytes),
            held => Ok(Vec::from_slice(alloc, Bytes { held }.as_slice())?),
        }
    }
}

impl Debug for Bytes {
    fn fmt<W: Write>(&self, f: &mut Formatter<W>) -> fmt::Result {
        f.debug_tuple("Bytes").field(&self.as_slice()).finish()
    }
}

impl PartialEq for Bytes {
    ghost eq = { pointwise nat_eq };

    ghost laws = { Prim.search (comparing, rules) };

    fn eq(&self, other: &Bytes) -> bool {
        self.as_slice() == other.as_slice()
    }
}

impl Eq for Bytes {
    ghost laws = { nat_list_eq_equiv };
}

impl Hash for Bytes {
    ghost hash_input = { fed.slice fed.u8 };

    ghost respects_eq = { Prim.search (hashing, rules) };

    fn hash<H: Hasher>(&self, state: &mut H) {
        self.as_slice().hash(state);
    }
}

impl Ord for Bytes {
    ghost cmp = { slice_cmp nat_cmp };

    ghost total = { nat_list_cmp_total };

    ghost matches_partial_cmp = { Prim.search (comparing, rules) };

    ghost matches_eq = { Prim.search (comparing, rules) };

    fn cmp(&self, other: &Bytes) -> Ordering {
        self.as_slice().cmp(other.as_slice())
    }
}

impl PartialOrd for Bytes {
    ghost partial_cmp = { as_partial_cmp (slice_cmp nat_cmp) };

    ghost laws = { partial_order_from_own_ties (Prim.search (comparing, rules)) (Prim.search (comparing, rules)) };

    fn partial_cmp(&self, other: &Bytes) -> Option<Ordering> {
        Some(self.cmp(other))
    }
}

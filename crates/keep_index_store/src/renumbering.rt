//! The numbers of a line, and how those of a node change where a line comes or goes.
ghost use Rattle.std.specs.Prelude.{◌≡◌, IfNone, IfSome};
ghost use Rattle.keep_path.specs.NodeInfos as spec;
ghost use Rattle.keep_index_store.specs.Facts.{info_of};
ghost use Rattle.keep_index_store.specs.Renumbering.{CanGrow, InfoCanGrow, least_number, number_for, renumbered_facts};

use crate::facts::{NodeFacts, OriginKind};
use std::marker::Model;

/// The numbers of a line's statement, of its value, and of its one key part.
#[derive(Clone, Copy)]
pub struct LineNumbers {
    pub statement: usize,
    pub value: usize,
    pub key: usize,
}

impl LineNumbers {
    /// The line's number of the sort that a place names, if it names one.
    #[inline(always)]
    pub(crate) fn number_for(self, origin: OriginKind) -> Option<usize>
        ensures { result ≡ number_for self origin }
    {
        match origin {
            OriginKind::Value | OriginKind::Dotted => Some(self.value),
            OriginKind::Header | OriginKind::Element | OriginKind::Through => Some(self.statement),
            OriginKind::Root | OriginKind::Tables => None,
        }
    }
}

/// The numbers of a line, and for each kind of place the least number there that changes with the line, in the order of
/// the kinds: so that what a node's place is takes no test where the numbers of all nodes change.
#[derive(Drop)]
pub struct LeastNumbers {
    line: LineNumbers,
    by_origin: [usize; 7],
}

impl Model for LeastNumbers {
    ghost use Rattle.std.specs.Prelude.{◌≡◌};
    ghost use Rattle.keep_index_store.specs.declared.renumbering.LineNumbers.{LineNumbers};
    ghost use Rattle.keep_index_store.specs.Renumbering.{least_numbers};

    ghost Value = { LineNumbers };

    ghost view = { λ least. least.line };

    ghost invariant = { λ least. least.by_origin ≡ least_numbers least.line };
}

impl LeastNumbers {
    /// Those of a line.
    pub(crate) fn of(line: LineNumbers) -> LeastNumbers
        ensures { result ≡ line }
    {
        let LineNumbers {
            statement,
            value,
            ..
        } = line;
        LeastNumbers {
            line,
            by_origin: [
                usize::MAX,
                statement,
                value,
                statement,
                statement,
                usize::MAX,
                value,
            ],
        }
    }

    /// The least number of a place of that kind that changes; the largest there is, if the place names none.
    #[inline(always)]
    pub(crate) fn at(&self, origin: OriginKind) -> usize
        ensures { result ≡ least_number self.now origin }
    {
        self.by_origin[origin as usize]
    }

    /// The least number of a key part that changes.
    #[inline(always)]
    pub(crate) fn key(&self) -> usize
        ensures { result ≡ self.now.key }
    {
        self.line.key
    }

    /// The numbers of the line.
    #[inline(always)]
    pub(crate) fn line(&self) -> LineNumbers
        ensures { result ≡ self.now }
    {
        self.line
    }
}

/// What a number is once there is one more at `at`. None, if it can't be greater by one.
#[inline(always)]
fn later_number(at: usize, number: usize) -> Option<usize>
    ensures later { IfSome result (λ n. n ≡ spec.later_number at number) }
    ensures full { IfNone result (CanGrow number → ⊥) }
{
    if number < at {
        Some(number)
    } else {
        number.checked_add(1)
    }
}

/// What a number is once that at `at` is gone.
#[inline(always)]
pub(crate) fn earlier_number(at: usize, number: usize) -> usize
    ensures { result ≡ spec.earlier_number at number }
{
    if at < number { number - 1 } else { number }
}

impl NodeFacts {
    /// The facts once the line is there. None, if a number can't be greater by one.
    #[inline(always)]
    pub(crate) fn later(self, line: LineNumbers) -> Option<NodeFacts>
        ensures later { IfSome result (λ facts. facts ≡ renumbered_facts spec.later_number line self) }
        ensures full { IfNone result (InfoCanGrow (info_of self) → ⊥) }
    {
        Some(NodeFacts {
            key: if self.marks == 0 {
                self.key
            } else {
                later_number(line.key, self.key)?
            },
            number: match line.number_for(self.origin) {
                Some(at) => later_number(at, self.number)?,
                None => self.number,
            },
            ..self
        })
    }

    /// The facts once the line is gone.
    #[inline(always)]
    pub(crate) fn earlier(self, line: LineNumbers) -> NodeFacts
        ensures { result ≡ renumbered_facts spec.earlier_number line self }
    {
        NodeFacts {
            key: if self.marks == 0 {
                self.key
            } else {
                earlier_number(line.key, self.key)
            },
            number: match line.number_for(self.origin) {
                Some(at) => earlier_number(at, self.number),
                None => self.number,
            },
            ..self
        }
    }
}

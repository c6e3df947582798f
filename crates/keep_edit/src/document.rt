//! Documents, and what can be asked of them.
ghost use Rattle.std.specs.Prelude.{◌≡◌, ◌≤◌, ◌+◌, length, string_bytes, IfOk, IfErr, IsOkUnless, MatchResult, Ok, Err};
ghost use Rattle.std.specs.Option.{option_map};
ghost use Rattle.keep_types.specs.declared.leaf.Profile.TheVariants.{Strict};
ghost use Rattle.keep_syntax.specs.declared.fault.ReadFault.TheVariants.{Memory};
ghost use Rattle.keep_syntax.specs.Tree as tree;
ghost use Rattle.keep_syntax.specs.Contract.{left};
ghost use Rattle.keep_syntax.specs.Numbered as syntax;
ghost use Rattle.keep_edit.specs.Reading.{IsAccepted, IsRefused, IsSyntaxIn, IsTextOfTree, ReportsNoText, text_in};

mod entries;

use crate::str_text::{StrText, str_text};
use keep_edit_plan::{DocumentRef, part_at};
use keep_edit_spec::EditFault;
use keep_rules::{Index, Kind, NodeId, Path};
use keep_syntax::{Limits, ReadFault, STANDARD_DEPTH, Syntax, Tokens};
use keep_token::{Leaf, Profile, integer_of, text_of};
use std::alloc::{AllocError, Global};
use std::marker::Model;

/// How many tokens and nodes a document has.
#[derive(Clone, Copy, Debug, PartialEq, Eq)]
pub struct Counts {
    /// The last one, `End`, is counted.
    pub tokens: usize,
    /// The root is counted.
    pub nodes: usize,
}

/// A node of a document.
#[derive(Debug, Drop)]
pub struct Entry {
    pub path: Path,
    pub kind: Kind,
}

/// A document that was read in a profile: a text that the profile's grammar has, in which the rules of definition hold
/// and arrays and inline tables enclose one another no deeper than the standard depth.
#[derive(Drop)]
pub struct Document {
    pub(crate) text: String,
    pub(crate) profile: Profile,
    pub(crate) syntax: Syntax,
    pub(crate) index: Index,
}

impl Model for Document {
    ghost use Rattle.std.specs.Prelude.{string_bytes};
    ghost use Rattle.keep_edit.specs.Reading.{Holds, ProfiledText, text_in};

    ghost Value = { ProfiledText };

    ghost view = { λ d. text_in d.profile (string_bytes d.text) };

    ghost invariant = { λ d. Holds (text_in d.profile (string_bytes d.text)) d.syntax d.index };
}

impl Document {
    ghost use Rattle.keep_edit.specs.Answers.{counts_of};

    /// Reads a document as TOML v1.0.0, to the standard depth.
    ///
    /// # Errors
    ///
    /// `Utf8` exactly if the bytes are no text, with the length of their longest prefix that is text; else `Syntax` or
    /// `TooDeep`, whichever is met first; else `Define` with the start of the first key part that breaks a rule of
    /// definition; `Memory` if the bytes are text and memory was refused. Places are bytes from the start.
    pub fn read(alloc: Global, bytes: &[u8]) -> Result<Document, ReadFault>
        ensures text { IfOk result (λ document. document ≡ text_in Strict bytes.now) }
        ensures accepted { IfOk result IsAccepted }
        ensures only { IsAccepted (text_in Strict bytes.now) → IsOkUnless result Memory }
        ensures faults { IfErr result (IsRefused (text_in Strict bytes.now)) }
        ensures no_text { ReportsNoText bytes.now result }
    {
        Document::read_in(alloc, bytes, Profile::Strict)
    }

    /// Reads a document in a profile, to the standard depth.
    ///
    /// # Errors
    ///
    /// Those of `read`.
    pub fn read_in(alloc: Global, bytes: &[u8], profile: Profile) -> Result<Document, ReadFault>
        ensures text { IfOk result (λ document. document ≡ text_in profile bytes.now) }
        ensures accepted { IfOk result IsAccepted }
        ensures only { IsAccepted (text_in profile bytes.now) → IsOkUnless result Memory }
        ensures faults { IfErr result (IsRefused (text_in profile bytes.now)) }
        ensures no_text { ReportsNoText bytes.now result }
    {
        match text_of(bytes) {
            Ok(text) => Document::of_text(alloc, String::from_str(alloc, text)?, profile),
            Err(at) => Err(ReadFault::Utf8 { at }),
        }
    }

    /// Reads a document as `read` does, and keeps the bytes themselves as its text: they are not copied.
    ///
    /// # Errors
    ///
    /// Those of `read`.
    pub fn read_owned(alloc: Global, bytes: Vec<u8>) -> Result<Document, ReadFault>
        ensures text { IfOk result (λ document. document ≡ text_in Strict bytes.items) }
        ensures accepted { IfOk result IsAccepted }
        ensures only { IsAccepted (text_in Strict bytes.items) → IsOkUnless result Memory }
        ensures faults { IfErr result (IsRefused (text_in Strict bytes.items)) }
        ensures no_text { ReportsNoText bytes.items result }
    {
        Document::read_owned_in(alloc, bytes, Profile::Strict)
    }

    /// Reads a document as `read_in` does, and keeps the bytes themselves as its text: they are not copied.
    ///
    /// # Errors
    ///
    /// Those of `read`.
    pub fn read_owned_in(
        alloc: Global,
        bytes: Vec<u8>,
        profile: Profile,
    ) -> Result<Document, ReadFault>
        ensures text { IfOk result (λ document. document ≡ text_in profile bytes.items) }
        ensures accepted { IfOk result IsAccepted }
        ensures only { IsAccepted (text_in profile bytes.items) → IsOkUnless result Memory }
        ensures faults { IfErr result (IsRefused (text_in profile bytes.items)) }
        ensures no_text { ReportsNoText bytes.items result }
    {
        match text_of(bytes.as_slice()) {
            Ok(_) => {
                // SAFETY: these bytes are text.
                let text = unsafe { String::from_utf8_unchecked(bytes) };
                Document::of_text(alloc, text, profile)
            }
            Err(at) => Err(ReadFault::Utf8 { at }),
        }
    }

    /// Reads the document of a text.
    pub(crate) fn of_text(
        alloc: Global,
        text: String,
        profile: Profile,
    ) -> Result<Document, ReadFault>
        ensures text { IfOk result (λ document. document ≡ text_in profile (string_bytes text)) }
        ensures accepted { IfOk result IsAccepted }
        ensures only { IsAccepted (text_in profile (string_bytes text)) → IsOkUnless result Memory }
        ensures faults { IfErr result (IsRefused (text_in profile (string_bytes text))) }
    {
        let limits = Limits {
            depth: STANDARD_DEPTH,
            profile,
        };
        let syntax = Syntax::read(alloc, text.as_str(), limits)?;
        Document::of_syntax(alloc, text, profile, syntax)
    }

    /// The document of a text by the syntax that was read of it, which is known to be none only by the definition
    /// rules.
    pub(crate) fn of_syntax(
        alloc: Global,
        text: String,
        profile: Profile,
        syntax: Syntax,
    ) -> Result<Document, ReadFault>
        requires { IsSyntaxIn (text_in profile (string_bytes text)) syntax }
        ensures text { IfOk result (λ document. document ≡ text_in profile (string_bytes text)) }
        ensures accepted { IfOk result IsAccepted }
        ensures only { IsAccepted (text_in profile (string_bytes text)) → IsOkUnless result Memory }
        ensures faults { IfErr result (IsRefused (text_in profile (string_bytes text))) }
    {
        let index = Index::build(alloc, text.as_str(), &syntax)?;
        Ok(Document {
            text,
            profile,
            syntax,
            index,
        })
    }

    /// The profile that the document was read in.
    pub fn profile(&self) -> Profile
        ensures profile { result ≡ self.now.profile }
        ensures accepted { IsAccepted self.now }
    {
        self.profile
    }

    /// The text.
    pub fn text(&self) -> &str
        ensures text { result.now ≡ self.now.text }
        ensures accepted { IsAccepted self.now }
    {
        self.text.as_str()
    }

    /// The tokens in the order of the text. `End`, with the empty text, is the last.
    pub fn tokens(&self) -> Tokens<'_>
        ensures tokens { (s : tree.Document) → IsTextOfTree self.now s → left result ≡ syntax.tokens s }
        ensures accepted { IsAccepted self.now }
    {
        self.syntax.tokens(self.text.as_str())
    }

    /// How many tokens and nodes there are: of each at most one more than the text has bytes.
    pub fn counts(&self) -> Counts
        ensures counts { (s : tree.Document) → IsTextOfTree self.now s → result ≡ counts_of s }
        ensures accepted { IsAccepted self.now }
        ensures few_tokens { result.tokens ≤ length self.now.text + 1 }
        ensures few_nodes { result.nodes ≤ length self.now.text + 1 }
    {
        Counts {
            tokens: self.syntax.token_count(),
            nodes: self.index.node_count(),
        }
    }

    /// The text alone. It takes no memory.
    pub fn into_text(self) -> String
        ensures text { string_bytes result ≡ self.text }
        ensures accepted { IsAccepted self }
    {
        let Document { text, .. } = self;
        text
    }

    /// The document as its edits look at it.
    pub(crate) fn as_ref(&self) -> DocumentRef<'_>
        ensures { result ≡ self.now }
    {
        DocumentRef::new(self.text.as_str(), self.profile, &self.syntax, &self.index)
    }

    /// The allocator of the text, which gives the memory that an edit takes.
    pub(crate) fn alloc(&self) -> Global {
        *self.text.allocator()
    }
}

impl Document {
    ghost use Rattle.std.specs.Prelude.{List};
    ghost use Rattle.keep_path.specs.Path.{Part};
    ghost use Rattle.keep_edit.specs.Answers.{kind_of, int_value_of, str_value_of, entries_of, IsFound};
    ghost use Rattle.keep_edit_spec.specs.Answers as answers;
    ghost use Rattle.keep_edit.specs.StrTexts.{text_of_str};

    /// What is at a path; None where it names no node.
    pub fn kind(&self, path: &Path) -> Option<Kind>
        ensures kind { (s : tree.Document) → IsTextOfTree self.now s → result ≡ kind_of path.now s }
        ensures accepted { IsAccepted self.now }
    {
        let id = self.index.find(path)?;
        Some(self.index.node(id).kind)
    }

    /// The text of the value at a path, as it is written. It takes no memory.
    ///
    /// # Errors
    ///
    /// `NotFound` where the path names no node; `NotValue` where the node has no value with a text of its own.
    pub fn get(&self, path: &Path) -> Result<&str, EditFault>
        ensures got { (s : tree.Document) → IsTextOfTree self.now s
            → MatchResult result (λ text. answers.get path.now s ≡ Ok text.now)
            (λ fault. answers.get path.now s ≡ Err fault) }
        ensures accepted { IsAccepted self.now }
    {
        let text = self.text.as_str();
        let number = self.as_ref().value_number(path)?;
        Ok(part_at(text, self.syntax.value(number).span))
    }

    /// The integer at a path; None where something else is there, or nothing. It takes no memory.
    pub fn int_value(&self, path: &Path) -> Option<i64>
        ensures integer { (s : tree.Document) → IsTextOfTree self.now s → result ≡ int_value_of path.now s }
        ensures accepted { IsAccepted self.now }
    {
        let text = self.text.as_str();
        let number = self.as_ref().value_number(path).ok()?;
        let value = self.syntax.value(number);
        match value.leaf {
            Leaf::Integer => integer_of(part_at(text, value.span)),
            _ => None,
        }
    }

    /// What the string at a path means, decoded; None where something else is there, or nothing. The only error is
    /// out of memory.
    pub fn str_value(&self, alloc: Global, path: &Path) -> Result<Option<String>, AllocError>
        ensures string { (s : tree.Document) → IsTextOfTree self.now s
            → IfOk result (λ found. option_map string_bytes found ≡ str_value_of path.now s) }
        ensures accepted { IsAccepted self.now }
    {
        match self.text_found(alloc, self.as_ref().value_number(path))? {
            Some(text) => Ok(Some(text.into_string(alloc)?)),
            None => Ok(None),
        }
    }

    // What the string means whose number was looked for at a path; None where another value was found, or none.
    pub(crate) fn text_found(
        &self,
        alloc: Global,
        found: Result<usize, EditFault>,
    ) -> Result<Option<StrText<'_>>, AllocError>
        requires { (path : List Part) × ((s : tree.Document) → IsTextOfTree self.now s → IsFound path s found) }
        ensures string { (path : List Part) (s : tree.Document) → IsTextOfTree self.now s → IsFound path s found
            → IfOk result (λ text. option_map text_of_str text ≡ str_value_of path s) }
        ensures accepted { IsAccepted self.now }
    {
        let text = self.text.as_str();
        let Ok(number) = found else {
            return Ok(None);
        };
        let value = self.syntax.value(number);
        match value.leaf {
            Leaf::Basic | Leaf::Literal | Leaf::MlBasic | Leaf::MlLiteral => {
                Ok(Some(str_text(alloc, value.leaf, part_at(text, value.span))?))
            }
            _ => Ok(None),
        }
    }

    /// All nodes but the root, in the order in which the text, read from its start, first meets them. The only error is
    /// out of memory.
    pub fn list(&self, alloc: Global) -> Result<Vec<Entry>, AllocError>
        ensures entries { (s : tree.Document) → IsTextOfTree self.now s
            → IfOk result (λ entries. entries.items ≡ entries_of s) }
        ensures accepted { IsAccepted self.now }
    {
        let mut entries = Vec::new(alloc);
        for number in 1..self.index.node_count() {
            let id = NodeId(number);
            let path = self.index.path_of(alloc, id)?;
            let kind = self.index.node(id).kind;
            entries.push(Entry { path, kind })?;
        }
        Ok(entries)
    }
}
